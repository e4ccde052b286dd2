// How many keys of a list have each bucket among theirs: its true counts.
ghost use Rattle.std.specs.Prelude.{◌≡◌, true, cond, List, ℕ, ◌+◌, ◌≤◌, length};
ghost use Rattle.theory.specs.Lists.{has};
ghost use Rattle.theory.specs.Records.{records};
ghost use Rattle.theory.specs.Hash.{H as H_of};
ghost use Rattle.theory.specs.Settings.{allowed};
ghost use Rattle.theory.specs.Placing.{true_count};
ghost use Rattle.settings.specs.Checked.{paper, card};
ghost use Rattle.placing.specs.Ready.{Counting, CountingParts};
ghost use Rattle.placing.specs.Worked.{nth, held, list_of};

use crate::{Parts, h_of};
use memory::picks::pick;
use settings::Settings;
use settings::counts::TrueCount;

// One more for each of a key's bucket numbers, where its H is h: "its first k hashes, repeats dropped". No branch: a repeated hash adds 0.
fn raise_at(s: Settings, h: u64, counts: &mut [u16])
    requires ok { allowed (paper s) ≡ true }
    requires buckets { length counts.old ≡ (card s).buckets }
    requires few { (b : ℕ) → nth counts.old b ≤ 60000 }
    ensures { (key : List ℕ) → h ≡ H_of key
        → (b : ℕ) → nth counts.new b ≡ nth counts.old b + cond (has b ((card s).numbers key)) 1 0 }
{
    let m = s.buckets() as u64;
    for j in 0..s.k {
        let b = (h >> (16 * j)) % m;
        let at = b as usize;
        let more = pick(hash::repeats(h, j, m, b), 0, 1);
        counts[at] = TrueCount::of_number(counts[at]).raised(more).number();
    }
}

// The true counts of the records of a part, on top of what is there.
pub fn count_more(s: Settings, table: &[u64], counts: &mut [u16], part: &[u8])
    requires { Counting s table.now counts.old part.now }
    ensures { (b : ℕ) → nth counts.new b
        ≡ nth counts.old b + true_count (card s) (records (card s).width (held (card s).width part.now) part.now) b }
{
    let width = s.width();
    for record in part.chunks_exact(s.record_size()) {
        raise_at(s, h_of(s, table, &record[..width]), counts);
    }
}

// The true counts of a list that lies in three parts.
pub fn count_parts(s: Settings, table: &[u64], counts: &mut [u16], parts: Parts<'_>)
    requires { CountingParts s table.now counts.old parts }
    ensures { (b : ℕ) → nth counts.new b ≡ true_count (card s) (list_of (card s).width parts.entry) b }
{
    counts.fill(0);
    count_more(s, table, counts, parts.before);
    count_more(s, table, counts, parts.between);
    count_more(s, table, counts, parts.after);
}
