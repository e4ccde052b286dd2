// Where each key of a list goes, by its true counts: to the side if all are top or more, else to the bucket that it chooses.
ghost use Rattle.std.specs.Prelude.{◌≡◌, true, cond, List, ℕ, ◌+◌, ◌<◌, ◌≤◌, length, IfSome};
ghost use Rattle.theory.specs.Records.{records};
ghost use Rattle.theory.specs.Hash.{H as H_of};
ghost use Rattle.theory.specs.Settings.{allowed};
ghost use Rattle.settings.specs.Checked.{paper, card};
ghost use Rattle.placing.specs.Ready.{Ready, Choosing, ChoosingParts};
ghost use Rattle.placing.specs.Worked.{nth, held, choice_of, is_choice, Chose, ChoseParts, list_of};

use crate::{Parts, h_of};
use memory::records::key_at;
use settings::Settings;
use settings::counts::TrueCount;

// Where the key goes whose H is h: to the side, None, if all its counts are top or more, else to the bucket that it chooses. The least rank has the
// least count, or top where all are top or more, and the lowest bucket with it. The loop has no branch; repeated hashes are read again and alter nothing.
fn choose_at(s: Settings, h: u64, counts: &[u16]) -> Option<usize>
    requires ok { allowed (paper s) ≡ true }
    requires buckets { length counts.now ≡ (card s).buckets }
    ensures { (key : List ℕ) → h ≡ H_of key → result ≡ choice_of (card s) (nth counts.now) key }
{
    let m = s.buckets() as u64;
    let top = s.top as u64;
    let mut best = top * 65536 + m;
    for j in 0..s.k {
        let b = (h >> (16 * j)) % m;
        let rank = TrueCount::of_number(counts[b as usize]).rank(b);
        best = rank.min(best);
    }
    if best / 65536 == top {
        return None;
    }
    Some((best % 65536) as usize)
}

// A key's choice by true counts.
fn choose(s: Settings, table: &[u64], counts: &[u16], key: &[u8]) -> Option<usize>
    requires ready { Ready s table.now }
    requires buckets { length counts.now ≡ (card s).buckets }
    requires wide { length key.now ≡ (card s).width }
    ensures { result ≡ choice_of (card s) (nth counts.now) key.now }
{
    choose_at(s, h_of(s, table, key), counts)
}

// One more for the chosen bucket, if there is one.
fn add_choice(choosers: &mut [u16], choice: Option<usize>)
    requires within { IfSome choice (λ b. b < length choosers.old) }
    requires few { (b : ℕ) → nth choosers.old b ≤ 60000 }
    ensures { (b : ℕ) → nth choosers.new b ≡ nth choosers.old b + cond (is_choice b choice) 1 0 }
{
    if let Some(bucket) = choice {
        choosers[bucket] += 1;
    }
}

// How many records of a part choose each bucket, by true counts, on top of the choosers that are there.
// Each record's choice is kept as one number: the number of buckets where its counts are all top or more.
pub fn choose_more(
    s: Settings,
    table: &[u64],
    counts: &[u16],
    choosers: &mut [u16],
    part: &[u8],
    choices: &mut [u16],
)
    requires { Choosing s table.now counts.now choosers.old part.now choices.old }
    ensures { Chose (card s) counts.now (records (card s).width (held (card s).width part.now) part.now)
        choosers.old choosers.new choices.new }
{
    let m = s.buckets();
    let width = s.width();
    let size = s.record_size();
    for (i, kept) in choices.iter_mut().enumerate() {
        let key = key_at(part, i, size, width);
        let choice = choose(s, table, counts, key);
        *kept = choice.unwrap_or(m) as u16;
        add_choice(choosers, choice);
    }
}

// The choices and choosers of a list that lies in three parts.
pub fn choose_parts(
    s: Settings,
    table: &[u64],
    counts: &[u16],
    choosers: &mut [u16],
    parts: Parts<'_>,
    choices: &mut [u16],
)
    requires { ChoosingParts s table.now counts.now choosers.old parts choices.old }
    ensures { ChoseParts (card s) counts.now (list_of (card s).width parts.entry) choosers.new choices.new }
{
    let size = s.record_size();
    choosers.fill(0);
    let (before, rest) = choices.split_at_mut(parts.before.len() / size);
    let (between, after) = rest.split_at_mut(parts.between.len() / size);
    choose_more(s, table, counts, choosers, parts.before, before);
    choose_more(s, table, counts, choosers, parts.between, between);
    choose_more(s, table, counts, choosers, parts.after, after);
}
