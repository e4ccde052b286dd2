// Tally: what the areas hold, counted.
#![tactic(auto)]

ghost use Rattle.std.specs.Prelude.{◌≡◌, true, not, ◌&&◌, List, ℕ, eqb, ltb, length};
ghost use Rattle.theory.specs.Lists.{any, upto, sum, filter};
ghost use Rattle.theory.specs.Settings.{allowed, ledger_length, clipped_length, buckets_length};
ghost use Rattle.theory.specs.Records.{count_of};
ghost use Rattle.theory.specs.Layout.{Areas};
ghost use Rattle.theory.specs.Lookup as plain;
ghost use Rattle.theory.specs.Ledger as ledgers;
ghost use Rattle.theory.specs.Ledger.{Step, totalled};
ghost use Rattle.theory.specs.Calls.{marks, lookup_invalid, tally_areas, perform};
ghost use Rattle.settings.specs.Checked.{paper, given_of, card};
ghost use Rattle.lookup.specs.Places.{CheckedLookup};
ghost use Rattle.tally.specs.Tallies.{totals_of, Fillable, read_areas, entry_read};

use lookup::counters::counter;
use memory::numbers::count_at;
use memory::refusals::Refusal;
use settings::areas::LookupAreas;
use settings::{Given, Settings};

// Records in buckets, records in the side store, buckets marked 255, fill.
#[derive(Clone, Copy)]
pub struct Totals {
    pub in_buckets: u32,
    pub in_side: u32,
    pub marked_255: u32,
    pub fill: u32,
}

// No clipped count is above T.
fn counters_valid(s: Settings, clipped: &[u8]) -> bool
    requires { (allowed (paper s) ≡ true) × (length clipped.now ≡ clipped_length (card s)) }
    ensures { result ≡ not (any (λ b. ltb s.top (plain.counter clipped.now b)) (upto 0 (card s).buckets)) }
{
    let m = s.buckets();
    for b in 0..m {
        if counter(clipped, b).above(s.top) {
            return false;
        }
    }
    true
}

// No mark is above B but 255.
fn marks_valid(s: Settings, buckets: &[u8]) -> bool
    requires { (allowed (paper s) ≡ true) × (length buckets.now ≡ buckets_length (card s)) }
    ensures { result ≡ not (any (λ x. ltb s.room x && not (eqb x 255)) (marks (card s) buckets.now)) }
{
    for bucket in buckets.chunks_exact(s.bucket_size()) {
        let mark = usize::from(bucket[0]);
        if (s.room < mark) & (mark != 255) {
            return false;
        }
    }
    true
}

// The sum of the marks other than 255, and how many are 255.
#[derive(Clone, Copy)]
struct Marks {
    in_buckets: u32,
    marked_255: u32,
}

fn sum_marks(s: Settings, buckets: &[u8]) -> Marks
    requires { (allowed (paper s) ≡ true) × (length buckets.now ≡ buckets_length (card s)) }
    ensures in_buckets { result.in_buckets ≡ sum (filter (λ x. not (eqb x 255)) (marks (card s) buckets.now)) }
    ensures marked_255 { result.marked_255 ≡ length (filter (λ x. eqb x 255) (marks (card s) buckets.now)) }
{
    let mut in_buckets: u32 = 0;
    let mut marked_255: u32 = 0;
    for bucket in buckets.chunks_exact(s.bucket_size()) {
        let mark = bucket[0];
        if mark == 255 {
            marked_255 += 1;
        } else {
            in_buckets += u32::from(mark);
        }
    }
    Marks {
        in_buckets,
        marked_255,
    }
}

// "5, in what a search or tally reads, a clipped count above T, a mark above B other than 255, a side count above S"
fn lookup_valid(s: Settings, areas: LookupAreas<'_>) -> bool
    requires { CheckedLookup (paper s) areas.clipped.now areas.buckets.now areas.side.now }
    ensures { (ledger : List ℕ) → result
        ≡ not (lookup_invalid (card s) (read_areas ledger areas.entry.clipped.now areas.entry.buckets.now areas.entry.side.now)) }
{
    counters_valid(s, areas.clipped)
        && marks_valid(s, areas.buckets)
        && count_at(areas.side) <= s.side_places
}

// "100 × ledger count / m to the nearest whole number"; "a half goes to the even neighbour".
fn fill(n: usize, m: usize) -> u32
    requires { Fillable n m }
    ensures { result ≡ ledgers.fill_of n m }
{
    let quotient = 100 * n / m;
    let remainder = 100 * n % m;
    if 2 * remainder < m {
        return quotient as u32;
    }
    if m < 2 * remainder {
        return (quotient + 1) as u32;
    }
    (quotient + quotient % 2) as u32
}

// The four numbers of areas within the rules.
fn count_all(s: Settings, ledger: &[u8], areas: LookupAreas<'_>) -> Totals
    requires checked { CheckedLookup (paper s) areas.clipped.now areas.buckets.now areas.side.now }
    requires ledger_size { length ledger.now ≡ ledger_length (card s) }
    ensures { totals_of (Ok result) ≡ ledgers.counted_totals (marks (card s) areas.entry.buckets.now)
        (count_of areas.entry.side.now) (count_of ledger.now) (card s).buckets }
{
    let sums = sum_marks(s, areas.buckets);
    Totals {
        in_buckets: sums.in_buckets,
        in_side: count_at(areas.side) as u32,
        marked_255: sums.marked_255,
        fill: fill(count_at(ledger), s.buckets()),
    }
}

// Tally on allowed settings and areas of their lengths: 4, then 5, then the four numbers.
pub fn tally_checked(s: Settings, ledger: &[u8], areas: LookupAreas<'_>) -> Result<Totals, Refusal>
    requires checked { CheckedLookup (paper s) areas.clipped.now areas.buckets.now areas.side.now }
    requires ledger_size { length ledger.now ≡ ledger_length (card s) }
    ensures { totals_of result ≡ tally_areas (card s) (entry_read ledger areas) }
{
    if !ledger::valid(s, ledger) {
        return Err(Refusal::InvalidLedger);
    }
    if !lookup_valid(s, areas) {
        return Err(Refusal::InvalidLookup);
    }
    Ok(count_all(s, ledger, areas))
}

pub fn tally(given: Given, ledger: &[u8], areas: LookupAreas<'_>) -> Result<Totals, Refusal>
    ensures { ◌≡◌ {A = Step Areas} (record { reply = totalled (totals_of result); state = entry_read ledger areas })
        (perform (given_of given) 0 ledgers.tally (entry_read ledger areas)) }
{
    let s = Settings::new(given)?;
    if !((ledger.len() == s.ledger_length()) & areas.have_lengths(s)) {
        return Err(Refusal::WrongAreaLength);
    }
    tally_checked(s, ledger, areas)
}
