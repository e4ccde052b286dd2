// The driver's number of a search, for the doors that give nothing else. It is made where the answer is: of an answer that is joined from all cases first, its
// two halves would be joined each by itself, and cost a search with a lent table a fiftieth of its instructions.
ghost use Rattle.std.specs.Prelude.{◌≡◌, ◌-◌, length, take, drop};
ghost use Rattle.theory.specs.Settings.{bucket_size};
ghost use Rattle.theory.specs.Lookup as plain;
ghost use Rattle.settings.specs.Checked.{paper, given_of, card};
ghost use Rattle.lookup.specs.Choosing.{card_at};
ghost use Rattle.lookup.specs.Places.{place_of, place_by, ByPlace, ByCounters, InBucket, CheckedLookup};
ghost use Rattle.lookup.specs.Answers.{at_entry, search_with};

use crate::counters::{KeyCounters, key_counters};
use crate::judging::judge_with_table;
use crate::places::{Place, place_by};
use crate::searching::{
    ABSENT, bare, compare_ipv4_bucket, compare_side, compare_wide_bucket, driver_number, refused,
};
use hash::h_with_table;
use memory::refusals::Refusal;
use settings::areas::LookupAreas;
use settings::{Given, Settings};

#[inline(always)]
fn bucket_number(s: Settings, buckets: &[u8], from: usize, n: usize, key: &[u8]) -> u64
    requires { InBucket (paper s) buckets.now key.now from n }
    ensures { result ≡ plain.driver_number (plain.answer_at (card s) key.now
        (plain.among (take (bucket_size (card s) - 1) (drop from buckets.now)) n 1 0)) }
{
    if s.width == Settings::IPV4_WIDTH {
        driver_number(compare_ipv4_bucket(s, buckets, from, n, key))
    } else {
        driver_number(compare_wide_bucket(s, buckets, from, n, key))
    }
}

// The number at the place where a search looks.
#[inline(always)]
fn place_number(s: Settings, place: Place, areas: LookupAreas<'_>, key: &[u8]) -> u64
    requires { ByPlace (paper s) place areas.buckets.now areas.side.now key.now }
    ensures { result ≡ plain.driver_number (plain.answer_at (card s) key.now
        (place_of (card s) areas.entry.buckets.now areas.entry.side.now place)) }
{
    match place {
        Place::Invalid => driver_number(refused(Refusal::InvalidLookup)),
        Place::Nowhere => driver_number(bare(ABSENT)),
        Place::Bucket { from, records } => bucket_number(s, areas.buckets, from, records, key),
        Place::Side { records, read } => {
            driver_number(compare_side(s, areas.side, records, read, key))
        }
    }
}

// What is left of a search once the counters are read.
#[inline(always)]
pub(crate) fn chosen_number(
    s: Settings,
    choice: Option<KeyCounters>,
    areas: LookupAreas<'_>,
    key: &[u8],
) -> u64
    requires { ByCounters (paper s) choice areas.buckets.now areas.side.now key.now }
    ensures { result ≡ plain.driver_number (plain.answer_at (card s) key.now
        (place_by (card s) choice areas.entry.buckets.now areas.entry.side.now)) }
{
    let place = place_by(s, choice, areas.buckets, areas.side);
    place_number(s, place, areas, key)
}

// Search for a key whose H is h, whichever way it was hashed.
#[inline(always)]
fn number_at(s: Settings, h: u64, areas: LookupAreas<'_>, key: &[u8]) -> u64
    requires checked { CheckedLookup (paper s) areas.clipped.now areas.buckets.now areas.side.now }
    requires wide { length key.now ≡ (card s).width }
    ensures { result ≡ plain.driver_number (at_entry (plain.search_areas (card_at (paper s) h)) areas key) }
{
    chosen_number(s, key_counters(s, h, areas.clipped), areas, key)
}

// The number of a search with a lent table: by the H that the table gives for the key, whatever it holds; the same where it is right.
#[inline(always)]
pub fn number_with_table(table: &[u64], given: Given, areas: LookupAreas<'_>, key: &[u8]) -> u64
    ensures { result ≡ plain.driver_number (at_entry (search_with table.now (given_of given)) areas key) }
{
    match judge_with_table(table, given, areas, key) {
        Err(refusal) => driver_number(refused(refusal)),
        Ok(s) => number_at(s, h_with_table(table, key), areas, key),
    }
}
