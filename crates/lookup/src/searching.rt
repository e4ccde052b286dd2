// Search: the answer with its counts.
ghost use Rattle.std.specs.Prelude.{◌≡◌, ◌-◌, ◌≤◌, length, take, drop};
ghost use Rattle.theory.specs.Settings.{ipv4_width, bucket_size};
ghost use Rattle.theory.specs.Lookup as plain;
ghost use Rattle.theory.specs.Layout.{Areas};
ghost use Rattle.theory.specs.Ledger.{Step, answered};
ghost use Rattle.theory.specs.Ledger as calls;
ghost use Rattle.theory.specs.Calls.{perform};
ghost use Rattle.memory.specs.Refusals.{number_of};
ghost use Rattle.settings.specs.Checked.{paper, given_of, card};
ghost use Rattle.settings.specs.Areas.{lookup_contents};
ghost use Rattle.lookup.specs.Choosing.{card_at};
ghost use Rattle.lookup.specs.Places.{place_of, place_by, ByPlace, ByCounters, InBucket, InSide, CheckedLookup};
ghost use Rattle.lookup.specs.Scanning.{Scannable, AllScannable};
ghost use Rattle.lookup.specs.Answers.{answer_of, compared, at_entry, search_of, search_with};

use crate::counters::{KeyCounters, key_counters};
use crate::judging::{judge, judge_with_table};
use crate::places::{Place, place_by};
use crate::scanning::{scan, scan_all};
use hash::h_with_table;
use memory::picks::pick;
use memory::records::class_at;
use memory::refusals::Refusal;
use settings::areas::LookupAreas;
use settings::{Given, Settings};

// The answer of any call, with its number as C gets it and programs print it: 0 held, and of an update accepted; 100 absent; else the refusal's. Then class,
// buckets read, records compared, and 1 where the side store was the place compared. A Result in its place would leave an update's answer with counts that it
// has not, and `perform` promises this one of every call.
#[derive(Clone, Copy)]
pub struct Answer {
    pub number: u32,
    pub class: u32,
    pub buckets_read: u32,
    pub records_compared: u32,
    pub side_compared: u32,
}

// "100 for a search that finds nothing"
pub(crate) const ABSENT: u32 = 100;

// The number, with class and counts zero.
pub fn bare(number: u32) -> Answer
    ensures { answer_of result ≡ plain.bare number }
{
    Answer {
        number,
        class: 0,
        buckets_read: 0,
        records_compared: 0,
        side_compared: 0,
    }
}

pub fn refused(refusal: Refusal) -> Answer
    ensures { answer_of result ≡ plain.bare (number_of refusal) }
{
    bare(refusal.number())
}

// "answer × 2^32 + class"
pub fn driver_number(a: Answer) -> u64
    ensures { result ≡ plain.driver_number (answer_of a) }
{
    u64::from(a.number) * 4294967296 + u64::from(a.class)
}

// The answer of a scan of some records. Like what else a search is made of, it is one piece with each door: a call costs a door some instructions in a hundred.
#[inline(always)]
fn compare(place: &[u8], n: usize, key: &[u8], read: u32, side: u32) -> Answer
    requires { Scannable place.now n key.now × (n ≤ 4096) }
    ensures { answer_of result ≡ compared place.now n key.now read side }
{
    let hit = scan(place, n, key);
    if let Some(i) = hit {
        let at = i * (key.len() + Settings::CLASS_WIDTH) + key.len();
        return Answer {
            number: 0,
            class: class_at(place, at),
            buckets_read: read,
            records_compared: (i + 1) as u32,
            side_compared: side,
        };
    }
    Answer {
        number: ABSENT,
        class: 0,
        buckets_read: read,
        records_compared: n as u32,
        side_compared: side,
    }
}

// The answer of a scan of all places of a bucket, with no branch on what was found: a class is read anyway, and kept or not.
#[inline(always)]
fn compare_all(place: &[u8], n: usize, room: usize, key: &[u8], read: u32, side: u32) -> Answer
    requires { AllScannable place.now n room key.now }
    ensures { answer_of result ≡ compared place.now n key.now read side }
{
    let hit = scan_all(place, n, room, key);
    let found = hit.is_some();
    let i = hit.unwrap_or(0);
    let at = i * (key.len() + Settings::CLASS_WIDTH) + key.len();
    let class = class_at(place, at);
    Answer {
        number: pick(found, 0, ABSENT),
        class: pick(found, class, 0),
        buckets_read: read,
        records_compared: pick(found, i + 1, n) as u32,
        side_compared: side,
    }
}

// The records of a bucket, which start after its mark: all of its places, with the width of an IPv4 flow's key as a constant, which the compiler knows.
#[inline(always)]
pub fn compare_ipv4_bucket(s: Settings, buckets: &[u8], from: usize, n: usize, key: &[u8]) -> Answer
    requires bucket { InBucket (paper s) buckets.now key.now from n }
    requires narrow { s.width ≡ ipv4_width }
    ensures { answer_of result ≡ plain.answer_at (card s) key.now
        (plain.among (take (bucket_size (card s) - 1) (drop from buckets.now)) n 1 0) }
{
    let end = from + (s.bucket_size() - 1);
    let place = &buckets[from..end];
    compare_all(place, n, s.room, &key[..Settings::IPV4_WIDTH], 1, 0)
}

// The same with a key of any width, record by record up to the one with the key: of wide keys every place would cost more than a branch not foreseen.
#[inline(always)]
pub fn compare_wide_bucket(s: Settings, buckets: &[u8], from: usize, n: usize, key: &[u8]) -> Answer
    requires { InBucket (paper s) buckets.now key.now from n }
    ensures { answer_of result ≡ plain.answer_at (card s) key.now
        (plain.among (take (bucket_size (card s) - 1) (drop from buckets.now)) n 1 0) }
{
    let end = from + (s.bucket_size() - 1);
    compare(&buckets[from..end], n, key, 1, 0)
}

// The one or the other.
#[inline(always)]
pub fn compare_bucket(s: Settings, buckets: &[u8], from: usize, n: usize, key: &[u8]) -> Answer
    requires { InBucket (paper s) buckets.now key.now from n }
    ensures { answer_of result ≡ plain.answer_at (card s) key.now
        (plain.among (take (bucket_size (card s) - 1) (drop from buckets.now)) n 1 0) }
{
    if s.width == Settings::IPV4_WIDTH {
        compare_ipv4_bucket(s, buckets, from, n, key)
    } else {
        compare_wide_bucket(s, buckets, from, n, key)
    }
}

// The records of the side store, which start after its count.
#[inline(always)]
pub fn compare_side(s: Settings, side: &[u8], n: usize, read: u32, key: &[u8]) -> Answer
    requires { InSide (paper s) side.now key.now n }
    ensures { answer_of result ≡ plain.answer_at (card s) key.now (plain.among (drop 2 side.now) n read 1) }
{
    compare(&side[2..], n, key, read, 1)
}

// The answer at the place where a search looks. It is made one piece with each door of a search: a call of its own costs a tenth of the time.
#[inline(always)]
pub(crate) fn search_place(s: Settings, place: Place, areas: LookupAreas<'_>, key: &[u8]) -> Answer
    requires { ByPlace (paper s) place areas.buckets.now areas.side.now key.now }
    ensures { answer_of result ≡ plain.answer_at (card s) key.now
        (place_of (card s) areas.entry.buckets.now areas.entry.side.now place) }
{
    match place {
        Place::Invalid => refused(Refusal::InvalidLookup),
        Place::Nowhere => bare(ABSENT),
        Place::Bucket { from, records } => compare_bucket(s, areas.buckets, from, records, key),
        Place::Side { records, read } => compare_side(s, areas.side, records, read, key),
    }
}

// What is left of a search once the counters are read.
#[inline(always)]
pub(crate) fn search_chosen(
    s: Settings,
    choice: Option<KeyCounters>,
    areas: LookupAreas<'_>,
    key: &[u8],
) -> Answer
    requires { ByCounters (paper s) choice areas.buckets.now areas.side.now key.now }
    ensures { answer_of result ≡ plain.answer_at (card s) key.now
        (place_by (card s) choice areas.entry.buckets.now areas.entry.side.now) }
{
    let place = place_by(s, choice, areas.buckets, areas.side);
    search_place(s, place, areas, key)
}

// Search for a key whose H is h, whichever way it was hashed.
#[inline(always)]
pub fn search_at(s: Settings, h: u64, areas: LookupAreas<'_>, key: &[u8]) -> Answer
    requires checked { CheckedLookup (paper s) areas.clipped.now areas.buckets.now areas.side.now }
    requires wide { length key.now ≡ (card s).width }
    ensures { answer_of result ≡ at_entry (plain.search_areas (card_at (paper s) h)) areas key }
{
    search_chosen(s, key_counters(s, h, areas.clipped), areas, key)
}

// Search, whole by itself: the key is hashed from the rows.
pub fn search(given: Given, areas: LookupAreas<'_>, key: &[u8]) -> Answer
    ensures { ◌≡◌ {A = Step Areas} (record { reply = answered (answer_of result); state = lookup_contents areas.entry })
        (perform (given_of given) 0 (calls.search key.now) (lookup_contents areas.entry)) }
{
    match judge(given, areas, key) {
        Err(refusal) => refused(refusal),
        Ok(s) => search_at(s, hash::h_rows(key), areas, key),
    }
}

// Its number alone.
pub fn search_number(given: Given, areas: LookupAreas<'_>, key: &[u8]) -> u64
    ensures { result ≡ at_entry (search_of (given_of given)) areas key }
{
    driver_number(search(given, areas, key))
}

// Search with a lent table of the hash: by the H that the table gives for the key, whatever it holds; the same where it is right.
#[inline(always)]
pub fn search_with_table(table: &[u64], given: Given, areas: LookupAreas<'_>, key: &[u8]) -> Answer
    ensures { answer_of result ≡ at_entry (search_with table.now (given_of given)) areas key }
{
    match judge_with_table(table, given, areas, key) {
        Err(refusal) => refused(refusal),
        Ok(s) => search_at(s, h_with_table(table, key), areas, key),
    }
}
