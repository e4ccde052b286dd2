// Where a search looks: by the counters, the chosen bucket's mark and the side count.
ghost use Rattle.std.specs.Prelude.{false, not, List, ℕ, ◌<◌, eqb, get_or};
ghost use Rattle.theory.specs.Lookup as plain;
ghost use Rattle.settings.specs.Checked.{paper, card};
ghost use Rattle.lookup.specs.Choosing.{bucket_of};
ghost use Rattle.lookup.specs.Places.{CheckedPlaces, SideRead, place_by, KeyCountersFit, goes_by, LooksAt};

use crate::counters::KeyCounters;
use settings::Settings;

// What a search comes to, in the cases of its definition: refused with 5; absent by a zero counter; records of a bucket, which start at a byte of the buckets;
// records of the side store, with so many buckets read.
#[derive(Clone, Copy)]
pub enum Place {
    Invalid,
    Nowhere,
    Bucket { from: usize, records: usize },
    Side { records: usize, read: u32 },
}

// The side store is compared: 5 for a side count above S.
fn side_place(s: Settings, side: &[u8], read: u32) -> Place
    requires { SideRead (paper s) side.now read }
    ensures { (buckets : List ℕ) (b : ℕ) → LooksAt (paper s) buckets side.now
        (plain.side_place (card s) side.now read) b false result }
{
    let records = memory::numbers::count_at(side);
    if s.side_places < records {
        return Place::Invalid;
    }
    Place::Side { records, read }
}

// One bucket is read: mark 255 sends on to the side store, 5 for another mark above B.
fn bucket_place(s: Settings, buckets: &[u8], bucket: usize, side: &[u8]) -> Place
    requires { CheckedPlaces (paper s) buckets.now side.now × (bucket < (card s).buckets) }
    ensures { LooksAt (paper s) buckets.now side.now
        (plain.bucket_place (card s) (plain.bucket_part (card s) buckets.now bucket) side.now)
        bucket (not (eqb (get_or (plain.bucket_part (card s) buckets.now bucket) 0 0) 255)) result }
{
    let at = bucket * s.bucket_size();
    let mark = usize::from(buckets[at]);
    if mark == 255 {
        return side_place(s, side, 1);
    }
    if s.room < mark {
        return Place::Invalid;
    }
    Place::Bucket {
        from: at + 1,
        records: mark,
    }
}

// "It reads all counters of the key, then" looks by what they say: in the order of the listing SearchItem (source document 001; theory's Listing.antt).
// "any counter of the key zero: absent; all equal to T: the side store is compared; otherwise the chosen bucket is read"
// Lines 1 and 5, the least counter and the smallest index that has it, by one comparison: `read_counters`. Then here: 5, line 2, a least of T; then the
// bucket's mark. Lines 6 and 7 are the comparison of the records, by `searching::search_place` or `numbers::place_number`.
pub fn place_by(s: Settings, choice: Option<KeyCounters>, buckets: &[u8], side: &[u8]) -> Place
    requires { CheckedPlaces (paper s) buckets.now side.now × KeyCountersFit (paper s) choice }
    ensures { LooksAt (paper s) buckets.now side.now
        (place_by (card s) choice buckets.now side.now)
        (bucket_of choice) (goes_by (card s) choice buckets.now) result }
{
    let Some(choice) = choice else {
        return Place::Invalid;
    };
    let least = choice.least;
    if least.is(0) {
        return Place::Nowhere;
    }
    if least.is(s.top) {
        return side_place(s, side, 0);
    }
    bucket_place(s, buckets, choice.bucket, side)
}
