// The buckets of the layout: all parts opened first, then each record appended to the part of the bucket that it chooses.
ghost use Rattle.std.specs.Prelude.{◌≡◌, true, cond, ◌+◌, ◌*◌, ◌<◌, ◌≤◌, length, get_or, replicate, set};
ghost use Rattle.theory.specs.Settings.{allowed, buckets_length};
ghost use Rattle.theory.specs.Placing.{true_count};
ghost use Rattle.theory.specs.Layout.{buckets_bytes};
ghost use Rattle.settings.specs.Checked.{paper, card};
ghost use Rattle.writing.specs.Laying.{Laying, placed_records};
ghost use Rattle.writing.specs.Buckets.{crowded_by, blank_buckets, placed, appended};

use memory::parts::copy;
use memory::records::record_at;
use placing::Placement;
use settings::Settings;

// One record more in a bucket's part: at the place that the mark counts, and the mark one up.
fn append(part: &mut [u8], record: &[u8])
    requires low { get_or part.old 0 0 < 255 }
    requires room { 1 + length «record».now * get_or part.old 0 0 + length «record».now ≤ length part.old }
    ensures { part.new ≡ appended part.old «record».now }
{
    let mark = part[0];
    let at = 1 + record.len() * usize::from(mark);
    copy(&mut part[at..at + record.len()], record);
    part[0] = mark + 1;
}

// A bucket's part with no record: mark 255 if it is crowded, else 0.
fn open_bucket(part: &mut [u8], crowded: bool)
    requires { 0 < length part.old }
    ensures { part.new ≡ set (replicate (length part.old) 0) 0 (cond crowded 255 0) }
{
    part.fill(0);
    part[0] = if crowded { 255 } else { 0 };
}

// Every part with no record; a bucket is crowded when more keys choose it than it has room for.
fn open_buckets(s: Settings, placement: Placement<'_>, buckets: &mut [u8])
    requires ok { allowed (paper s) ≡ true }
    requires places { length placement.choosers.now ≡ (card s).buckets }
    requires long { length buckets.old ≡ buckets_length (card s) }
    ensures { buckets.new ≡ blank_buckets (card s) (crowded_by (card s) placement.entry.choosers.now) (card s).buckets }
{
    let size = s.bucket_size();
    for (b, &choosers) in placement.choosers.iter().enumerate() {
        let at = b * size;
        open_bucket(&mut buckets[at..at + size], s.room < usize::from(choosers));
    }
}

// Record i of the list goes to its bucket's part, unless it belongs to the side.
fn place_record(s: Settings, placement: Placement<'_>, buckets: &mut [u8], area: &[u8], i: usize)
    requires laying { Laying s placement area.now }
    requires turn { i < length placement.choices.now }
    requires before { buckets.old ≡ placed (card s) placement i area.now }
    ensures { buckets.new ≡ placed (card s) placement.entry (i + 1) area.now }
{
    let choice = placement.choices[i];
    if placing::aside(s, placement, choice) {
        return;
    }
    let size = s.bucket_size();
    let start = usize::from(choice) * size;
    append(
        &mut buckets[start..start + size],
        record_at(area, i, s.record_size()),
    );
}

// Every record of the list, in key order.
fn place_records(s: Settings, placement: Placement<'_>, buckets: &mut [u8], area: &[u8])
    requires laying { Laying s placement area.now }
    requires blank { buckets.old ≡ blank_buckets (card s) (crowded_by (card s) placement.choosers.now) (card s).buckets }
    ensures { buckets.new ≡ placed (card s) placement.entry (length placement.entry.choices.now) area.now }
{
    for i in 0..placement.choices.len() {
        place_record(s, placement, buckets, area, i);
    }
}

// "A bucket chosen by at most B keys has that number as its mark and their records in key order, then zeros.
// One chosen by more has mark 255, then zeros"
pub fn write_buckets(s: Settings, placement: Placement<'_>, buckets: &mut [u8], area: &[u8])
    requires laying { Laying s placement area.now }
    requires long { length buckets.old ≡ buckets_length (card s) }
    ensures { let l = placed_records (card s) placement.entry area.now in buckets.new ≡ buckets_bytes (card s) (true_count (card s) l) l }
{
    open_buckets(s, placement, buckets);
    place_records(s, placement, buckets, area);
}
