// Writes the layout of a list: true counts, clipped counts, buckets and the side store; and clears every area.
#![tactic(auto)]

ghost use Rattle.std.specs.Prelude.{◌≡◌, [], ◌≤◌, drop, length};
ghost use Rattle.theory.specs.Settings.{Card, buckets_length, side_length};
ghost use Rattle.theory.specs.Layout.{buckets_bytes, side_bytes, layout};
ghost use Rattle.theory.specs.Placing.{true_count};
ghost use Rattle.theory.specs.Ledger.{side_need_of};
ghost use Rattle.theory.specs.Demands.{Sized};
ghost use Rattle.settings.specs.Areas.{contents, SameSlices};
ghost use Rattle.settings.specs.Checked.{card};
ghost use Rattle.writing.specs.Laying.{Laying, Writable, laid, placed_records};

use memory::parts::copy_counts;
use placing::Placement;
use settings::Settings;
use settings::areas::Areas;

pub mod buckets; // buckets.rt: the bucket area, each bucket's part lent on
pub mod counts; // counts.rt: clipped counts
pub mod side; // side.rt: the side store

// The buckets and the side store of the list whose records the ledger area holds. That is lent as `&mut`, though nothing is written to it: a proof knows what
// a field of `areas` holds in the end only where a call hands it back.
fn write_places(
    s: Settings,
    placement: Placement<'_>,
    need: usize,
    ledger: &mut [u8],
    buckets: &mut [u8],
    side: &mut [u8],
)
    requires laying { Laying s placement (drop 2 ledger.old) }
    requires need { need ≡ side_need_of (card s) (placed_records (card s) placement (drop 2 ledger.old)) }
    requires enough { need ≤ (card s).side_places }
    requires counted { 2 ≤ length ledger.old }
    requires buckets_long { length buckets.old ≡ buckets_length (card s) }
    requires side_long { length side.old ≡ side_length (card s) }
    ensures ledger { ledger.new ≡ ledger.old }
    ensures buckets { let l = placed_records (card s) placement.entry (drop 2 ledger.old) in buckets.new ≡ buckets_bytes (card s) (true_count (card s) l) l }
    ensures side { let l = placed_records (card s) placement.entry (drop 2 ledger.old) in side.new ≡ side_bytes (card s) (true_count (card s) l) l }
{
    let records = &ledger[2..];
    buckets::write_buckets(s, placement, buckets, records);
    side::write_side(s, placement, need, side, records);
}

// The layout of the list in every area but the ledger's, which holds its records, by what placing it left behind.
pub fn lay_out(s: Settings, placement: Placement<'_>, need: usize, areas: &mut Areas<'_>)
    requires laying { Laying s placement (drop 2 areas.old.ledger.now) }
    requires need { need ≡ side_need_of (card s) (placed_records (card s) placement (drop 2 areas.old.ledger.now)) }
    requires enough { need ≤ (card s).side_places }
    requires lengths { Writable (card s) (contents areas.old) }
    ensures same { SameSlices areas.old areas.new }
    ensures laid { contents areas.new
        ≡ laid (card s) (placed_records (card s) placement.entry (drop 2 areas.old.ledger.now)) areas.old.ledger.now }
{
    copy_counts(areas.true_counts, placement.counts);
    counts::write_clipped(s.top, areas.clipped, placement.counts);
    write_places(s, placement, need, areas.ledger, areas.buckets, areas.side);
}

// "Clear lays out the empty list, on areas with any contents."
pub fn clear_areas(areas: &mut Areas<'_>)
    ensures same { SameSlices areas.old areas.new }
    ensures cleared { (s : Card) → Sized s (contents areas.old) → contents areas.new ≡ layout s [] }
{
    areas.ledger.fill(0);
    areas.true_counts.fill(0);
    areas.clipped.fill(0);
    areas.buckets.fill(0);
    areas.side.fill(0);
}
