// The side store of the layout: a count, then the records that belong to the side, in key order.
ghost use Rattle.std.specs.Prelude.{◌≡◌, ◌+◌, ◌*◌, ◌<◌, ◌≤◌, length};
ghost use Rattle.theory.specs.Settings.{record_size, side_length};
ghost use Rattle.theory.specs.Placing.{true_count};
ghost use Rattle.theory.specs.Layout.{side_bytes};
ghost use Rattle.theory.specs.Ledger.{side_need_of};
ghost use Rattle.settings.specs.Checked.{card};
ghost use Rattle.writing.specs.Laying.{Laying, placed_records};
ghost use Rattle.writing.specs.Side.{sent, sent_places};

use memory::numbers::write_number;
use memory::parts::copy;
use memory::records::record_at;
use placing::Placement;
use settings::Settings;

// Record i of the list goes to the free place if it belongs to the side; the free place after it.
fn side_record(
    s: Settings,
    placement: Placement<'_>,
    store: &mut [u8],
    area: &[u8],
    i: usize,
    free: usize,
) -> usize
    requires laying { Laying s placement area.now }
    requires turn { i < length placement.choices.now }
    requires enough { length (sent (card s) placement (length placement.choices.now) area.now) ≤ (card s).side_places }
    requires free { free ≡ record_size (card s) * length (sent (card s) placement i area.now) }
    requires before { store.old ≡ sent_places (card s) placement i area.now }
    ensures free { result ≡ record_size (card s) * length (sent (card s) placement.entry (i + 1) area.now) }
    ensures after { store.new ≡ sent_places (card s) placement.entry (i + 1) area.now }
{
    if !placing::aside(s, placement, placement.choices[i]) {
        return free;
    }
    let size = s.record_size();
    let end = free + size;
    copy(&mut store[free..end], record_at(area, i, size));
    end
}

// Every record of the list, in key order.
fn side_records(s: Settings, placement: Placement<'_>, store: &mut [u8], area: &[u8])
    requires laying { Laying s placement area.now }
    requires enough { length (sent (card s) placement (length placement.choices.now) area.now) ≤ (card s).side_places }
    requires before { store.old ≡ sent_places (card s) placement 0 area.now }
    ensures { store.new ≡ sent_places (card s) placement.entry (length placement.entry.choices.now) area.now }
{
    let mut free = 0;
    for i in 0..placement.choices.len() {
        free = side_record(s, placement, store, area, i, free);
    }
}

// "side store: .. shaped as the ledger". Where none belongs there, its zeros are all, and no record is read again.
pub fn write_side(s: Settings, placement: Placement<'_>, need: usize, side: &mut [u8], area: &[u8])
    requires laying { Laying s placement area.now }
    requires need { need ≡ side_need_of (card s) (placed_records (card s) placement area.now) }
    requires enough { need ≤ (card s).side_places }
    requires long { length side.old ≡ side_length (card s) }
    ensures { let l = placed_records (card s) placement.entry area.now in side.new ≡ side_bytes (card s) (true_count (card s) l) l }
{
    side.fill(0);
    if need == 0 {
        return;
    }
    side_records(s, placement, &mut side[2..], area);
    write_number(side, need);
}
