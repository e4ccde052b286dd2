// The doors that write: clear, add, change and remove. Each answers the number of the call, and writes every area or none.
ghost use Rattle.std.specs.Prelude.{◌≡◌, length};
ghost use Rattle.theory.specs.Ledger as calls;
ghost use Rattle.theory.specs.Calls.{perform};
ghost use Rattle.theory.specs.CallAreas.{entry_areas, exit_areas, replied};
ghost use Rattle.theory.specs.Settings.{settings_of};

use memory::refusals::answer_number;
use settings::Given;
use settings::areas::Areas;
use update::editing::Edit;
use update::{clear, update};

// "Clear lays out the empty list, on areas with any contents."
#[unsafe(no_mangle)]
pub extern "C" fn flow_clear(
    p: u64,
    k: u64,
    room: u64,
    top: u64,
    capacity: u64,
    side_places: u64,
    width: u64,
    ledger: &mut [u8],
    true_counts: &mut [u16],
    clipped: &mut [u8],
    buckets: &mut [u8],
    side: &mut [u8],
) -> u32
    ensures { replied result (exit_areas ledger true_counts clipped buckets side)
        ≡ perform (settings_of p k room top capacity side_places width) 0 calls.clear
        (entry_areas ledger true_counts clipped buckets side) }
{
    let given = Given {
        p,
        k,
        room,
        top,
        capacity,
        side_places,
        width,
    };
    let mut areas = Areas {
        ledger,
        true_counts,
        clipped,
        buckets,
        side,
    };
    answer_number(clear(given, &mut areas))
}

// Adds a flow: 1, 2, 3, 4, 6, 8, 9; else the layout of the list with the record put in at its key's place.
#[unsafe(no_mangle)]
pub extern "C" fn flow_add(
    p: u64,
    k: u64,
    room: u64,
    top: u64,
    capacity: u64,
    side_places: u64,
    width: u64,
    ledger: &mut [u8],
    true_counts: &mut [u16],
    clipped: &mut [u8],
    buckets: &mut [u8],
    side: &mut [u8],
    work: &mut [u16],
    key: &[u8],
    class: u32,
) -> u32
    ensures { replied result (exit_areas ledger true_counts clipped buckets side)
        ≡ perform (settings_of p k room top capacity side_places width) (length work.old) (calls.add key.now class)
        (entry_areas ledger true_counts clipped buckets side) }
{
    let given = Given {
        p,
        k,
        room,
        top,
        capacity,
        side_places,
        width,
    };
    let mut areas = Areas {
        ledger,
        true_counts,
        clipped,
        buckets,
        side,
    };
    answer_number(update(Edit::Insert, given, &mut areas, work, key, class))
}

// Gives a held flow a new class: 1, 2, 3, 4, 7, 9; else the layout of the list with that class.
#[unsafe(no_mangle)]
pub extern "C" fn flow_change(
    p: u64,
    k: u64,
    room: u64,
    top: u64,
    capacity: u64,
    side_places: u64,
    width: u64,
    ledger: &mut [u8],
    true_counts: &mut [u16],
    clipped: &mut [u8],
    buckets: &mut [u8],
    side: &mut [u8],
    work: &mut [u16],
    key: &[u8],
    class: u32,
) -> u32
    ensures { replied result (exit_areas ledger true_counts clipped buckets side)
        ≡ perform (settings_of p k room top capacity side_places width) (length work.old) (calls.change key.now class)
        (entry_areas ledger true_counts clipped buckets side) }
{
    let given = Given {
        p,
        k,
        room,
        top,
        capacity,
        side_places,
        width,
    };
    let mut areas = Areas {
        ledger,
        true_counts,
        clipped,
        buckets,
        side,
    };
    answer_number(update(Edit::Replace, given, &mut areas, work, key, class))
}

// Takes a held flow out: 1, 2, 3, 4, 7, 9; else the layout of the list without it.
#[unsafe(no_mangle)]
pub extern "C" fn flow_remove(
    p: u64,
    k: u64,
    room: u64,
    top: u64,
    capacity: u64,
    side_places: u64,
    width: u64,
    ledger: &mut [u8],
    true_counts: &mut [u16],
    clipped: &mut [u8],
    buckets: &mut [u8],
    side: &mut [u8],
    work: &mut [u16],
    key: &[u8],
) -> u32
    ensures { replied result (exit_areas ledger true_counts clipped buckets side)
        ≡ perform (settings_of p k room top capacity side_places width) (length work.old) (calls.remove key.now)
        (entry_areas ledger true_counts clipped buckets side) }
{
    let given = Given {
        p,
        k,
        room,
        top,
        capacity,
        side_places,
        width,
    };
    let mut areas = Areas {
        ledger,
        true_counts,
        clipped,
        buckets,
        side,
    };
    answer_number(update(Edit::Remove, given, &mut areas, work, key, 0))
}
