// The doors of snapshots: save, the settings of a file, and load.
ghost use Rattle.std.specs.Prelude.{◌≡◌, length, Result};
ghost use Rattle.theory.specs.Snapshot.{settings_count, settings_list, Saved, save, HandedBack, head_settings};
ghost use Rattle.theory.specs.CallAreas.{entry_areas, exit_areas};
ghost use Rattle.theory.specs.Settings.{settings_of};
ghost use Rattle.memory.specs.Refusals.{answer_of};
ghost use Rattle.settings.specs.Areas.{contents, SameSlices};
ghost use Rattle.snapshot.specs.Files as handed;
ghost use Rattle.card.specs.Snapshots.{LoadedInto, load_of};

use memory::refusals::{Refusal, answer_number};
use settings::Given;
use settings::areas::Areas;
use snapshot::loading::load;
use snapshot::reading::head_settings;

// Saves a ledger: 1, 2, 4, 9, 12; else the target holds the snapshot.
#[unsafe(no_mangle)]
pub extern "C" fn flow_save(
    p: u64,
    k: u64,
    room: u64,
    top: u64,
    capacity: u64,
    side_places: u64,
    width: u64,
    ledger: &[u8],
    work: &mut [u16],
    target: &mut [u8],
) -> u32
    ensures { ◌≡◌ {A = Saved} (record { number = result; target = target.new })
        (save (settings_of p k room top capacity side_places width) ledger.now (length work.old) target.old) }
{
    let given = Given {
        p,
        k,
        room,
        top,
        capacity,
        side_places,
        width,
    };
    answer_number(snapshot::saving::save(given, ledger, work, target))
}

// The seven settings that are handed back, in the paper's order: zeros when refused.
fn hand_back(read: Result<Given, Refusal>, settings: &mut [u64]) -> Result<(), Refusal>
    requires { length settings.old ≡ settings_count }
    ensures told { answer_of result ≡ answer_of read }
    ensures listed { settings.new ≡ settings_list (handed.settings_of read) }
{
    let Given {
        p,
        k,
        room,
        top,
        capacity,
        side_places,
        width,
    } = read.unwrap_or_default();
    settings.copy_from_slice(&[p, k, room, top, capacity, side_places, width]);
    read.map(|_| ())
}

// The settings of a file's head, before its areas are there: 12 for the head, 1, 2, 12 for a 7 with width 13; else `settings` holds them (zeros when
// refused). The records are not judged.
#[unsafe(no_mangle)]
pub extern "C" fn flow_file_settings(file: &[u8], settings: &mut [u64]) -> u32
    ensures { ◌≡◌ {A = HandedBack} (record { number = result; settings = settings.new })
        (head_settings file.now settings.old) }
{
    answer_number(give_settings(file, settings))
}

#[tactic(auto, unfolding(theory::specs::Snapshot::head_settings))]
fn give_settings(file: &[u8], settings: &mut [u64]) -> Result<(), Refusal>
    ensures { ◌≡◌ {A = HandedBack} (record { number = answer_of result; settings = settings.new })
        (head_settings file.now settings.old) }
{
    let length = settings.len();
    let read = head_settings(file, length);
    if length != snapshot::SETTINGS {
        return read.map(|_| ());
    }
    hand_back(read, settings)
}

// Loads a file: 12 for its head, 1, 2, 8, 12, 13, 9; else every area holds the layout of its list, and `settings` its settings (zeros when refused).
#[unsafe(no_mangle)]
pub extern "C" fn flow_load(
    file: &[u8],
    ledger: &mut [u8],
    true_counts: &mut [u16],
    clipped: &mut [u8],
    buckets: &mut [u8],
    side: &mut [u8],
    work: &mut [u16],
    settings: &mut [u64],
) -> u32
    ensures { ◌≡◌ {A = LoadedInto} (record { number = result; settings = settings.new; areas = exit_areas ledger true_counts clipped buckets side })
        (load_of file.now (length work.old) (entry_areas ledger true_counts clipped buckets side) settings.old) }
{
    let mut areas = Areas {
        ledger,
        true_counts,
        clipped,
        buckets,
        side,
    };
    answer_number(load_into(file, &mut areas, work, settings))
}

#[tactic(auto, unfolding(crate::specs::Snapshots::load_of))]
fn load_into(
    file: &[u8],
    areas: &mut Areas<'_>,
    work: &mut [u16],
    settings: &mut [u64],
) -> Result<(), Refusal>
    ensures same { SameSlices areas.old areas.new }
    ensures loaded { ◌≡◌ {A = LoadedInto} (record { number = answer_of result; settings = settings.new; areas = contents areas.new })
        (load_of file.now (length work.old) (contents areas.old) settings.old) }
{
    if settings.len() != snapshot::SETTINGS {
        return head_settings(file, settings.len()).map(|_| ());
    }
    hand_back(load(file, areas, work), settings)
}
