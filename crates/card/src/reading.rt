// The doors that only read: search and tally.
ghost use Rattle.std.specs.Prelude.{◌≡◌, cond, not, [], ◌∷◌, ◌≤◌, eqb, length};
ghost use Rattle.theory.specs.Lookup.{accepted, driver_number};
ghost use Rattle.theory.specs.Settings.{settings_of};
ghost use Rattle.theory.specs.Window.{three_counts};
ghost use Rattle.memory.specs.Refusals as refusals;
ghost use Rattle.settings.specs.Checked.{given_of};
ghost use Rattle.lookup.specs.Answers.{search_of, search_with, answer_of};
ghost use Rattle.lookup.specs.Bursts.{Burst, burst_of};
ghost use Rattle.lookup.specs.Locating.{lies_at};
ghost use Rattle.card.specs.Doors.{Filled};
ghost use Rattle.card.specs.Reading.{told_of, is_given, search_place_of, search_counts_of, search_counts_with, tally_of};

use lookup::locating::{Area, Located, RecordPlace};
use lookup::searching::{Answer, driver_number, refused};
use memory::refusals::{Refusal, answer_number};
use settings::areas::LookupAreas;
use settings::{Given, Settings};
use tally::Totals;

// The forwarding driver's search, whole by itself.
#[unsafe(no_mangle)]
pub extern "C" fn flow_search(
    p: u64,
    k: u64,
    room: u64,
    top: u64,
    capacity: u64,
    side_places: u64,
    width: u64,
    clipped: &[u8],
    buckets: &[u8],
    side: &[u8],
    key: &[u8],
) -> u64
    ensures { result ≡ search_of (settings_of p k room top capacity side_places width)
        clipped.now buckets.now side.now key.now }
{
    let given = Given {
        p,
        k,
        room,
        top,
        capacity,
        side_places,
        width,
    };
    let areas = LookupAreas {
        clipped,
        buckets,
        side,
    };
    lookup::searching::search_number(given, areas, key)
}

// The same with a table that the driver keeps: one read of it a byte.
#[unsafe(no_mangle)]
pub extern "C" fn flow_search_lent(
    table: &[u64],
    p: u64,
    k: u64,
    room: u64,
    top: u64,
    capacity: u64,
    side_places: u64,
    width: u64,
    clipped: &[u8],
    buckets: &[u8],
    side: &[u8],
    key: &[u8],
) -> u64
    ensures { result ≡ driver_number (search_with table.now
        (settings_of p k room top capacity side_places width)
        clipped.now buckets.now side.now key.now) }
{
    let given = Given {
        p,
        k,
        room,
        top,
        capacity,
        side_places,
        width,
    };
    let areas = LookupAreas {
        clipped,
        buckets,
        side,
    };
    lookup::numbers::number_with_table(table, given, areas, key)
}

// Many keys at once, with a table that the driver keeps: 1; 2; 3 if `keys` is not of as many keys as there are answers; else each answer is
// the number of its key.
#[unsafe(no_mangle)]
pub extern "C" fn flow_search_burst(
    table: &[u64],
    p: u64,
    k: u64,
    room: u64,
    top: u64,
    capacity: u64,
    side_places: u64,
    width: u64,
    clipped: &[u8],
    buckets: &[u8],
    side: &[u8],
    keys: &[u8],
    answers: &mut [u64],
) -> u32
    ensures { ◌≡◌ {A = Burst} (record { number = result; answers = answers.new })
        (burst_of table.now (settings_of p k room top capacity side_places width)
        clipped.now buckets.now side.now keys.now answers.old) }
{
    let given = Given {
        p,
        k,
        room,
        top,
        capacity,
        side_places,
        width,
    };
    let areas = LookupAreas {
        clipped,
        buckets,
        side,
    };
    answer_number(lookup::bursts::search_burst(table, given, areas, keys, answers))
}

// A search is refused by a number between 0 and 100: one test, where a test for each of these two would be two branches.
fn is_refusal(number: u32) -> bool
    requires { number ≤ 100 }
    ensures { result ≡ not (accepted number) }
{
    (0 < number) & (number < 100)
}

// The number of an answer, and other numbers of it in a lent area: 1; 2 also when that area is not of so many; then the search's own refusal. The area is
// written as an array: by `copy_from_slice` it would cost half a nanosecond more, since the compiler asks whether the two overlap.
fn give<T: Copy, const N: usize>(answer: Answer, numbers: [T; N], area: &mut [T]) -> u64
    requires { answer.number ≤ 100 }
    ensures told { result ≡ driver_number (told_of (answer_of answer) (eqb (length area.old) (length numbers))) }
    ensures given { area.new
        ≡ cond (is_given (answer_of answer) (eqb (length area.old) (length numbers))) numbers area.old }
{
    let number = answer.number;
    if number == Refusal::SettingOutOfRange.number() {
        return driver_number(answer);
    }
    let Some(area) = area.as_mut_array() else {
        return driver_number(refused(Refusal::WrongAreaLength));
    };
    if !is_refusal(number) {
        *area = numbers;
    }
    driver_number(answer)
}

// Where a record lies, as C has it: area 1 is the buckets, 2 the side store, then the byte of it where the record starts; 0 and 0 for no record.
fn place_of(found: Located) -> [u64; 2]
    ensures { result ≡ (lies_at found).area ∷ (lies_at found).start ∷ [] }
{
    match found.place {
        None => [0, 0],
        Some(RecordPlace { area, start }) => {
            let area_number = match area {
                Area::Buckets => 1,
                Area::Side => 2,
            };
            [area_number, start as u64]
        }
    }
}

// Buckets read, records compared, and 1 where the side store was compared.
fn counts_of(answer: Answer) -> [u32; 3]
    ensures { result ≡ three_counts (answer_of answer) }
{
    [
        answer.buckets_read,
        answer.records_compared,
        answer.side_compared,
    ]
}

// Search, with the place of the record: 1; 2, also if `place` is not of 2 numbers; 3; 5; else `place` holds the area, 1 for the buckets, 2 for the side store,
// and the byte of it where the record starts; for an absent flow 0 and 0.
#[unsafe(no_mangle)]
pub extern "C" fn flow_search_place(
    p: u64,
    k: u64,
    room: u64,
    top: u64,
    capacity: u64,
    side_places: u64,
    width: u64,
    clipped: &[u8],
    buckets: &[u8],
    side: &[u8],
    key: &[u8],
    place: &mut [u64],
) -> u64
    ensures { ◌≡◌ {A = Filled} (record { number = result; area = place.new })
        (search_place_of (settings_of p k room top capacity side_places width)
        clipped.now buckets.now side.now key.now place.old) }
{
    let given = Given {
        p,
        k,
        room,
        top,
        capacity,
        side_places,
        width,
    };
    let areas = LookupAreas {
        clipped,
        buckets,
        side,
    };
    let found = lookup::locating::locate(given, areas, key);
    give(found.answer, place_of(found), place)
}

// Search, with its counts: 1; 2, also if `counts` is not of 3 numbers; 3; 5; else `counts` holds buckets read, records compared, and 1 where the side store
// was compared.
#[unsafe(no_mangle)]
pub extern "C" fn flow_search_counts(
    p: u64,
    k: u64,
    room: u64,
    top: u64,
    capacity: u64,
    side_places: u64,
    width: u64,
    clipped: &[u8],
    buckets: &[u8],
    side: &[u8],
    key: &[u8],
    counts: &mut [u32],
) -> u64
    ensures { ◌≡◌ {A = Filled} (record { number = result; area = counts.new })
        (search_counts_of (settings_of p k room top capacity side_places width)
        clipped.now buckets.now side.now key.now counts.old) }
{
    let given = Given {
        p,
        k,
        room,
        top,
        capacity,
        side_places,
        width,
    };
    let areas = LookupAreas {
        clipped,
        buckets,
        side,
    };
    let answer = lookup::locating::locate(given, areas, key).answer;
    give(answer, counts_of(answer), counts)
}

// The same with a table that the driver keeps.
#[unsafe(no_mangle)]
pub extern "C" fn flow_search_counts_lent(
    table: &[u64],
    p: u64,
    k: u64,
    room: u64,
    top: u64,
    capacity: u64,
    side_places: u64,
    width: u64,
    clipped: &[u8],
    buckets: &[u8],
    side: &[u8],
    key: &[u8],
    counts: &mut [u32],
) -> u64
    ensures { ◌≡◌ {A = Filled} (record { number = result; area = counts.new })
        (search_counts_with table.now (settings_of p k room top capacity side_places width)
        clipped.now buckets.now side.now key.now counts.old) }
{
    let given = Given {
        p,
        k,
        room,
        top,
        capacity,
        side_places,
        width,
    };
    let areas = LookupAreas {
        clipped,
        buckets,
        side,
    };
    let answer = lookup::searching::search_with_table(table, given, areas, key);
    give(answer, counts_of(answer), counts)
}

// Tally: 1; 2; 4; 5; else its four numbers.
#[unsafe(no_mangle)]
pub extern "C" fn flow_tally(
    p: u64,
    k: u64,
    room: u64,
    top: u64,
    capacity: u64,
    side_places: u64,
    width: u64,
    ledger: &[u8],
    clipped: &[u8],
    buckets: &[u8],
    side: &[u8],
    totals: &mut [u32],
) -> u32
    ensures { ◌≡◌ {A = Filled} (record { number = result; area = totals.new })
        (tally_of (settings_of p k room top capacity side_places width)
        ledger.now clipped.now buckets.now side.now totals.old) }
{
    let given = Given {
        p,
        k,
        room,
        top,
        capacity,
        side_places,
        width,
    };
    let areas = LookupAreas {
        clipped,
        buckets,
        side,
    };
    answer_number(give_totals(given, ledger, areas, totals))
}

// Records in buckets, records in the side store, buckets marked 255, fill.
#[tactic(auto, using(crate::proofs::ReadingLaws::tally_refusals))]
fn give_totals(
    given: Given,
    ledger: &[u8],
    areas: LookupAreas<'_>,
    totals: &mut [u32],
) -> Result<(), Refusal>
    ensures { ◌≡◌ {A = Filled} (record { number = refusals.answer_of result; area = totals.new })
        (tally_of (given_of given) ledger.now areas.entry.clipped.now areas.entry.buckets.now areas.entry.side.now totals.old) }
{
    Settings::new(given)?;
    if totals.len() != 4 {
        return Err(Refusal::WrongAreaLength);
    }
    let Totals {
        in_buckets,
        in_side,
        marked_255,
        fill,
    } = tally::tally(given, ledger, areas)?;
    totals.copy_from_slice(&[in_buckets, in_side, marked_255, fill]);
    Ok(())
}
