// The doors: every call as a C function, for a driver and control software to link. Each asks nothing of its caller; the definitions of
// its answer and of each lent area at exit are in specs/Doors.antt.
#![tactic(auto)]

ghost use Rattle.std.specs.Prelude.{◌≡◌, true, cond, ◌^◌, ◌≤◌, length, Ok, Err};
ghost use Rattle.theory.specs.Lists.{has};
ghost use Rattle.theory.specs.Settings.{settings_of, width_allowed};
ghost use Rattle.memory.specs.Refusals.{answer_of};
ghost use Rattle.hash.specs.Table.{table_lengths, H_by};
ghost use Rattle.settings.specs.Checked.{given_of};
ghost use Rattle.card.specs.Doors.{Filled, settings_check_of, area_lengths_of, hash_table_of, hash_of, hash_lent_of};
ghost use Rattle.card.specs.Doors.{first_hashes, counted, Numbered, key_buckets_of};

use hash::by_table::by_bytes;
use hash::h_with_table;
use memory::refusals::{Refusal, answer_number};
use settings::{Given, Settings};

pub mod generators; // generators.rt: the door that advances a generator of the bench's load
pub mod packets; // packets.rt: the doors that read a packet
pub mod reading; // reading.rt: the doors of search and tally
pub mod snapshots; // snapshots.rt: the doors that save and load
pub mod updating; // updating.rt: the doors that clear, add, change and remove
pub mod windows; // windows.rt: the doors of the window over the latest searches

// The settings' verdict: 0, or 1 when one is out of range.
#[tactic(auto, unfolding(crate::specs::Doors::settings_check_of))]
#[unsafe(no_mangle)]
pub extern "C" fn flow_settings_check(
    p: u64,
    k: u64,
    room: u64,
    top: u64,
    capacity: u64,
    side_places: u64,
    width: u64,
) -> u32
    ensures { result ≡ settings_check_of (settings_of p k room top capacity side_places width) }
{
    let given = Given {
        p,
        k,
        room,
        top,
        capacity,
        side_places,
        width,
    };
    answer_number(Settings::new(given).map(|_| ()))
}

// The lengths of the six areas: 1; 2 if `lengths` is not of 6 numbers.
#[unsafe(no_mangle)]
pub extern "C" fn flow_area_lengths(
    p: u64,
    k: u64,
    room: u64,
    top: u64,
    capacity: u64,
    side_places: u64,
    width: u64,
    lengths: &mut [u64],
) -> u32
    ensures { ◌≡◌ {A = Filled} (record { number = result; area = lengths.new })
        (area_lengths_of (settings_of p k room top capacity side_places width) lengths.old) }
{
    let given = Given {
        p,
        k,
        room,
        top,
        capacity,
        side_places,
        width,
    };
    answer_number(give_lengths(given, lengths))
}

// The lengths in the paper's order.
#[tactic(auto, unfolding(crate::specs::Doors::area_lengths_of, crate::specs::Doors::lengths_of))]
fn give_lengths(given: Given, lengths: &mut [u64]) -> Result<(), Refusal>
    ensures { ◌≡◌ {A = Filled} (record { number = answer_of result; area = lengths.new })
        (area_lengths_of (given_of given) lengths.old) }
{
    let s = Settings::new(given)?;
    if lengths.len() != 6 {
        return Err(Refusal::WrongAreaLength);
    }
    let all = [
        s.ledger_length() as u64,
        s.true_length() as u64,
        s.clipped_length() as u64,
        s.buckets_length() as u64,
        s.side_length() as u64,
        s.work_length() as u64,
    ];
    lengths.copy_from_slice(&all);
    Ok(())
}

// A key width in bytes: 1 if it is neither 13 nor 37.
fn key_bytes(width: u64) -> Result<usize, Refusal>
    ensures { result ≡ cond (width_allowed width) (Ok width) (Err Refusal.SettingOutOfRange) }
{
    if !Settings::width_allowed(width) {
        return Err(Refusal::SettingOutOfRange);
    }
    Ok(width as usize)
}

// The table that `flow_hash_lent` and the searches with a lent table read, for keys of a width: 1 if the width is neither 13 nor 37; 2 if `table` is not of
// 3,328 numbers at 13, of 1,184 (by half-byte) or 9,472 (by byte) at 37.
#[unsafe(no_mangle)]
pub extern "C" fn flow_hash_table(width: u64, table: &mut [u64]) -> u32
    ensures { ◌≡◌ {A = Filled} (record { number = result; area = table.new }) (hash_table_of width table.old) }
{
    answer_number(make_table(width, table))
}

#[tactic(auto, unfolding(crate::specs::Doors::hash_table_of))]
fn make_table(width: u64, table: &mut [u64]) -> Result<(), Refusal>
    ensures { ◌≡◌ {A = Filled} (record { number = answer_of result; area = table.new }) (hash_table_of width table.old) }
{
    let bytes = key_bytes(width)?;
    if !hash::table_length_right(table.len(), bytes) {
        return Err(Refusal::WrongAreaLength);
    }
    hash::fill_table(bytes, table);
    Ok(())
}

// H of a key of a width, with no table: 1; 2 if `h` is not of 1 number; 3 if the key is not of the width.
#[unsafe(no_mangle)]
pub extern "C" fn flow_hash(width: u64, key: &[u8], h: &mut [u64]) -> u32
    ensures { ◌≡◌ {A = Filled} (record { number = result; area = h.new }) (hash_of width key.now h.old) }
{
    answer_number(give_hash(width, key, h))
}

#[tactic(auto, unfolding(crate::specs::Doors::hash_of, crate::specs::Doors::hash_as))]
fn give_hash(width: u64, key: &[u8], h: &mut [u64]) -> Result<(), Refusal>
    ensures { ◌≡◌ {A = Filled} (record { number = answer_of result; area = h.new }) (hash_of width key.now h.old) }
{
    let bytes = key_bytes(width)?;
    if h.len() != 1 {
        return Err(Refusal::WrongAreaLength);
    }
    if key.len() != bytes {
        return Err(Refusal::WrongKeyLength);
    }
    h.copy_from_slice(&[hash::h_rows(key)]);
    Ok(())
}

// What a lent table gives for a key, H where the table is right: 1; 2 if the table is not of a length that the width allows, or `h` not of 1 number; 3 if the
// key is not of the width.
#[unsafe(no_mangle)]
pub extern "C" fn flow_hash_lent(width: u64, lent: &[u64], key: &[u8], h: &mut [u64]) -> u32
    ensures { ◌≡◌ {A = Filled} (record { number = result; area = h.new })
        (hash_lent_of width lent.now key.now h.old) }
{
    answer_number(give_lent_hash(width, lent, key, h))
}

#[tactic(auto, unfolding(crate::specs::Doors::hash_lent_of, crate::specs::Doors::hash_as))]
fn give_lent_hash(width: u64, lent: &[u64], key: &[u8], h: &mut [u64]) -> Result<(), Refusal>
    ensures { ◌≡◌ {A = Filled} (record { number = answer_of result; area = h.new })
        (hash_lent_of width lent.now key.now h.old) }
{
    let bytes = key_bytes(width)?;
    if !hash::table_length_right(lent.len(), bytes) {
        return Err(Refusal::WrongAreaLength);
    }
    if h.len() != 1 {
        return Err(Refusal::WrongAreaLength);
    }
    if key.len() != bytes {
        return Err(Refusal::WrongKeyLength);
    }
    h.copy_from_slice(&[h_with_table(lent, key)]);
    Ok(())
}

// A key's hashes and bucket numbers: 1; 2 if `hashes` is not of 4 numbers, or `numbers` not of 5; 3 if the key is not of the width.
#[unsafe(no_mangle)]
pub extern "C" fn flow_key_buckets(
    p: u64,
    k: u64,
    room: u64,
    top: u64,
    capacity: u64,
    side_places: u64,
    width: u64,
    key: &[u8],
    hashes: &mut [u16],
    numbers: &mut [u16],
) -> u32
    ensures { ◌≡◌ {A = Numbered} (record { number = result; hashes = hashes.new; numbers = numbers.new })
        (key_buckets_of (settings_of p k room top capacity side_places width) key.now hashes.old numbers.old) }
{
    let given = Given {
        p,
        k,
        room,
        top,
        capacity,
        side_places,
        width,
    };
    answer_number(give_buckets(given, key, hashes, numbers))
}

#[tactic(auto, unfolding(crate::specs::Doors::key_buckets_of))]
fn give_buckets(
    given: Given,
    key: &[u8],
    hashes: &mut [u16],
    numbers: &mut [u16],
) -> Result<(), Refusal>
    ensures { ◌≡◌ {A = Numbered} (record { number = answer_of result; hashes = hashes.new; numbers = numbers.new })
        (key_buckets_of (given_of given) key.now hashes.old numbers.old) }
{
    let s = Settings::new(given)?;
    if hashes.len() != 4 || numbers.len() != 5 {
        return Err(Refusal::WrongAreaLength);
    }
    if key.len() != s.width() {
        return Err(Refusal::WrongKeyLength);
    }
    let h = hash::h_rows(key);
    hashes.copy_from_slice(&first_hashes(h, s.p));
    let found = hash::numbers_of(h, s.p, s.k);
    numbers.copy_from_slice(&counted(&found.at[..found.count]));
    Ok(())
}

// Hash 0 to 3 of a key whose H is h, for 2^p buckets.
#[tactic(auto, unfolding(crate::specs::Doors::first_hashes))]
fn first_hashes(h: u64, p: usize) -> [u16; 4]
    requires { p ≤ 12 }
    ensures { result ≡ first_hashes (2 ^ p) h }
{
    [
        hash::hash_at(h, 0, p),
        hash::hash_at(h, 1, p),
        hash::hash_at(h, 2, p),
        hash::hash_at(h, 3, p),
    ]
}

// How many numbers, then these, then zeros.
#[tactic(auto, unfolding(crate::specs::Doors::counted))]
fn counted(found: &[u16]) -> [u16; 5]
    requires { length found.now ≤ 4 }
    ensures { result ≡ counted found.now }
{
    let mut all = [0u16; 5];
    all[0] = found.len() as u16;
    all[1..=found.len()].copy_from_slice(found);
    all
}
