// A record put into a ledger area, taken out and replaced, at a place: each writes what the ledger area of the new list is.
ghost use Rattle.std.specs.Prelude.{◌≡◌, ◌+◌, ◌<◌, ◌≤◌, length};
ghost use Rattle.theory.specs.Records.{Record, record_bytes};
ghost use Rattle.theory.specs.Settings.{record_size};
ghost use Rattle.settings.specs.Checked.{card};
ghost use Rattle.ledger.specs.Edits.{ValidLedger, list_in, area_of, inserted_at, removed_at, replaced_at, with_bytes, without_bytes};

use super::place_of;
use memory::numbers::{count_at, write_number};
use memory::parts::copy;
use settings::Settings;

// Bytes put in at a place: those from there to an end move up.
fn insert_bytes(area: &mut [u8], place: usize, end: usize, bytes: &[u8])
    requires order { place ≤ end }
    requires room { end + length bytes.now ≤ length area.old }
    ensures { area.new ≡ with_bytes place end bytes.now area.old }
{
    let next = place + bytes.len();
    area.copy_within(place..end, next);
    copy(&mut area[place..next], bytes);
}

// The bytes from a place to the next taken out: those from there to an end move down, and zeros follow them.
fn remove_bytes(area: &mut [u8], place: usize, next: usize, end: usize)
    requires first { place ≤ next }
    requires then { next ≤ end }
    requires room { end ≤ length area.old }
    ensures { area.new ≡ without_bytes place next end area.old }
{
    area.copy_within(next..end, place);
    let last = end - (next - place);
    area[last..end].fill(0);
}

// "the record is put in at its key's place"
pub fn insert_record(s: Settings, ledger: &mut [u8], at: usize, record: &[u8])
    requires valid { ValidLedger s ledger.old }
    requires free { length (list_in s ledger.old) < (card s).capacity }
    requires place { at ≤ length (list_in s ledger.old) }
    requires size { length «record».now ≡ record_size (card s) }
    ensures { (x : Record) → record_bytes x ≡ «record».now
        → ledger.new ≡ area_of s (inserted_at at x (list_in s ledger.old)) }
{
    let n = count_at(ledger);
    let place = place_of(s, at);
    insert_bytes(ledger, place, place_of(s, n), record);
    write_number(ledger, n + 1);
}

// "the record of that key is taken out"
pub fn remove_record(s: Settings, ledger: &mut [u8], at: usize)
    requires valid { ValidLedger s ledger.old }
    requires place { at < length (list_in s ledger.old) }
    ensures { ledger.new ≡ area_of s (removed_at at (list_in s ledger.old)) }
{
    let n = count_at(ledger);
    remove_bytes(ledger, place_of(s, at), place_of(s, at + 1), place_of(s, n));
    write_number(ledger, n - 1);
}

// "the record of that key gets the new class"
pub fn replace_record(s: Settings, ledger: &mut [u8], at: usize, record: &[u8])
    requires valid { ValidLedger s ledger.old }
    requires place { at < length (list_in s ledger.old) }
    requires size { length «record».now ≡ record_size (card s) }
    ensures { (x : Record) → record_bytes x ≡ «record».now
        → ledger.new ≡ area_of s (replaced_at at x (list_in s ledger.old)) }
{
    let start = place_of(s, at);
    let stop = start + record.len();
    copy(&mut ledger[start..stop], record);
}
