// Document 01, the calls that write: clear, add, change, remove. They judge first, on the ledger and work alone, and then write every area.
#![tactic(auto)]

ghost use Rattle.std.specs.Prelude.{◌≡◌, ◌+◌, ◌≤◌, length};
ghost use Rattle.theory.specs.Records.{class_width, record_bytes};
ghost use Rattle.theory.specs.Calls as calls;
ghost use Rattle.theory.specs.Calls.{perform};
ghost use Rattle.theory.specs.Ledger as ledgers;
ghost use Rattle.theory.specs.CallAreas.{replied};
ghost use Rattle.memory.specs.Refusals.{answer_of};
ghost use Rattle.settings.specs.Checked.{given_of, card};
ghost use Rattle.settings.specs.Areas.{contents, SameSlices};
ghost use Rattle.update.specs.Editing.{edit_call, Updating};

use crate::editing::{Edit, EditCall};
use crate::judging::judge;
use crate::writing_new::write_new;
use hash::made::make_table;
use memory::records::write_record;
use memory::refusals::Refusal;
use settings::areas::Areas;
use settings::{Given, Settings};

pub mod editing; // editing.rt: the three edits as one
pub mod judging; // judging.rt: an edit judged, on the ledger and work alone
pub mod writing_new; // writing_new.rt: an edit written, in every area

// The record of a call, at the start of a buffer.
fn record_in<'a>(buffer: &'a mut [u8], key: &[u8], class: u32) -> &'a [u8]
    requires { length key.now + class_width ≤ length buffer.old }
    ensures { result.now ≡ record_bytes (record { key = key.entry.now; class = class }) }
{
    let place = &mut buffer[..key.len() + Settings::CLASS_WIDTH];
    write_record(place, key, class);
    &*place
}

// The ledger area, lent to be read: what is lent so comes back as it was.
fn ledger_of<'a>(areas: &'a Areas<'_>) -> &'a [u8]
    ensures { result.now ≡ areas.now.ledger.now }
{
    &areas.ledger[..]
}

// Add, change or remove on allowed settings and areas of their lengths: 3 and what judging refuses; else the layout is written. The table is lent.
pub fn update_checked(
    s: Settings,
    table: &[u64],
    edit: Edit,
    areas: &mut Areas<'_>,
    work: &mut [u16],
    key: &[u8],
    class: u32,
) -> Result<(), Refusal>
    requires { Updating s table.now work.old (contents areas.old) }
    ensures updated { replied (answer_of result) (contents areas.new)
        ≡ calls.update (card s) key.now (edit_call edit key.now class) (contents areas.old) }
    ensures same { SameSlices areas.old areas.new }
{
    if key.len() != s.width() {
        return Err(Refusal::WrongKeyLength);
    }
    let mut buffer = [0; 64];
    let record = record_in(&mut buffer[..], key, class);
    let call = EditCall {
        edit,
        key,
        class,
        record,
    };
    let mut kept = [0; Settings::CAPACITY_MOST as usize];
    let plan = judge(s, table, ledger_of(areas), call, work, &mut kept[..])?;
    write_new(s, plan, call, areas);
    Ok(())
}

// Add, change or remove: 1, 2, then the call.
pub fn update(
    edit: Edit,
    given: Given,
    areas: &mut Areas<'_>,
    work: &mut [u16],
    key: &[u8],
    class: u32,
) -> Result<(), Refusal>
    ensures performed { replied (answer_of result) (contents areas.new)
        ≡ perform (given_of given) (length work.old) (edit_call edit key.now class) (contents areas.old) }
    ensures same { SameSlices areas.old areas.new }
{
    let s = Settings::new(given)?;
    if !((work.len() == s.work_length()) & areas.have_lengths(s)) {
        return Err(Refusal::WrongAreaLength);
    }
    update_checked(s, make_table(s.width()), edit, areas, work, key, class)
}

// "Clear lays out the empty list, on areas with any contents."
pub fn clear(given: Given, areas: &mut Areas<'_>) -> Result<(), Refusal>
    ensures performed { replied (answer_of result) (contents areas.new) ≡ perform (given_of given) 0 ledgers.clear (contents areas.old) }
    ensures same { SameSlices areas.old areas.new }
{
    let s = Settings::new(given)?;
    if !areas.have_lengths(s) {
        return Err(Refusal::WrongAreaLength);
    }
    writing::clear_areas(areas);
    Ok(())
}
