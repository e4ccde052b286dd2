// An edit judged, on the ledger and work alone: its refusals, and where it goes if there is none.
ghost use Rattle.std.specs.Prelude.{◌≡◌, IfOk};
ghost use Rattle.theory.specs.Records.{Record, record_bytes};
ghost use Rattle.theory.proofs.ByteLaws.{Fit};
ghost use Rattle.memory.specs.Refusals.{answer_of};
ghost use Rattle.settings.specs.Checked.{card};
ghost use Rattle.placing.specs.Worked.{Placed};
ghost use Rattle.update.specs.Editing.{call_of, edited_at, judged_number, PlacingNew, Judging, Planned};

use crate::editing::EditCall;
use ledger::spots::find_spot;
use memory::numbers::count_at;
use memory::refusals::Refusal;
use placing::{Parts, Placement};
use settings::Settings;

// What judging found: the place of the edit, the new list placed, and its side need.
#[derive(Clone, Copy)]
pub struct Plan<'a> {
    pub at: usize,
    pub placement: Placement<'a>,
    pub need: usize,
}

// The list that the edit would make, which lies in three parts, placed.
fn place_new<'a>(
    s: Settings,
    table: &[u64],
    ledger: &[u8],
    count: usize,
    call: EditCall<'_>,
    at: usize,
    work: &'a mut [u16],
    kept: &'a mut [u16],
) -> Placement<'a>
    requires { PlacingNew s table.now ledger.now count call at work.old kept.old }
    ensures { (x : Record) → record_bytes x ≡ call.entry.«record».now → Fit (card s).width x
        → Placed (card s) (edited_at s call.entry.edit at x count ledger.now) result }
{
    let (left_out, brought) = call.edit.counts();
    let size = s.record_size();
    let from = at + left_out;
    let parts = Parts {
        before: &ledger[2..2 + at * size],
        between: &call.record[..brought * size],
        after: &ledger[2 + from * size..2 + count * size],
    };
    placing::placement_of(
        s,
        table,
        parts,
        work,
        &mut kept[..at + brought + (count - from)],
    )
}

// 4, then 6 and 8 or 7, then 9, in this order; nothing but work and kept is written.
pub fn judge<'a>(
    s: Settings,
    table: &[u64],
    ledger: &[u8],
    call: EditCall<'_>,
    work: &'a mut [u16],
    kept: &'a mut [u16],
) -> Result<Plan<'a>, Refusal>
    requires { Judging s table.now ledger.now call work.old kept.old }
    ensures number { answer_of result ≡ judged_number (card s) (call_of call.entry) ledger.now }
    ensures planned { IfOk result (Planned s call.entry ledger.now) }
{
    if !ledger::valid(s, ledger) {
        return Err(Refusal::InvalidLedger);
    }
    let count = count_at(ledger);
    let spot = find_spot(&ledger[2..], count, call.key);
    let at = call.edit.place(s, spot, count)?;
    let placement = place_new(s, table, ledger, count, call, at, work, kept);
    let need = placing::side_need(s, placement);
    if s.side_places < need {
        return Err(Refusal::SideStoreFull);
    }
    Ok(Plan {
        at,
        placement,
        need,
    })
}
