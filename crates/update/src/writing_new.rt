// An edit written, once it is judged: the layout of the new list, in every area.
ghost use Rattle.std.specs.Prelude.{◌≡◌};
ghost use Rattle.theory.specs.Records.{Record, record_bytes};
ghost use Rattle.theory.specs.Layout.{counted_places, layout};
ghost use Rattle.theory.specs.Calls.{ledger_records};
ghost use Rattle.settings.specs.Checked.{card};
ghost use Rattle.settings.specs.Areas.{contents, SameSlices};
ghost use Rattle.update.specs.Editing.{edited, edited_list, EditingLedger, Making};

use crate::editing::{Edit, EditCall};
use crate::judging::Plan;
use settings::Settings;
use settings::areas::Areas;

// The ledger area of the new list.
fn edit_ledger(s: Settings, call: EditCall<'_>, ledger: &mut [u8], at: usize)
    requires { EditingLedger s call ledger.old at }
    ensures { (x : Record) → record_bytes x ≡ call.entry.«record».now
        → ledger.new ≡ counted_places (card s) (card s).capacity (edited call.entry.edit at x (ledger_records (card s) ledger.old)) }
{
    match call.edit {
        Edit::Insert => ledger::edits::insert_record(s, ledger, at, call.record),
        Edit::Replace => ledger::edits::replace_record(s, ledger, at, call.record),
        Edit::Remove => ledger::edits::remove_record(s, ledger, at),
    }
}

// The layout of the new list, in every area.
pub fn write_new(s: Settings, plan: Plan<'_>, call: EditCall<'_>, areas: &mut Areas<'_>)
    requires { Making s call (contents areas.old) plan }
    ensures written { contents areas.new ≡ layout (card s) (edited_list s call.entry areas.old.ledger.now) }
    ensures same { SameSlices areas.old areas.new }
{
    edit_ledger(s, call, areas.ledger, plan.at);
    writing::lay_out(s, plan.placement, plan.need, areas);
}
