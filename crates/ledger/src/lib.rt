// The ledger area: whether it is within the rules, where a key's record stands or belongs, and the three edits.
#![tactic(auto)]

ghost use Rattle.std.specs.Prelude.{◌≡◌, true, not, ◌+◌, ◌*◌, ◌≤◌, length};
ghost use Rattle.theory.specs.Settings.{allowed, record_size, ledger_length};
ghost use Rattle.theory.specs.Calls.{ledger_invalid};
ghost use Rattle.settings.specs.Checked.{paper, card};

use keys::keys_rise;
use memory::numbers::count_at;
use memory::parts::all_zero;
use settings::Settings;

pub mod keys; // keys.rt: the order of keys
pub mod spots; // spots.rt: where the record of a key stands, or belongs
pub mod edits; // edits.rt: a record put in, taken out, replaced

// Where the place of record `at` starts, after the count; for a count of records, where their places end.
fn place_of(s: Settings, at: usize) -> usize
    requires permitted { allowed (paper s) ≡ true }
    requires listed { at ≤ (card s).capacity }
    ensures { result ≡ 2 + record_size (card s) * at }
{
    2 + s.record_size() * at
}

// "4, ledger count above N, keys not rising, or a nonzero byte after the last record"
pub fn valid(s: Settings, ledger: &[u8]) -> bool
    requires permitted { allowed (paper s) ≡ true }
    requires size { length ledger.now ≡ ledger_length (card s) }
    ensures { result ≡ not (ledger_invalid (card s) ledger.now) }
{
    let n = count_at(ledger);
    if s.capacity < n {
        return false;
    }
    if !keys_rise(&ledger[2..], n, s.width()) {
        return false;
    }
    all_zero(&ledger[place_of(s, n)..])
}
