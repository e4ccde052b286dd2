// A call as data: programs that run lists of calls go through `perform`, those that judge settings and lengths once and lend a table through `call`.
#![tactic(auto)]

ghost use Rattle.std.specs.Prelude.{◌≡◌, true, length};
ghost use Rattle.theory.specs.Lists.{all};
ghost use Rattle.theory.specs.Settings.{allowed, ledger_length};
ghost use Rattle.theory.specs.Layout as layouts;
ghost use Rattle.theory.specs.Ledger.{Step};
ghost use Rattle.theory.specs.Calls as plain;
ghost use Rattle.settings.specs.Checked.{paper, card, given_of};
ghost use Rattle.settings.specs.Areas.{contents, lookup_contents, SameSlices};
ghost use Rattle.lookup.specs.Places.{CheckedLookup};
ghost use Rattle.lookup.specs.Answers as lookups;
ghost use Rattle.tally.specs.Tallies.{totals_of};
ghost use Rattle.calls.specs.Data.{call_of, reply_of};
ghost use Rattle.calls.specs.Calling.{searched, Callable, judged};

use crate::data::{Call, Reply, answer_only, refused};
use hash::made::make_table;
use lookup::searching::Answer;
use memory::refusals::Refusal;
use settings::areas::{Areas, LookupAreas};
use settings::{Given, Settings};
use tally::Totals;
use update::editing::Edit;

pub mod data; // data.rt: a call, and what comes back

// The areas that a call is lent, and a work area of so many words where it takes one, have their lengths.
fn lent_right(s: Settings, call: Call<'_>, areas: &Areas<'_>, words: usize) -> bool
    requires { allowed (paper s) ≡ true }
    ensures { result ≡ all (λ x. x) (plain.lent_lengths (card s) words (call_of call.entry) (contents areas.now)) }
{
    match call {
        Call::Clear => areas.have_lengths(s),
        Call::Add { .. } | Call::Change { .. } | Call::Remove { .. } => {
            (words == s.work_length()) & areas.have_lengths(s)
        }
        Call::Search { .. } => areas.lookup().have_lengths(s),
        Call::Tally => {
            (areas.ledger.len() == s.ledger_length()) & areas.lookup().have_lengths(s)
        }
    }
}

// Search on allowed settings and areas of their lengths: 3, then the answer by the key's own H, from the rows.
fn search_checked(s: Settings, areas: LookupAreas<'_>, key: &[u8]) -> Answer
    requires { CheckedLookup (paper s) areas.clipped.now areas.buckets.now areas.side.now }
    ensures { lookups.answer_of result ≡ searched (card s) (lookup_contents areas.entry) key.entry.now }
{
    if key.len() != s.width() {
        return lookup::searching::refused(Refusal::WrongKeyLength);
    }
    let h = hash::h_rows(key);
    lookup::searching::search_at(s, h, areas, key)
}

// Tally, which reads four of the areas. They are taken apart here: their ledger and what `lookup` gives can't be lent at once.
fn tally_checked(s: Settings, areas: &Areas<'_>) -> Result<Totals, Refusal>
    requires checked { CheckedLookup (paper s) areas.now.clipped.now areas.now.buckets.now areas.now.side.now }
    requires whole { length areas.now.ledger.now ≡ ledger_length (card s) }
    ensures { totals_of result ≡ plain.tally_areas (card s) (contents areas.now) }
{
    let Areas {
        ledger,
        clipped,
        buckets,
        side,
        ..
    } = areas;
    let lookup = LookupAreas {
        clipped,
        buckets,
        side,
    };
    tally::tally_checked(s, ledger, lookup)
}

// A call on settings and areas that are judged already. The table is lent: an update reads it, the others take any, also an empty one.
pub fn call(
    s: Settings,
    table: &[u64],
    call: Call<'_>,
    areas: &mut Areas<'_>,
    work: &mut [u16],
) -> Reply
    requires { Callable s table.now (call_of call) work.old (contents areas.old) }
    ensures called { ◌≡◌ {A = Step layouts.Areas} (record { reply = reply_of result; state = contents areas.new })
        (plain.call (card s) (call_of call.entry) (contents areas.old)) }
    ensures same { SameSlices areas.old areas.new }
{
    let (edit, key, class) = match call {
        Call::Add { key, class } => (Edit::Insert, key, class),
        Call::Change { key, class } => (Edit::Replace, key, class),
        Call::Remove { key } => (Edit::Remove, key, 0),
        Call::Clear => {
            writing::clear_areas(areas);
            return answer_only(Ok(()));
        }
        Call::Search { key } => return Reply::Answered(search_checked(s, areas.lookup(), key)),
        Call::Tally => return Reply::Totalled(tally_checked(s, areas)),
    };
    answer_only(update::update_checked(s, table, edit, areas, work, key, class))
}

// What is judged before any call: its settings, then the lengths of what it is lent.
fn judge(call: Call<'_>, given: Given, areas: &Areas<'_>, words: usize) -> Result<Settings, Refusal>
    ensures { result ≡ judged (given_of given) words (call_of call.entry) (contents areas.now) }
{
    let s = Settings::new(given)?;
    if !lent_right(s, call, areas, words) {
        return Err(Refusal::WrongAreaLength);
    }
    Ok(s)
}

// A call, whole by itself: 1, 2, then the call.
pub fn perform(call: Call<'_>, given: Given, areas: &mut Areas<'_>, work: &mut [u16]) -> Reply
    ensures performed { ◌≡◌ {A = Step layouts.Areas} (record { reply = reply_of result; state = contents areas.new })
        (plain.perform (given_of given) (length work.old) (call_of call.entry) (contents areas.old)) }
    ensures same { SameSlices areas.old areas.new }
{
    match judge(call, given, areas, work.len()) {
        Ok(s) => crate::call(s, make_table(s.width()), call, areas, work),
        Err(refusal) => refused(call, refusal),
    }
}
