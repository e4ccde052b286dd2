// A call as data, and what comes back.
ghost use Rattle.std.specs.Prelude.{◌≡◌};
ghost use Rattle.theory.specs.Lookup.{bare};
ghost use Rattle.theory.specs.Ledger.{answered};
ghost use Rattle.theory.specs.Calls.{refused_reply};
ghost use Rattle.memory.specs.Refusals.{number_of, answer_of};
ghost use Rattle.calls.specs.Data.{call_of, reply_of};

use lookup::searching::Answer;
use memory::refusals::{Refusal, answer_number};
use tally::Totals;

// A call with what it is given; the second search call hands back a part of an area, and is lookup::fetching::fetch.
#[derive(Clone, Copy)]
pub enum Call<'a> {
    Clear,
    Add { key: &'a [u8], class: u32 },
    Change { key: &'a [u8], class: u32 },
    Remove { key: &'a [u8] },
    Search { key: &'a [u8] },
    Tally,
}

// Tally's answer has another shape than the others'.
#[derive(Clone, Copy)]
pub enum Reply {
    Answered(Answer),
    Totalled(Result<Totals, Refusal>),
}

// Clear and the updates answer their number alone.
pub(crate) fn answer_only(answer: Result<(), Refusal>) -> Reply
    ensures { reply_of result ≡ answered (bare (answer_of answer)) }
{
    Reply::Answered(lookup::searching::bare(answer_number(answer)))
}

// A refused call gives its number alone: tally in totals, the others in an answer.
pub(crate) fn refused(call: Call<'_>, refusal: Refusal) -> Reply
    ensures { reply_of result ≡ refused_reply (call_of call.entry) (number_of refusal) }
{
    match call {
        Call::Tally => Reply::Totalled(Err(refusal)),
        _ => answer_only(Err(refusal)),
    }
}
