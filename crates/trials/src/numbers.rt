// What the calls of a load add up to: 64-bit numbers, so that those of 2^32 calls fit.
ghost use Rattle.std.specs.Prelude.{◌≡◌};
ghost use Rattle.theory.specs.Calls.{reply_number, reply_compared};
ghost use Rattle.theory.specs.Trials as plain;
ghost use Rattle.calls.specs.Data.{reply_of};
ghost use Rattle.trials.specs.Data.{numbers_of, Growing, Grown};

use calls::data::Reply;
use memory::refusals::Refusal;

// "greatest side need of a list held, refusals 6, 7, 8 and 9, and records compared in all"
#[derive(Clone, Copy, Default)]
pub struct Numbers {
    pub greatest_need: u64,
    pub refused_6: u64,
    pub refused_7: u64,
    pub refused_8: u64,
    pub refused_9: u64,
    pub compared: u64,
}

// The number of what came back.
fn number_of(reply: Reply) -> u32
    ensures { result ≡ reply_number (reply_of reply) }
{
    match reply {
        Reply::Answered(answer) => answer.number,
        Reply::Totalled(Ok(_)) => 0,
        Reply::Totalled(Err(refusal)) => refusal.number(),
    }
}

// Its records compared: a search's.
fn compared_of(reply: Reply) -> u32
    ensures { result ≡ reply_compared (reply_of reply) }
{
    match reply {
        Reply::Answered(answer) => answer.records_compared,
        Reply::Totalled(_) => 0,
    }
}

impl Numbers {
    // What a call adds: what came back, and the side need of the list then held.
    pub fn count(&mut self, reply: Reply, need: u64)
        requires { Growing (numbers_of self.old) }
        ensures counted { numbers_of self.new ≡ plain.counted (reply_of reply) need (numbers_of self.old) }
        ensures grown { Grown (numbers_of self.old) (numbers_of self.new) }
    {
        let number = number_of(reply);
        self.greatest_need = self.greatest_need.max(need);
        self.refused_6 += u64::from(number == Refusal::AlreadyHeld.number());
        self.refused_7 += u64::from(number == Refusal::NotHeld.number());
        self.refused_8 += u64::from(number == Refusal::LedgerFull.number());
        self.refused_9 += u64::from(number == Refusal::SideStoreFull.number());
        self.compared += u64::from(compared_of(reply));
    }
}
