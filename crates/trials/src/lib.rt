// Document 02, U3, 'Choosing settings for a node': a trial judged, played and told in a line. Program flowtrial only reads and writes.
#![tactic(auto)]

ghost use Rattle.std.specs.Prelude.{◌≡◌, ◌+◌, ◌≤◌, length, IfOk, IfErr};
ghost use Rattle.theory.specs.Trials.{trial_answer, trial_numbers, trial_line, trial_load};
ghost use Rattle.memory.specs.Refusals.{answer_of};
ghost use Rattle.settings.specs.Areas.{contents, SameSlices};
ghost use Rattle.bench_load.specs.Loads.{load_of, asked_of};
ghost use Rattle.text.specs.Writing.{Grows};
ghost use Rattle.trials.specs.Data.{numbers_told};
ghost use Rattle.trials.specs.Playing.{Playable, Lent};
ghost use Rattle.trials.specs.Telling.{TrialsPlayable, Tells};

use crate::judging::judge;
use crate::numbers::Numbers;
use crate::playing::play_in_parts;
use bench_load::BenchLoad;
use memory::refusals::Refusal;
use settings::areas::Areas;
use text::Text;

pub mod judging; // judging.rt: a trial's answer
pub mod numbers; // numbers.rt: what the calls of a load add up to
pub mod playing; // playing.rt: a load on a table

// "a count up to 2^32"
pub const MOST_CALLS: u64 = 4294967296;

// "reads U1's 32 bytes (a count up to 2^32)"; another load is 15.
pub fn read_load(input: &[u8]) -> Result<BenchLoad, Refusal>
    ensures load { asked_of result ≡ trial_load input.now }
    ensures refusal { IfErr result (λ e. e ≡ Refusal.WrongLoad) }
    ensures playable { IfOk result Playable }
{
    let load = bench_load::read_load(input)?;
    if load.count > MOST_CALLS {
        return Err(Refusal::WrongLoad);
    }
    Ok(load)
}

// Refused by its settings; else the load is played. The areas have 64 KiB each and any contents.
fn run_trial(
    load: BenchLoad,
    settings: &[u8],
    areas: &mut Areas<'_>,
    work: &mut [u16],
) -> Result<Numbers, Refusal>
    requires playable { Playable load }
    requires lent { Lent (contents areas.old) work.old }
    ensures answer { answer_of result ≡ trial_answer settings.now }
    ensures numbers { numbers_told result ≡ trial_numbers (load_of load) settings.now }
    ensures kept { Lent (contents areas.new) work.new }
    ensures same { SameSlices areas.old areas.new }
{
    let s = judge(settings)?;
    Ok(play_in_parts(
        s,
        load,
        areas.ledger,
        areas.true_counts,
        areas.clipped,
        areas.buckets,
        areas.side,
        work,
    ))
}

// The eight fields of a trial's line. "answer 1 .., 2 .. or 14 .. is followed by zeros".
fn append_line(text: &mut Text<'_>, number: u64, trial: Result<Numbers, Refusal>)
    requires { text.old.end + 168 ≤ length text.old.bytes.now }
    ensures grows { Grows (trial_line number (answer_of trial) (numbers_told trial)) text.old text.new }
    ensures few { text.new.end ≤ text.old.end + 168 }
{
    let (answer, x) = match trial {
        Ok(numbers) => (0, numbers),
        Err(refusal) => (refusal.number(), Numbers::default()),
    };
    text.push_decimal(number, b' ');
    text.push_decimal(u64::from(answer), b' ');
    text.push_decimal(x.greatest_need, b' ');
    text.push_decimal(x.refused_6, b' ');
    text.push_decimal(x.refused_7, b' ');
    text.push_decimal(x.refused_8, b' ');
    text.push_decimal(x.refused_9, b' ');
    text.push_decimal(x.compared, b'\n');
}

// The trials of an input that are left: their load, and the number of the next one.
#[derive(Clone, Copy)]
pub struct Trials {
    pub load: BenchLoad,
    pub number: u64,
}

// "the trial's number from 1"
pub fn all_trials(load: BenchLoad) -> Trials
    ensures load { result.load ≡ load }
    ensures number { result.number ≡ 1 }
{
    Trials { load, number: 1 }
}

impl Trials {
    // Runs the next trial. At the start of a buffer stands its line, of so many bytes: the one that the plain ledger gives for the load and the trial's
    // settings. The trials after it play the same load from its own start.
    pub fn tell_next(
        &mut self,
        settings: &[u8],
        areas: &mut Areas<'_>,
        work: &mut [u16],
        to: &mut [u8],
    ) -> usize
        requires playable { TrialsPlayable self.old }
        requires lent { Lent (contents areas.old) work.old }
        requires room { 168 ≤ length to.old }
        ensures tells { Tells self.old settings.now to.old to.new result self.new }
        ensures kept { Lent (contents areas.new) work.new }
        ensures same { SameSlices areas.old areas.new }
    {
        let trial = run_trial(self.load, settings, areas, work);
        let mut text = Text { bytes: to, end: 0 };
        append_line(&mut text, self.number, trial);
        self.number += 1;
        text.end
    }
}
