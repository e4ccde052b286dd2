// Program flowtrial: reads the 32 bytes of a load and then the settings of trials from standard input, and prints a line for each trial as soon as it
// is run. It only reads and writes; crate trials judges, plays and makes the lines, and crate streams reads and writes.
#![tactic(auto)]

ghost use Rattle.std.specs.Bool.{OnTrue};
ghost use Rattle.std.specs.Prelude.{◌≡◌, suc, IfOk};
ghost use Rattle.settings.specs.Areas.{contents, SameSlices};
ghost use Rattle.trials.specs.Playing.{Playable, Lent};
ghost use Rattle.trials.specs.Telling.{TrialsPlayable};

use bench_load::BenchLoad;
use settings::areas::Areas;
use streams::Failed;
use trials::Trials;

// Nothing says that an input ends, and a proved loop has to: no run comes to so many trials.
const MOST_TRIALS: u64 = 1125899906842623;

// The next trial: its settings read, its line written. Whether more may follow.
fn run_next(
    rt: &HostRuntime,
    left: &mut Trials,
    areas: &mut Areas<'_>,
    work: &mut [u16],
) -> Result<bool, Failed>
    requires playable { TrialsPlayable left.old }
    requires lent { Lent (contents areas.old) work.old }
    ensures next { IfOk result (λ more. OnTrue more ((left.new.load ≡ left.old.load) × (left.new.number ≡ suc left.old.number))) }
    ensures kept { Lent (contents areas.new) work.new }
    ensures same { SameSlices areas.old areas.new }
{
    let mut settings = [0u8; 12];
    let Some(got) = streams::read_full(rt, &mut settings)? else {
        return Ok(false);
    };
    let mut line = [0u8; 168];
    let bytes = left.tell_next(&settings[..got], areas, work, &mut line);
    streams::write_all(rt, &line[..bytes])?;
    Ok(got == 12)
}

// Trials up to the end of the input.
fn run_trials(
    rt: &HostRuntime,
    load: BenchLoad,
    areas: &mut Areas<'_>,
    work: &mut [u16],
) -> Result<(), Failed>
    requires playable { Playable load }
    requires lent { Lent (contents areas.old) work.old }
{
    let mut left = trials::all_trials(load);
    for _trial in 0..MOST_TRIALS {
        if !run_next(rt, &mut left, areas, work)? {
            break;
        }
    }
    Ok(())
}

// "A bad load gives 15 and prints nothing." Each trial is lent parts of six areas of 64 KiB.
fn run(rt: &HostRuntime) -> Result<(), Failed> {
    let mut input = [0u8; 32];
    let got = streams::read_full(rt, &mut input)?.unwrap_or(0);
    let Ok(load) = trials::read_load(&input[..got]) else {
        return Ok(());
    };
    let mut ledger = [0u8; 65536];
    let mut true_counts = [0u16; 32768];
    let mut clipped = [0u8; 65536];
    let mut buckets = [0u8; 65536];
    let mut side = [0u8; 65536];
    let mut work = [0u16; 32768];
    let mut areas = Areas {
        ledger: &mut ledger,
        true_counts: &mut true_counts,
        clipped: &mut clipped,
        buckets: &mut buckets,
        side: &mut side,
    };
    run_trials(rt, load, &mut areas, &mut work)
}

// What fails is said where it fails.
fn main(rt: HostRuntime) {
    let _ = run(&rt);
}
