// A load played on a cleared table: each of its calls is made once, by the calls themselves.
ghost use Rattle.std.specs.Prelude.{◌≡◌, ◌<◌, true, false, [], ℕ};
ghost use Rattle.theory.specs.Settings.{allowed};
ghost use Rattle.theory.specs.BenchLoad.{draw, after_call, load_key, load_call, load_calls};
ghost use Rattle.theory.specs.Trials as plain;
ghost use Rattle.theory.specs.CallAreas.{areas_now};
ghost use Rattle.settings.specs.Checked.{paper, card};
ghost use Rattle.settings.specs.Areas.{contents, SameSlices};
ghost use Rattle.bench_load.specs.Loads.{generator_of, drawn};
ghost use Rattle.calls.specs.Data.{call_of};
ghost use Rattle.trials.specs.Data.{numbers_of, Growing};
ghost use Rattle.trials.specs.Playing.{Playable, Holds, Playing, PlayingParts, Lent, Played};

use crate::numbers::Numbers;
use bench_load::{BenchLoad, Generator, class_of, write_key};
use calls::data::Call;
use hash::made::make_table;
use memory::numbers::count_at;
use settings::Settings;
use settings::areas::Areas;

// "the first mod 4, from 0, picks add, change, remove or search"
fn picked_call(first: u64, key: &[u8]) -> Call<'_>
    ensures { (flows second : ℕ) → key.entry.now ≡ load_key flows (drawn first second) → call_of result ≡ load_call flows (drawn first second) }
{
    let class = class_of(first);
    match first % 4 {
        0 => Call::Add { key, class },
        1 => Call::Change { key, class },
        2 => Call::Remove { key },
        _ => Call::Search { key },
    }
}

// The next call of a load, on the table; it is counted. Flows and generator side by side: of a load lent as one its contract would have to say that the flows
// stay.
fn play_call(
    s: Settings,
    table: &[u64],
    flows: u64,
    generator: &mut Generator,
    areas: &mut Areas<'_>,
    work: &mut [u16],
    numbers: &mut Numbers,
)
    requires playing { Playing s table.now work.old (contents areas.old) }
    requires growing { Growing (numbers_of numbers.old) }
    requires some { 0 < flows }
    ensures played { Played (card s) (load_call flows (draw (generator_of generator.old))) (contents areas.old) (numbers_of numbers.old)
        (contents areas.new) (numbers_of numbers.new) }
    ensures after { generator_of generator.new ≡ after_call (generator_of generator.old) }
    ensures same { SameSlices areas.old areas.new }
{
    let (first, second) = generator.next_two();
    let mut key = [0u8; Settings::IPV4_WIDTH];
    write_key(&mut key, flows, second);
    let reply = calls::call(s, table, picked_call(first, &key), areas, work);
    let need = count_at(areas.lookup().side);
    numbers.count(reply, need as u64);
}

// All calls of a load, from its own start.
fn play(
    s: Settings,
    table: &[u64],
    load: BenchLoad,
    areas: &mut Areas<'_>,
    work: &mut [u16],
) -> Numbers
    requires playing { Playing s table.now work.old (contents areas.old) }
    requires playable { Playable load }
    ensures played { numbers_of result ≡ plain.played (card s) (load_calls load.flows load.count (generator_of load.generator))
        (contents areas.old) plain.no_numbers }
    ensures held { Holds (card s) (contents areas.old) → Holds (card s) (contents areas.new) }
    ensures same { SameSlices areas.old areas.new }
{
    let flows = load.flows;
    let mut generator = load.generator;
    let mut numbers = Numbers::default();
    for _call in 0..load.count {
        play_call(s, table, flows, &mut generator, areas, work, &mut numbers);
    }
    numbers
}

// "plays the load on a cleared table": areas of their lengths with any contents.
// At the end they hold some list.
fn play_cleared(s: Settings, load: BenchLoad, areas: &mut Areas<'_>, work: &mut [u16]) -> Numbers
    requires parts { PlayingParts s work.old (contents areas.old) }
    requires playable { Playable load }
    ensures numbers { numbers_of result ≡ plain.tried (card s) (load_calls load.flows load.count (generator_of load.generator)) [] plain.no_numbers }
    ensures held { Holds (card s) (contents areas.new) }
{
    writing::clear_areas(areas);
    play(s, make_table(s.width()), load, areas, work)
}

// The same on parts of areas of 64 KiB, of which none is too short for these settings. Slices, not `Areas`: parts of a struct's slices
// can't be lent side by side.
#[tactic(auto, using(crate::proofs::RoomLaws::rooms))]
pub fn play_in_parts(
    s: Settings,
    load: BenchLoad,
    ledger: &mut [u8],
    true_counts: &mut [u16],
    clipped: &mut [u8],
    buckets: &mut [u8],
    side: &mut [u8],
    work: &mut [u16],
) -> Numbers
    requires ok { allowed (paper s) ≡ true }
    requires within { plain.area_above (card s) ≡ false }
    requires playable { Playable load }
    requires lent { Lent (areas_now ledger true_counts clipped buckets side) work.old }
    ensures { numbers_of result ≡ plain.tried (card s) (load_calls load.flows load.count (generator_of load.generator)) [] plain.no_numbers }
{
    let mut parts = Areas {
        ledger: &mut ledger[..s.ledger_length()],
        true_counts: &mut true_counts[..s.true_length()],
        clipped: &mut clipped[..s.clipped_length()],
        buckets: &mut buckets[..s.buckets_length()],
        side: &mut side[..s.side_length()],
    };
    play_cleared(s, load, &mut parts, &mut work[..s.work_length()])
}
