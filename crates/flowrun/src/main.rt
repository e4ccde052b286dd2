// Program flowrun: reads calls of 18 bytes from standard input and prints a line for each. It only reads and writes: what a read gives, up to 512 calls,
// is run at once, and 1 to 17 bytes wait for the rest. Crate lines runs the calls and makes their lines; crate streams reads and writes.
#![tactic(auto)]

ghost use Rattle.std.specs.Prelude.{◌≡◌, ◌+◌, ◌<◌, ◌≤◌, length, take, IfOk, IfSome};
ghost use Rattle.flowrun.specs.Blocks.{Split};

use settings::areas::Areas;
use streams::Failed;

// Nothing says that an input ends, and a proved loop has to: no run comes to so many blocks.
const MOST_BLOCKS: u64 = 1125899906842624;

// Runs up to 512 calls, numbered from a first number on, and writes their lines.
fn run_calls(
    rt: &HostRuntime,
    first: u64,
    calls: &[u8],
    areas: &mut Areas<'_>,
    work: &mut [u16],
) -> Result<(), Failed>
    requires few { length calls.now ≤ 9216 }
    requires numbers { first < 4611686018427387904 }
{
    let mut text = io::large_buffer();
    let bytes = lines::run_calls(first, calls, areas, work, &mut text);
    streams::write_all(rt, &text[..bytes])
}

// What stands in the buffer after a read: where its whole calls end, and where it ends.
#[derive(Clone, Copy)]
struct Block {
    whole: usize,
    end: usize,
}

// Reads behind the bytes that wait, which stay; None at the end of the input.
fn read_block(rt: &HostRuntime, input: &mut [u8], waiting: usize) -> Result<Option<Block>, Failed>
    requires short { waiting < 18 }
    requires room { length input.old ≡ 9216 }
    ensures split { IfOk result (λ got. IfSome got (λ block. Split block.whole block.end)) }
    ensures kept { take waiting input.new ≡ take waiting input.old }
{
    let Some(n) = streams::read_after(rt, input, waiting)? else {
        return Ok(None);
    };
    let end = waiting + n;
    Ok(Some(Block {
        whole: end / 18 * 18,
        end,
    }))
}

// Blocks up to the end of the input, where the bytes that wait are a call that is cut short. After a failed read they are none.
fn run_blocks(rt: &HostRuntime, areas: &mut Areas<'_>, work: &mut [u16]) -> Result<(), Failed> {
    streams::write_all(rt, b"call op answer class buckets compared\n")?;
    let mut input = [0u8; 9216];
    let mut first: u64 = 1;
    let mut waiting: usize = 0;
    for _block in 0..MOST_BLOCKS {
        let Some(block) = read_block(rt, &mut input, waiting)? else {
            return run_calls(rt, first, &input[..waiting], areas, work);
        };
        let Block { whole, end } = block;
        run_calls(rt, first, &input[..whole], areas, work)?;
        streams::keep_rest(&mut input, whole, end);
        first += (whole / 18) as u64;
        waiting = end - whole;
    }
    Ok(())
}

// The areas of document 01's lengths under flowrun's settings, "on a table cleared first". What fails is said where it fails.
fn main(rt: HostRuntime) {
    let mut ledger = [0u8; 2178];
    let mut true_counts = [0u16; 64];
    let mut clipped = [0u8; 32];
    let mut buckets = [0u8; 2240];
    let mut side = [0u8; 138];
    let mut work = [0u16; 128];
    let mut areas = Areas {
        ledger: &mut ledger,
        true_counts: &mut true_counts,
        clipped: &mut clipped,
        buckets: &mut buckets,
        side: &mut side,
    };
    let _ = update::clear(lines::GIVEN, &mut areas);
    let _ = run_blocks(&rt, &mut areas, &mut work);
}
