// Program flowload: reads the 32 bytes that ask for a load from standard input, and writes its calls for flowrun. It only reads and writes, in pieces of
// 3,640 calls; crate bench_load judges the input and makes the calls, and crate streams reads and writes.
#![tactic(auto)]

ghost use Rattle.std.specs.Prelude.{◌<◌, ◌≤◌, length};

use bench_load::BenchLoad;
use streams::Failed;

// Writes the calls of a load, as many at a time as the buffer holds. It stops where they are not taken. No `for`: the load says when none is left.
fn write_calls(rt: &HostRuntime, load: BenchLoad, buffer: &mut [u8]) -> Result<(), Failed>
    requires some { 0 < load.flows }
    requires room { 18 ≤ length buffer.old }
{
    let mut left = load;
    while left.count > 0 {
        let bytes = left.next_piece(buffer);
        streams::write_all(rt, &buffer[..bytes])?;
    }
    Ok(())
}

// "15 ..; nothing is then written": one byte more than a load has is asked for, so that a longer input is seen.
fn write_load(rt: &HostRuntime) -> Result<(), Failed> {
    let mut input = [0u8; 33];
    let got = streams::read_full(rt, &mut input)?.unwrap_or(0);
    let Ok(load) = bench_load::read_load(&input[..got]) else {
        return Ok(());
    };
    let mut buffer = io::large_buffer();
    write_calls(rt, load, &mut buffer)
}

// What fails is said where it fails.
fn main(rt: HostRuntime) {
    let _ = write_load(&rt);
}
