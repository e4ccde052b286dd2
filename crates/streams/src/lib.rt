// Standard input and standard output of the programs. A read or a write that fails is said on standard error with its reason, here and nowhere else.
// A call that a signal broke off is made again. So is one on a pipe that is set to not wait, over and over.
#![tactic(auto)]

ghost use Rattle.std.specs.Prelude.{◌≡◌, ◌-◌, ◌≤◌, ◌<◌, length, take, drop, IfOk, IfSome};
ghost use Rattle.streams.specs.Streams.{Within};

use std::io::{Cursor, ErrorKind, Read, Write};
use std::{io, str};

// A read or a write failed, which is said.
#[derive(Clone, Copy)]
pub struct Failed;

// No run comes to so many calls that are made again: a proved loop has to end.
const MOST_TURNS: u64 = 1152921504606846976;

// Whether a call that failed is to be made again.
fn to_try_again(error: &io::Error) -> bool {
    matches!(error.kind(), ErrorKind::WouldBlock | ErrorKind::Interrupted)
}

// The reason of the system in a text of std's, which puts the number of the error behind it.
fn reason_alone(text: &str) -> &str {
    match text.rsplit_once(" (os error ") {
        Some((reason, _)) => reason,
        None => text,
    }
}

// Says why a call on a stream failed. Where standard error takes nothing, nothing is said.
fn say(rt: &HostRuntime, stream: &str, error: &io::Error) {
    let mut text = Cursor::new([0u8; 320]);
    let _ = write!(text, "{error}");
    let end = text.position() as usize;
    let bytes = text.into_inner();
    let Some(written) = bytes.get(..end) else {
        return;
    };
    let Ok(whole) = str::from_utf8(written) else {
        return;
    };
    let reason = reason_alone(whole);
    let _ = eprintln!(rt; "{stream}: {reason}");
}

// Makes a call on a stream until it comes to something: how many bytes it moved, of at most so many.
fn settled<F: FnMut() -> io::Result<usize>>(
    rt: &HostRuntime,
    stream: &str,
    most: usize,
    mut call: F,
) -> Result<usize, Failed>
    requires { F.IsAlwaysCallable call }
    ensures { IfOk result (λ n. n ≤ most) }
{
    for _ in 0..MOST_TURNS {
        match call() {
            Ok(count) => return Ok(count.min(most)),
            Err(error) if to_try_again(&error) => {}
            Err(error) => {
                say(rt, stream, &error);
                return Err(Failed);
            }
        }
    }
    Err(Failed)
}

// So many bytes that a read gave, or the end of the input where there are none.
fn bytes_or_end(count: usize) -> Option<usize>
    ensures { IfSome result (λ n. (n ≡ count) × (0 < n)) }
{
    if count == 0 { None } else { Some(count) }
}

// One read that came to something, into a buffer that has room: 1 or more bytes, or None at the end of the input.
pub fn read_some(rt: &HostRuntime, buffer: &mut [u8]) -> Result<Option<usize>, Failed>
    ensures { Within result (length buffer.old) }
{
    let most = buffer.len();
    let count = settled(rt, "standard input", most, || rt.stdin().read(buffer))?;
    Ok(bytes_or_end(count))
}

// The same behind the bytes that stand at the start of a buffer already, which stay.
pub fn read_after(rt: &HostRuntime, buffer: &mut [u8], from: usize) -> Result<Option<usize>, Failed>
    requires { from ≤ length buffer.old }
    ensures read { Within result (length buffer.old - from) }
    ensures kept { take from buffer.new ≡ take from buffer.old }
{
    read_some(rt, &mut buffer[from..])
}

// Reads until a buffer is full or the input ends. No `for`: how far a read comes is not known before it.
pub fn read_full(rt: &HostRuntime, buffer: &mut [u8]) -> Result<Option<usize>, Failed>
    ensures { Within result (length buffer.new) }
{
    let mut done: usize = 0;
    while done < buffer.len() {
        match read_after(rt, buffer, done)? {
            Some(n) => done += n,
            None => break,
        }
    }
    Ok(bytes_or_end(done))
}

// Moves the bytes from one place of a buffer to another, fewer than a call's, to its start, where they wait for the bytes of the next read.
pub fn keep_rest(buffer: &mut [u8], from: usize, to: usize)
    requires order { from ≤ to }
    requires inside { to ≤ length buffer.old }
    requires few { to - from ≤ 18 }
    ensures { take (to - from) buffer.new ≡ take (to - from) (drop from buffer.old) }
{
    buffer.copy_within(from..to, 0);
}

// One write that came to something: how many bytes it took, 1 or more.
fn write_some(rt: &HostRuntime, bytes: &[u8]) -> Result<usize, Failed>
    ensures { IfOk result (λ n. (0 < n) × (n ≤ length bytes.now)) }
{
    let taken = settled(
        rt,
        "standard output",
        bytes.len(),
        || rt.stdout().write(bytes),
    )?;
    if taken == 0 {
        say(
            rt,
            "standard output",
            &io::Error::from(ErrorKind::WriteZero),
        );
        return Err(Failed);
    }
    Ok(taken)
}

// Writes all bytes. No `for`: how many a write takes is not known before it.
pub fn write_all(rt: &HostRuntime, bytes: &[u8]) -> Result<(), Failed> {
    let mut rest = bytes;
    while !rest.is_empty() {
        let taken = write_some(rt, rest)?;
        rest = &rest[taken..];
    }
    Ok(())
}
