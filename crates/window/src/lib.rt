// The window over the latest 1,024 accepted searches (document 02, U5): a ring of entries with running counts, in a lent area of 16-bit words.
// Entering and removing touch a fixed number of words; reading looks at the counts alone. Theory's Window.antt says what each word is.
#![tactic(auto)]

ghost use Rattle.std.specs.Prelude.{◌≡◌, ◌+◌, ◌/◌, ◌^◌, ◌≤◌, ◌<◌, length};
ghost use Rattle.theory.specs.Lookup as lookup;
ghost use Rattle.theory.specs.Window.{window_length, raised, counted, oldest_out, put_in, put_for_oldest, counts_told};
ghost use Rattle.memory.specs.Refusals.{answer_of};
ghost use Rattle.window.specs.Windows.{entry_in, Countable, Written, clear_of, enter_of, remove_of, counts_of};

use entry::Entry;
use memory::picks::pick;
use memory::refusals::Refusal;

mod entry; // entry.rt: what is kept of an accepted search

// The words of a window's area: the place of the oldest entry in the ring; how many entries there are; how many of them are held, how many compared the
// side store, and how many compared 0, 1, .. 64 records; then the ring. C lends the area as one slice of words, so these are places in it and no fields.
const OLDEST: usize = 0;

const MANY: usize = 1;

const HELD: usize = 2;

const SIDE: usize = 3;

const COMPARED: usize = 4;

const RING: usize = 69;

pub const LENGTH: usize = 1093;

// The entries that the ring has room for.
const SIZE: usize = 1024;

// The number of an accepted search: of a held flow below 2^32, of an absent one from 100 * 2^32 on. By ranges of the whole number, since of two tests for
// an equal answer the compiler makes two branches, and where held and absent flows come in turn the processor would wait at the first.
fn accepted(found: u64) -> bool
    ensures { result ≡ lookup.accepted (found / 2 ^ 32) }
{
    (found < 4294967296) | ((429496729600 <= found) & (found < 433791696896))
}

// A count with so much added, modulo 2^16; n taken off is 65,536 - n added. The sum is of 32 bits, since the processor takes longer over one of 16.
fn raise(words: &mut [u16], at: usize, n: u32)
    requires within { at < length words.old }
    requires small { n ≤ 131072 }
    ensures { words.new ≡ raised at n words.old }
{
    words[at] = ((u32::from(words[at]) + n) % 65536) as u16;
}

// The counts with so much added: all entries and those that compared so many records, held ones, those that compared the side store.
fn count(words: &mut [u16], one: u32, held: u32, side: u32, compared: usize)
    requires long { length words.old ≡ window_length }
    requires countable { Countable one held side compared }
    ensures { words.new ≡ counted one held side compared words.old }
{
    raise(words, MANY, one);
    raise(words, HELD, held);
    raise(words, SIDE, side);
    raise(words, COMPARED + compared, one);
}

// The oldest entry leaves.
fn take_oldest_out(words: &mut [u16])
    requires { length words.old ≡ window_length }
    ensures { words.new ≡ oldest_out words.old }
{
    let place = usize::from(words[OLDEST]) % SIZE;
    let e = Entry::from(words[RING + place]);
    words[OLDEST] = ((place + 1) % SIZE) as u16;
    count(
        words,
        65535,
        65536 - u32::from(e.held),
        65536 - u32::from(e.side_compared),
        e.records_compared as usize,
    );
}

// An entry comes in at the end.
fn put_in(words: &mut [u16], e: Entry)
    requires { length words.old ≡ window_length }
    ensures { words.new ≡ put_in (entry_in e) words.old }
{
    let place = (usize::from(words[OLDEST]) + usize::from(words[MANY])) % SIZE;
    words[RING + place] = u16::from(e);
    count(
        words,
        1,
        u32::from(e.held),
        u32::from(e.side_compared),
        e.records_compared as usize,
    );
}

// An entry comes in at the end of a full window, and the oldest leaves: each word is written once.
fn put_for_oldest(words: &mut [u16], e: Entry)
    requires { length words.old ≡ window_length }
    ensures { words.new ≡ put_for_oldest (entry_in e) words.old }
{
    let first = usize::from(words[OLDEST]);
    let oldest = first % SIZE;
    let place = (first + usize::from(words[MANY])) % SIZE;
    let left = Entry::from(words[RING + oldest]);
    words[RING + place] = u16::from(e);
    words[OLDEST] = ((oldest + 1) % SIZE) as u16;
    raise(
        words,
        HELD,
        u32::from(e.held) + (65536 - u32::from(left.held)),
    );
    raise(
        words,
        SIDE,
        u32::from(e.side_compared) + (65536 - u32::from(left.side_compared)),
    );
    raise(words, COMPARED + (left.records_compared as usize), 65535);
    raise(words, COMPARED + (e.records_compared as usize), 1);
}

// Empty: 2 for a wrong length.
pub fn clear(words: &mut [u16]) -> Result<(), Refusal>
    ensures { ◌≡◌ {A = Written} (record { number = answer_of result; area = words.new }) (clear_of words.old) }
{
    if words.len() != LENGTH {
        return Err(Refusal::WrongAreaLength);
    }
    words.fill(0);
    Ok(())
}

// A search enters by the driver's number and the three counts that its door gave; a refused one alters nothing. 2 for a wrong length.
pub fn enter(words: &mut [u16], found: u64, counts: &[u32]) -> Result<(), Refusal>
    ensures { ◌≡◌ {A = Written} (record { number = answer_of result; area = words.new })
        (enter_of words.old found counts.now) }
{
    if words.len() != LENGTH || counts.len() != 3 {
        return Err(Refusal::WrongAreaLength);
    }
    if !accepted(found) {
        return Ok(());
    }
    let e = Entry::of_search(found, counts);
    if SIZE <= usize::from(words[MANY]) {
        put_for_oldest(words, e);
    } else {
        put_in(words, e);
    }
    Ok(())
}

// The oldest entry is removed; an empty window stays as it is. 2 for a wrong length.
pub fn remove(words: &mut [u16]) -> Result<(), Refusal>
    ensures { ◌≡◌ {A = Written} (record { number = answer_of result; area = words.new }) (remove_of words.old) }
{
    if words.len() != LENGTH {
        return Err(Refusal::WrongAreaLength);
    }
    if words[MANY] != 0 {
        take_oldest_out(words);
    }
    Ok(())
}

// The highest number of records compared whose count is not zero. By a range: over the slice itself, with enumerate, flow_window_counts took 1.15 of its time.
fn greatest_compared(words: &[u16]) -> u32
    requires { length words.now ≡ window_length }
    ensures { result ≡ (counts_told words.now).greatest_compared }
{
    let mut greatest = 0;
    for compared in 0..RING - COMPARED {
        greatest = pick(words[COMPARED + compared] != 0, compared as u32, greatest);
    }
    greatest
}

// Held answers, searches that compared the side store, greatest records compared: 2 for a wrong length.
pub fn counts(words: &[u16], counts: &mut [u32]) -> Result<(), Refusal>
    ensures { ◌≡◌ {A = Written} (record { number = answer_of result; area = counts.new })
        (counts_of words.now counts.old) }
{
    if words.len() != LENGTH || counts.len() != 3 {
        return Err(Refusal::WrongAreaLength);
    }
    counts[0] = u32::from(words[HELD]);
    counts[1] = u32::from(words[SIDE]);
    counts[2] = greatest_compared(words);
    Ok(())
}
