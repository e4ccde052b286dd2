// Document 02, U1, 'A load for the bench': the generator's step, calls written into a lent buffer, and the reading of the input that asks for a load.
#![tactic(auto)]

ghost use Rattle.std.specs.Prelude.{◌≡◌, ℕ, ◌/◌, ◌%◌, ◌<◌, min, length, IfOk, IfErr};
ghost use Rattle.theory.specs.Settings.{in_range, ipv4_width};
ghost use Rattle.theory.specs.BenchLoad.{stepped, next_number, draw, after_call, load_class, call_letter, load_key, load_call, call_bytes};
ghost use Rattle.theory.specs.BenchLoad.{load_bytes, after_calls, load_asked};
ghost use Rattle.bench_load.specs.Loads.{generator_of, drawn, asked_of, Cut};

use memory::numbers::{eight_at, write_eight};
use memory::records::write_class;
use memory::refusals::Refusal;

// "A generator holds a 64-bit s .. and a 64-bit w"
#[repr(C)]
#[derive(Clone, Copy)]
pub struct Generator {
    pub s: u64,
    pub w: u64,
}

// "it steps both, then gives s + w modulo 2^64": the generator after its step, and the number.
pub fn advance(generator: Generator) -> (Generator, u64)
    ensures steps { generator_of result.0 ≡ stepped (generator_of generator) }
    ensures gives { result.1 ≡ next_number (generator_of generator) }
{
    let s = hash::step(generator.s);
    let w = generator.w.wrapping_add(362437);
    let number = s.wrapping_add(w);
    (Generator { s, w }, number)
}

// Methods, and no Iterator: its numbers never end.
impl Generator {
    // The same where the generator is held.
    pub fn next_number(&mut self) -> u64
        ensures steps { generator_of self.new ≡ stepped (generator_of self.old) }
        ensures gives { result ≡ next_number (generator_of self.old) }
    {
        let (after, number) = advance(*self);
        *self = after;
        number
    }

    // "Each call takes two numbers", the first and the second.
    pub fn next_two(&mut self) -> (u64, u64)
        ensures numbers { drawn result.0 result.1 ≡ draw (generator_of self.old) }
        ensures after { generator_of self.new ≡ after_call (generator_of self.old) }
    {
        let first = self.next_number();
        let second = self.next_number();
        (first, second)
    }
}

// "the first mod 4, from 0, picks add, change, remove or search": flowrun's letter of the call.
fn letter(first: u64) -> u8
    ensures { (flows second : ℕ) → result ≡ call_letter (load_call flows (drawn first second)) }
{
    match first % 4 {
        0 => b'I',
        1 => b'C',
        2 => b'D',
        _ => b'S',
    }
}

// "the key is the second mod F in eight bytes, high byte first, then five zero bytes"
pub fn write_key(to: &mut [u8], flows: u64, second: u64)
    requires width { length to.old ≡ ipv4_width }
    requires some { 0 < flows }
    ensures { (first : ℕ) → to.new ≡ load_key flows (drawn first second) }
{
    write_eight(&mut to[..8], second % flows);
    to[8..].fill(0);
}

// "the class is the low 32 bits of the first"
pub fn class_of(first: u64) -> u32
    ensures { (second : ℕ) → result ≡ load_class (drawn first second) }
{
    (first % 4294967296) as u32
}

// A call for flowrun of two numbers: letter, key, class, which stands there for a removal and a search too.
fn write_call(to: &mut [u8], flows: u64, first: u64, second: u64)
    requires length { length to.old ≡ 18 }
    requires some { 0 < flows }
    ensures { to.new ≡ call_bytes flows (drawn first second) }
{
    to[0] = letter(first);
    write_key(&mut to[1..14], flows, second);
    write_class(&mut to[14..], class_of(first));
}

// The next call of a generator.
fn write_next(to: &mut [u8], flows: u64, generator: &mut Generator)
    requires length { length to.old ≡ 18 }
    requires some { 0 < flows }
    ensures call { to.new ≡ call_bytes flows (draw (generator_of generator.old)) }
    ensures after { generator_of generator.new ≡ after_call (generator_of generator.old) }
{
    let (first, second) = generator.next_two();
    write_call(to, flows, first, second);
}

// As many calls of a generator as a buffer holds.
pub fn fill(to: &mut [u8], flows: u64, generator: &mut Generator)
    requires whole { length to.old % 18 ≡ 0 }
    requires some { 0 < flows }
    ensures calls { to.new ≡ load_bytes flows (length to.old / 18) (generator_of generator.old) }
    ensures after { generator_of generator.new ≡ after_calls (length to.old / 18) (generator_of generator.old) }
{
    // By places: after a loop over `chunks_exact_mut` nothing is known of what its parts were given.
    for i in 0..to.len() / 18 {
        let at = i * 18;
        write_next(&mut to[at..at + 18], flows, generator);
    }
}

// What an input asks for: "s, w, F and a count of calls".
#[derive(Clone, Copy)]
pub struct BenchLoad {
    pub generator: Generator,
    pub flows: u64,
    pub count: u64,
}

// "A flow count F is 1 to 4,096."
pub const MOST_FLOWS: u64 = 4096;

fn flows_allowed(flows: u64) -> bool
    ensures { result ≡ in_range 1 4096 flows }
{
    (1..=MOST_FLOWS).contains(&flows)
}

// "eight bytes each, high byte first"; 15: "s zero, F outside its range or an input not of 32 bytes"
pub fn read_load(input: &[u8]) -> Result<BenchLoad, Refusal>
    ensures load { asked_of result ≡ load_asked input.now }
    ensures refusal { IfErr result (λ e. e ≡ Refusal.WrongLoad) }
    ensures flows { IfOk result (λ load. 0 < load.flows) }
{
    if input.len() != 32 {
        return Err(Refusal::WrongLoad);
    }
    let s = eight_at(input, 0);
    let w = eight_at(input, 8);
    let flows = eight_at(input, 16);
    let count = eight_at(input, 24);
    if s == 0 {
        return Err(Refusal::WrongLoad);
    }
    if !flows_allowed(flows) {
        return Err(Refusal::WrongLoad);
    }
    Ok(BenchLoad {
        generator: Generator { s, w },
        flows,
        count,
    })
}

// How many of so many calls a buffer of so many bytes holds.
fn calls_held(bytes: usize, count: u64) -> usize
    ensures { result ≡ min (bytes / 18) count }
{
    count.min(bytes as u64 / 18) as usize
}

impl BenchLoad {
    // As many calls of the load as a buffer holds, or all of them, at its start: how many bytes they are. What is left of the load follows.
    pub fn next_piece(&mut self, to: &mut [u8]) -> usize
        requires { 0 < self.old.flows }
        ensures { Cut self.old self.new to.new result }
    {
        let calls = calls_held(to.len(), self.count);
        let bytes = calls * 18;
        fill(&mut to[..bytes], self.flows, &mut self.generator);
        self.count -= calls as u64;
        bytes
    }
}
