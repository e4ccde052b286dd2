// Program flowrun's work: calls of 18 bytes in, their lines out. The program itself only reads and writes.
#![tactic(auto)]

ghost use Rattle.std.specs.Prelude.{◌≡◌, ℕ, ◌+◌, ◌*◌, ◌≤◌, ◌<◌, length, OnSome};
ghost use Rattle.theory.specs.Flowrun as flowrun;
ghost use Rattle.theory.specs.Lookup.{bare};
ghost use Rattle.theory.specs.Flowrun.{line_text, Printed, call_in, print_bytes, print_lines, call_count};
ghost use Rattle.settings.specs.Areas.{contents, SameSlices};
ghost use Rattle.lookup.specs.Answers.{answer_of};
ghost use Rattle.calls.specs.Data.{call_of, reply_of};
ghost use Rattle.io.specs.Counts.{IsPrefixLen};
ghost use Rattle.text.specs.Writing.{Grows};
ghost use Rattle.lines.specs.Asking.{call_asked};
ghost use Rattle.lines.specs.Printing.{PrintsAfter, Prints};

use calls::data::{Call, Reply};
use lookup::searching::Answer;
use memory::refusals::Refusal;
use settings::areas::Areas;
use settings::{Given, Settings};
use text::Text;

// "Settings 6, 3, 2, 4, 128, 8 in the order above"
pub const GIVEN: Given = Given {
    p: 6,
    k: 3,
    room: 2,
    top: 4,
    capacity: 128,
    side_places: 8,
    width: Settings::IPV4_WIDTH as u64,
};

// A call of 18 bytes: "letter I (add), C, D (remove), S or X (clear)", key, class. None of another letter, and of bytes left over.
#[tactic(auto, unfolding(theory::specs::Flowrun::call_in, theory::specs::Flowrun::letter_call))]
fn read_call(bytes: &[u8]) -> Option<Call<'_>>
    ensures asked { call_asked result ≡ call_in bytes.entry.now }
    ensures whole { OnSome result (length bytes.entry.now ≡ 18) }
{
    if bytes.len() != 18 {
        return None;
    }
    let key = &bytes[1..14];
    let class = memory::records::class_at(bytes, 14);
    match bytes[0] {
        b'I' => Some(Call::Add { key, class }),
        b'C' => Some(Call::Change { key, class }),
        b'D' => Some(Call::Remove { key }),
        b'S' => Some(Call::Search { key }),
        b'X' => Some(Call::Clear),
        _ => None,
    }
}

// The answer with the class that was written.
#[tactic(auto, unfolding(theory::specs::Flowrun::written))]
fn written(class: u32, x: Answer) -> Answer
    ensures { answer_of result ≡ flowrun.written class (answer_of x) }
{
    Answer {
        class: if x.number == 0 { class } else { 0 },
        ..x
    }
}

// "class (found or written, else 0)"; of tally nothing, for which no letter stands.
fn printed(call: Call<'_>, reply: Reply) -> Answer
    ensures { answer_of result ≡ flowrun.printed (call_of call.entry) (reply_of reply) }
{
    let Reply::Answered(x) = reply else {
        return lookup::searching::bare(0);
    };
    match call {
        Call::Add { class, .. } | Call::Change { class, .. } => written(class, x),
        _ => x,
    }
}

// What a call shows: its letter and its answer.
#[derive(Clone, Copy)]
struct Shown {
    letter: u8,
    answer: Answer,
}

// Runs a call of 18 bytes. "Another letter, or 1 to 17 bytes left over, prints letter ?, answer 14 and zeros, and alters nothing."
#[tactic(auto, unfolding(theory::specs::Flowrun::print_bytes))]
fn show_call(bytes: &[u8], areas: &mut Areas<'_>, work: &mut [u16]) -> Shown
    ensures shown { (n : ℕ) → ◌≡◌ {A = Printed}
        (record { text = line_text (record { call = n; letter = result.letter; answer = answer_of result.answer }); areas = contents areas.new })
        (print_bytes (length work.old) n bytes.entry.now (contents areas.old)) }
    ensures same { SameSlices areas.old areas.new }
{
    let Some(call) = read_call(bytes) else {
        return Shown {
            letter: b'?',
            answer: lookup::searching::refused(Refusal::UnknownCall),
        };
    };
    let reply = calls::perform(call, GIVEN, areas, work);
    Shown {
        letter: bytes[0],
        answer: printed(call, reply),
    }
}

// The line of a call, after the text before it.
fn append_line(text: &mut Text<'_>, call: u64, letter: u8, x: Answer)
    requires { text.old.end + 128 ≤ length text.old.bytes.now }
    ensures grows { Grows (line_text (record { call = call; letter = letter; answer = answer_of x })) text.old text.new }
    ensures few { text.new.end ≤ text.old.end + 128 }
{
    text.push_decimal(call, b' ');
    text.push_letter(letter, b' ');
    text.push_decimal(u64::from(x.number), b' ');
    text.push_decimal(u64::from(x.class), b' ');
    text.push_decimal(u64::from(x.buckets_read), b' ');
    text.push_decimal(u64::from(x.records_compared), b'\n');
}

// Runs a call, and appends its line.
pub fn run_call(
    number: u64,
    call: &[u8],
    areas: &mut Areas<'_>,
    work: &mut [u16],
    text: &mut Text<'_>,
)
    requires { text.old.end + 128 ≤ length text.old.bytes.now }
    ensures prints { PrintsAfter (print_bytes (length work.old) number call.now (contents areas.old)) (contents areas.new) text.old text.new }
    ensures few { text.new.end ≤ text.old.end + 128 }
    ensures same { SameSlices areas.old areas.new }
{
    let shown = show_call(call, areas, work);
    append_line(text, number, shown.letter, shown.answer);
}

// Runs the calls of an input, numbered from a first number on; their lines at the start of a buffer, and how many bytes these are.
pub fn run_calls(
    first: u64,
    input: &[u8],
    areas: &mut Areas<'_>,
    work: &mut [u16],
    to: &mut [u8],
) -> usize
    requires room { 128 * call_count input.now ≤ length to.old }
    requires numbers { first + length input.now < 9223372036854775808 }
    ensures prints { Prints (print_lines (length work.old) first (call_count input.now) input.now (contents areas.old))
        (contents areas.new) to.old to.new result }
    ensures inside { IsPrefixLen result to.new }
    ensures same { SameSlices areas.old areas.new }
{
    let mut text = Text { bytes: to, end: 0 };
    for (i, call) in input.chunks(18).enumerate() {
        run_call(first + i as u64, call, areas, work, &mut text);
    }
    text.end
}
