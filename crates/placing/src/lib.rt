// Document 01, 'Placing': how many keys have a bucket among theirs, which bucket a key chooses, and which keys belong to the side.
#![tactic(auto)]

ghost use Rattle.std.specs.Prelude.{◌≡◌, true, List, ℕ, ◌≤◌, length};
ghost use Rattle.theory.specs.Records.{Record};
ghost use Rattle.theory.specs.Settings.{allowed};
ghost use Rattle.theory.specs.Hash.{H as H_of};
ghost use Rattle.theory.specs.Ledger.{side_need_of};
ghost use Rattle.settings.specs.Checked.{paper, card};
ghost use Rattle.placing.specs.Ready.{Ready, Placing};
ghost use Rattle.placing.specs.Worked.{nth, Placed, PlacedIn, side_by_choice, list_of};

use choosing::choose_parts;
use counting::count_parts;
use hash::by_table::by_bytes;
use hash::h_with_table;
use settings::Settings;

pub mod choosing; // choosing.rt: the bucket that each key chooses
pub mod counting; // counting.rt: true counts

// A list that lies in three parts, each of whole records: those before the edit's place, those between (the new record or none), and those after.
#[derive(Clone, Copy)]
pub struct Parts<'a> {
    pub before: &'a [u8],
    pub between: &'a [u8],
    pub after: &'a [u8],
}

// What placing a list leaves behind: its true counts, how many keys choose each bucket, and the choice of each record, which is the number of
// buckets where all its counts are top or more.
#[derive(Clone, Copy)]
pub struct Placement<'a> {
    pub counts: &'a [u16],
    pub choosers: &'a [u16],
    pub choices: &'a [u16],
}

// H of a key of the card's width.
fn h_of(s: Settings, table: &[u64], key: &[u8]) -> u64
    requires ready { Ready s table.now }
    requires wide { length key.now ≡ (card s).width }
    ensures { result ≡ H_of key.now }
{
    h_with_table(table, key)
}

// The list that a call would make, placed in what is lent: work gets its true counts and then its choosers, choices the choice of each record.
pub fn place_parts(
    s: Settings,
    table: &[u64],
    parts: Parts<'_>,
    work: &mut [u16],
    choices: &mut [u16],
)
    requires { Placing s table.now parts work.old choices.old }
    ensures { PlacedIn (card s) (list_of (card s).width parts.entry) work.new choices.new }
{
    let (counts, choosers) = work.split_at_mut(s.buckets());
    count_parts(s, table, counts, parts);
    choose_parts(s, table, counts, choosers, parts, choices);
}

// The same, handed out. Both slices are lent while the result lives, and no clause says what they hold afterwards: `place_parts` says it.
pub fn placement_of<'a>(
    s: Settings,
    table: &[u64],
    parts: Parts<'_>,
    work: &'a mut [u16],
    choices: &'a mut [u16],
) -> Placement<'a>
    requires { Placing s table.now parts work.old choices.old }
    ensures { Placed (card s) (list_of (card s).width parts.entry) result }
{
    place_parts(s, table, parts, work, choices);
    let (counts, choosers) = work.split_at(s.buckets());
    Placement {
        counts,
        choosers,
        choices: &*choices,
    }
}

// A key with this choice belongs to the side.
pub fn aside(s: Settings, placement: Placement<'_>, choice: u16) -> bool
    requires places { length placement.choosers.now ≡ (card s).buckets }
    requires within { choice ≤ (card s).buckets }
    ensures { result ≡ side_by_choice (card s) (nth placement.entry.choosers.now) choice }
{
    match placement.choosers.get(usize::from(choice)) {
        Some(&choosers) => s.room < usize::from(choosers),
        None => true,
    }
}

// "Side need is how many keys belong there."
pub fn side_need(s: Settings, placement: Placement<'_>) -> usize
    requires ok { allowed (paper s) ≡ true }
    requires places { length placement.choosers.now ≡ (card s).buckets }
    requires within { (i : ℕ) → nth placement.choices.now i ≤ (card s).buckets }
    ensures { (l : List Record) → Placed (card s) l placement.entry → result ≡ side_need_of (card s) l }
{
    let mut need: usize = 0;
    for &choice in placement.choices {
        need += usize::from(aside(s, placement, choice));
    }
    need
}
