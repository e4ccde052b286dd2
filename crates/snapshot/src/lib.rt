// Document 01, 'Snapshot': save and load. Both judge first, with the side need of the records in work, and then write.
#![tactic(auto)]

ghost use Rattle.std.specs.Prelude.{◌≡◌, ◌≤◌};
ghost use Rattle.theory.specs.Records.{records};
ghost use Rattle.theory.specs.Snapshot.{settings_count, first_count, head_size};
ghost use Rattle.settings.specs.Checked.{paper, card};
ghost use Rattle.placing.specs.Worked.{Placed};
ghost use Rattle.snapshot.specs.Files.{PlacingList};

use placing::{Parts, Placement};
use settings::{Given, Settings};

pub mod loading; // loading.rt: a file into every area
pub mod reading; // reading.rt: what a file says, and the refusals that it alone decides
pub mod saving; // saving.rt: settings and ledger into a file

// How many settings there are; and how many a file has for keys of 13 bytes, which does not say the width.
pub const SETTINGS: usize = Given::COUNT;

pub const SETTINGS_WITHOUT_WIDTH: usize = 6;

// "two sections, each after its two-byte count": the first count that settings are saved with.
fn first_count(s: Settings) -> usize
    ensures { result ≡ first_count (paper s) }
{
    if s.width() == Settings::IPV4_WIDTH {
        return SETTINGS_WITHOUT_WIDTH;
    }
    SETTINGS
}

// The bytes of a head with so many settings: both counts and these, two bytes each.
fn head_size(settings: usize) -> usize
    requires { settings ≤ settings_count }
    ensures { result ≡ head_size settings }
{
    2 + 2 * settings + 2
}

// The bytes of the head that settings are saved with.
fn saved_head_size(s: Settings) -> usize
    ensures { result ≡ head_size (first_count (paper s)) }
{
    head_size(first_count(s))
}

// The list of `count` records that fill a part, placed. The count is at hand where this is called, and would be a division here.
fn place_list<'a>(
    s: Settings,
    table: &[u64],
    list: &[u8],
    count: usize,
    work: &'a mut [u16],
    kept: &'a mut [u16],
) -> Placement<'a>
    requires { PlacingList s table.now list.now count work.old kept.old }
    ensures { Placed (card s) (records (card s).width count list.now) result }
{
    let parts = Parts {
        before: list,
        between: &[],
        after: &[],
    };
    placing::placement_of(s, table, parts, work, &mut kept[..count])
}
