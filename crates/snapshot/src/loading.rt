// A file into every area: its settings are handed back, its list's layout is written.
ghost use Rattle.std.specs.Prelude.{◌≡◌, length};
ghost use Rattle.theory.specs.Records.{records};
ghost use Rattle.theory.specs.Layout.{counted_places};
ghost use Rattle.theory.specs.Snapshot as plain;
ghost use Rattle.settings.specs.Checked.{card};
ghost use Rattle.settings.specs.Areas.{contents, SameSlices};
ghost use Rattle.snapshot.specs.Files.{loaded_of, HeadOf, Filling, Loading};

use crate::place_list;
use crate::reading::{Head, read_head, read_settings, refusal_by_file};
use hash::made::make_table;
use memory::numbers::write_number;
use memory::parts::copy;
use memory::refusals::Refusal;
use settings::areas::Areas;
use settings::{Given, Settings};

// The ledger area of `count` records that fill a part.
fn write_ledger(s: Settings, ledger: &mut [u8], list: &[u8], count: usize)
    requires { Filling s ledger.old list.now count }
    ensures { ledger.new ≡ counted_places (card s) (card s).capacity (records (card s).width count list.now) }
{
    let end = 2 + list.len();
    write_number(ledger, count);
    copy(&mut ledger[2..end], list);
    ledger[end..].fill(0);
}

// With a file's allowed settings and areas of their lengths: 8, 12, 13, 9; else the layout is written.
fn load_checked(
    s: Settings,
    table: &[u64],
    file: &[u8],
    head: Head,
    areas: &mut Areas<'_>,
    work: &mut [u16],
) -> Result<Given, Refusal>
    requires { Loading s table.now file.now head work.old (contents areas.old) }
    ensures loaded { loaded_of result (contents areas.new) ≡ plain.load file.now (length work.old) (contents areas.old) }
    ensures same { SameSlices areas.old areas.new }
{
    refusal_by_file(s, head, file)?;
    let list = &file[head.size..];
    let mut kept = [0; Settings::CAPACITY_MOST as usize];
    let placement = place_list(s, table, list, head.count, work, &mut kept[..]);
    let need = placing::side_need(s, placement);
    if s.side_places < need {
        return Err(Refusal::SideStoreFull);
    }
    write_ledger(s, areas.ledger, list, head.count);
    writing::lay_out(s, placement, need, areas);
    Ok(Given::from(s))
}

// 12 for the head, 1, 2, then the call.
pub fn load(file: &[u8], areas: &mut Areas<'_>, work: &mut [u16]) -> Result<Given, Refusal>
    ensures loaded { loaded_of result (contents areas.new) ≡ plain.load file.now (length work.old) (contents areas.old) }
    ensures same { SameSlices areas.old areas.new }
{
    let head = read_head(file)?;
    let s = read_settings(file, head)?;
    if !((work.len() == s.work_length()) & areas.have_lengths(s)) {
        return Err(Refusal::WrongAreaLength);
    }
    load_checked(s, make_table(s.width()), file, head, areas, work)
}
