// Settings and the ledger's records into a target buffer.
ghost use Rattle.std.specs.Prelude.{◌≡◌, ◌*◌, ◌<◌, length, All};
ghost use Rattle.theory.specs.Lists.{flat};
ghost use Rattle.theory.specs.Records.{to_bytes, records};
ghost use Rattle.theory.specs.Snapshot as plain;
ghost use Rattle.theory.specs.Snapshot.{Saved, snapshot};
ghost use Rattle.theory.proofs.SnapshotLaws.{head};
ghost use Rattle.memory.specs.Refusals.{answer_of};
ghost use Rattle.settings.specs.Checked.{paper, given_of, card};
ghost use Rattle.snapshot.specs.Files.{WritingHead, WritingSnapshot, Saving};

use crate::place_list;
use hash::made::make_table;
use memory::numbers::{count_at, write_number};
use memory::parts::copy;
use memory::refusals::Refusal;
use settings::{Given, Settings};

// Numbers of two bytes each, which fill a part.
fn write_numbers(to: &mut [u8], numbers: &[usize])
    requires full { length to.old ≡ 2 * length numbers.now }
    requires small { All (λ n. n < 65536) numbers.now }
    ensures { to.new ≡ flat (to_bytes 2) numbers.now }
{
    for (i, &number) in numbers.iter().enumerate() {
        write_number(&mut to[2 * i..], number);
    }
}

// "6 settings of two bytes in the order above", after their count, with the width as a seventh unless keys have 13 bytes; then the count of the records.
fn write_head(s: Settings, to: &mut [u8], count: usize)
    requires { WritingHead s to.old count }
    ensures { to.new ≡ flat (to_bytes 2) (head (paper s) count) }
{
    let first = crate::first_count(s);
    let second = 2 + 2 * first;
    let settings = [s.p, s.k, s.room, s.top, s.capacity, s.side_places, s.width];
    write_number(to, first);
    write_numbers(&mut to[2..second], &settings[..first]);
    write_number(&mut to[second..], count);
}

// The snapshot of the `count` records of a ledger, which fill a part.
fn write_snapshot(s: Settings, target: &mut [u8], list: &[u8], count: usize)
    requires { WritingSnapshot s target.old list.now count }
    ensures { target.new ≡ snapshot (paper s) (records (card s).width count list.now) }
{
    let head = crate::saved_head_size(s);
    write_head(s, &mut target[..head], count);
    copy(&mut target[head..], list);
}

// On allowed settings and areas of their lengths: 4, 9, 12; else the snapshot is written.
fn save_checked(
    s: Settings,
    table: &[u64],
    ledger: &[u8],
    work: &mut [u16],
    target: &mut [u8],
) -> Result<(), Refusal>
    requires { Saving s table.now work.old ledger.now }
    ensures { ◌≡◌ {A = Saved} (record { number = answer_of result; target = target.new })
        (plain.save (paper s) ledger.now (length work.old) target.old) }
{
    if !ledger::valid(s, ledger) {
        return Err(Refusal::InvalidLedger);
    }
    let count = count_at(ledger);
    let list = &ledger[2..2 + s.record_size() * count];
    let mut kept = [0; Settings::CAPACITY_MOST as usize];
    let placement = place_list(s, table, list, count, work, &mut kept[..]);
    let need = placing::side_need(s, placement);
    if s.side_places < need {
        return Err(Refusal::SideStoreFull);
    }
    if target.len() != crate::saved_head_size(s) + list.len() {
        return Err(Refusal::WrongFile);
    }
    write_snapshot(s, target, list, count);
    Ok(())
}

// 1, 2, then the call.
pub fn save(given: Given, ledger: &[u8], work: &mut [u16], target: &mut [u8]) -> Result<(), Refusal>
    ensures { ◌≡◌ {A = Saved} (record { number = answer_of result; target = target.new })
        (plain.save (given_of given) ledger.now (length work.old) target.old) }
{
    let s = Settings::new(given)?;
    if !((work.len() == s.work_length()) & (ledger.len() == s.ledger_length())) {
        return Err(Refusal::WrongAreaLength);
    }
    save_checked(s, make_table(s.width()), ledger, work, target)
}
