// What a file says: its head, its settings, and the refusals that it decides alone.
ghost use Rattle.std.specs.Prelude.{◌≡◌, true, ◌+◌, ◌≤◌, ◌<◌, length, Result, IfOk, IfErr};
ghost use Rattle.theory.specs.Settings.{allowed};
ghost use Rattle.theory.specs.Snapshot as plain;
ghost use Rattle.theory.specs.Snapshot.{settings_count, head_size, file_settings, head_wrong};
ghost use Rattle.memory.specs.Refusals.{answer_of};
ghost use Rattle.settings.specs.Checked.{paper, checked_of};
ghost use Rattle.snapshot.specs.Files.{HeadOf, HeadHanded, by_file};

use ledger::keys::keys_rise;
use memory::numbers::count_at;
use memory::refusals::Refusal;
use settings::{Given, Settings};

// What the head of a file says beside its settings: how many these are, its bytes, and the second count.
#[derive(Clone, Copy)]
pub struct Head {
    pub settings: usize,
    pub size: usize,
    pub count: usize,
}

// 12: without an allowed first count, its settings and the second count.
pub fn head_wrong(file: &[u8]) -> bool
    ensures { result ≡ head_wrong file.now }
{
    if file.len() < 2 {
        return true;
    }
    let first = count_at(file);
    if !((first == crate::SETTINGS_WITHOUT_WIDTH) | (first == crate::SETTINGS)) {
        return true;
    }
    file.len() < crate::head_size(first)
}

// The head of a file, or 12.
pub fn read_head(file: &[u8]) -> Result<Head, Refusal>
    ensures read { IfOk result (HeadOf file.now) }
    ensures wrong { IfErr result (λ refusal. (refusal ≡ Refusal.WrongFile) × (head_wrong file.now ≡ true)) }
{
    if head_wrong(file) {
        return Err(Refusal::WrongFile);
    }
    let settings = count_at(file);
    let size = crate::head_size(settings);
    let second = size - 2;
    Ok(Head {
        settings,
        size,
        count: count_at(&file[second..]),
    })
}

// Setting i of a file, from 0.
fn setting(file: &[u8], i: usize) -> u64
    requires listed { i < settings_count }
    requires there { head_size i + 2 ≤ length file.now }
    ensures { result ≡ plain.setting file.now i }
{
    count_at(&file[2 + 2 * i..]) as u64
}

// A file of six settings has keys of 13 bytes.
fn width(file: &[u8], head: Head) -> u64
    requires { HeadOf file.now head }
    ensures { result ≡ (file_settings file.now).width }
{
    if head.settings == crate::SETTINGS_WITHOUT_WIDTH {
        return Settings::IPV4_WIDTH as u64;
    }
    setting(file, 6)
}

pub fn read_settings(file: &[u8], head: Head) -> Result<Settings, Refusal>
    requires { HeadOf file.now head }
    ensures { result ≡ checked_of (file_settings file.now) }
{
    Settings::new(Given {
        p: setting(file, 0),
        k: setting(file, 1),
        room: setting(file, 2),
        top: setting(file, 3),
        capacity: setting(file, 4),
        side_places: setting(file, 5),
        width: width(file, head),
    })
}

// The settings of a file's head, with an area of so many numbers for them: 12 for the head, 1, 2, 12 for a 7 with width 13. No record is read.
pub fn head_settings(file: &[u8], area_length: usize) -> Result<Given, Refusal>
    ensures { HeadHanded file.now area_length result }
{
    let head = read_head(file)?;
    let Ok(s) = read_settings(file, head) else {
        return Err(Refusal::SettingOutOfRange);
    };
    if area_length != crate::SETTINGS {
        return Err(Refusal::WrongAreaLength);
    }
    if head.settings != crate::first_count(s) {
        return Err(Refusal::WrongFile);
    }
    Ok(Given::from(s))
}

// 8, 12 for a 7 with width 13 and for a cut or overlong file, 13.
pub fn refusal_by_file(s: Settings, head: Head, file: &[u8]) -> Result<(), Refusal>
    requires permitted { allowed (paper s) ≡ true }
    requires head { HeadOf file.now head }
    ensures { answer_of result ≡ by_file (paper s) file.now }
{
    let Head {
        settings,
        size,
        count,
    } = head;
    if s.capacity < count {
        return Err(Refusal::LedgerFull);
    }
    if settings != crate::first_count(s) {
        return Err(Refusal::WrongFile);
    }
    if file.len() != size + s.record_size() * count {
        return Err(Refusal::WrongFile);
    }
    if !keys_rise(&file[size..], count, s.width()) {
        return Err(Refusal::KeysNotRising);
    }
    Ok(())
}
