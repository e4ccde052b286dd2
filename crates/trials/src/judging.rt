// A trial judged by the bytes of its settings: 14, 1, 2.
ghost use Rattle.std.specs.Prelude.{◌≡◌, true, ◌<◌, ◌≤◌, length};
ghost use Rattle.theory.specs.Settings.{allowed};
ghost use Rattle.theory.specs.Trials.{trial_setting, trial_settings, area_above};
ghost use Rattle.settings.specs.Checked.{paper, given_of, card};
ghost use Rattle.trials.specs.Data.{judged_trial};

use memory::numbers::count_at;
use memory::refusals::Refusal;
use settings::{Given, Settings};

// "six two-byte settings": setting i, from 0.
fn setting(bytes: &[u8], i: usize) -> u64
    requires bytes { 12 ≤ length bytes.now }
    requires few { i < 6 }
    ensures { result ≡ trial_setting bytes.now i }
{
    count_at(&bytes[2 * i..]) as u64
}

#[tactic(auto, unfolding(theory::specs::Trials::trial_settings))]
fn read_settings(bytes: &[u8]) -> Given
    requires { 12 ≤ length bytes.now }
    ensures { given_of result ≡ trial_settings bytes.now }
{
    Given {
        p: setting(bytes, 0),
        k: setting(bytes, 1),
        room: setting(bytes, 2),
        top: setting(bytes, 3),
        capacity: setting(bytes, 4),
        side_places: setting(bytes, 5),
        width: Settings::IPV4_WIDTH as u64,
    }
}

// "64 KiB"
pub const AREA_MOST: usize = 65536;

// "an area above 64 KiB": one of document 01's six, of which true counts and work have two bytes a number.
#[tactic(auto, unfolding(theory::specs::Trials::area_above, theory::specs::Trials::area_bytes))]
fn area_above(s: Settings) -> bool
    requires { allowed (paper s) ≡ true }
    ensures { result ≡ area_above (card s) }
{
    let areas = [
        s.ledger_length(),
        2 * s.true_length(),
        s.clipped_length(),
        s.buckets_length(),
        s.side_length(),
        2 * s.work_length(),
    ];
    areas.iter().any(|bytes| AREA_MOST < *bytes)
}

// "1 (a setting out of range), 2 (an area above 64 KiB) or 14 (settings cut short)"
pub fn judge(bytes: &[u8]) -> Result<Settings, Refusal>
    ensures { result ≡ judged_trial bytes.now }
{
    if bytes.len() < 12 {
        return Err(Refusal::UnknownCall);
    }
    let s = Settings::new(read_settings(bytes))?;
    if area_above(s) {
        return Err(Refusal::WrongAreaLength);
    }
    Ok(s)
}
