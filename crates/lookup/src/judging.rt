// What the searches judge first.
ghost use Rattle.std.specs.Prelude.{◌≡◌};
ghost use Rattle.settings.specs.Checked.{given_of};
ghost use Rattle.lookup.specs.Answers.{at_entry, of_areas, judged_areas, judged_of, judged_with_table};
ghost use Rattle.lookup.specs.Bursts.{judged_burst};

use memory::refusals::Refusal;
use settings::areas::LookupAreas;
use settings::{Given, Settings};

// 1, a setting out of range; 2, the length of an area.
#[inline(always)]
fn judge_areas(given: Given, areas: LookupAreas<'_>) -> Result<Settings, Refusal>
    ensures { result ≡ of_areas (judged_areas (given_of given)) areas.entry }
{
    let s = Settings::new(given)?;
    if !areas.have_lengths(s) {
        return Err(Refusal::WrongAreaLength);
    }
    Ok(s)
}

// Then 3, a key not of the card's width.
#[inline(always)]
pub fn judge(given: Given, areas: LookupAreas<'_>, key: &[u8]) -> Result<Settings, Refusal>
    ensures { result ≡ at_entry (judged_of (given_of given)) areas key }
{
    let s = judge_areas(given, areas)?;
    if key.len() != s.width() {
        return Err(Refusal::WrongKeyLength);
    }
    Ok(s)
}

// The same with a lent table of the hash, whose length is judged with the areas': after them, so that one question for the width serves the table's length, the
// key's and the hash that follows.
#[inline(always)]
pub fn judge_with_table(
    table: &[u64],
    given: Given,
    areas: LookupAreas<'_>,
    key: &[u8],
) -> Result<Settings, Refusal>
    ensures { result ≡ at_entry (judged_with_table table.now (given_of given)) areas key }
{
    let s = judge_areas(given, areas)?;
    let width = s.width();
    if !hash::table_length_right(table.len(), width) {
        return Err(Refusal::WrongAreaLength);
    }
    if key.len() != width {
        return Err(Refusal::WrongKeyLength);
    }
    Ok(s)
}

// The same for a burst of n keys: 3 is keys not of n times the key's bytes, judged by a division, since a product may not fit.
pub fn judge_burst(
    table: &[u64],
    given: Given,
    areas: LookupAreas<'_>,
    keys: &[u8],
    n: usize,
) -> Result<Settings, Refusal>
    ensures { result ≡ at_entry (judged_burst table.now (given_of given)) areas keys n }
{
    let s = judge_areas(given, areas)?;
    let width = s.width();
    let table_right = hash::table_length_right(table.len(), width);
    if !table_right {
        return Err(Refusal::WrongAreaLength);
    }
    let whole_keys = keys.len() % width == 0;
    if !(whole_keys & (keys.len() / width == n)) {
        return Err(Refusal::WrongKeyLength);
    }
    Ok(s)
}
