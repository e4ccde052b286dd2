// Where the record of a key lies, with the search's answer. The door that gives a search's counts without a table takes the answer from here.
ghost use Rattle.std.specs.Prelude.{◌≡◌, length};
ghost use Rattle.settings.specs.Checked.{paper, given_of, card};
ghost use Rattle.lookup.specs.Choosing.{card_at};
ghost use Rattle.lookup.specs.Places.{CheckedLookup};
ghost use Rattle.lookup.specs.Answers.{at_entry};
ghost use Rattle.lookup.specs.Locating.{Placeable, record_from, LocatedAt, LocatedCall};

use crate::counters::key_counters;
use crate::judging::judge;
use crate::places::{Place, place_by};
use crate::searching::{Answer, refused, search_place};
use settings::areas::LookupAreas;
use settings::{Given, Settings};

#[derive(Clone, Copy)]
pub enum Area {
    Buckets,
    Side,
}

// The byte of the area where the record starts.
#[derive(Clone, Copy)]
pub struct RecordPlace {
    pub area: Area,
    pub start: usize,
}

// The answer, and where the record lies, if it is held.
#[derive(Clone, Copy)]
pub struct Located {
    pub answer: Answer,
    pub place: Option<RecordPlace>,
}

// The record found is the last of the records compared, the first of which starts at a byte of the area.
fn record_of(answer: Answer, area: Area, first: usize, size: usize) -> Option<RecordPlace>
    requires { Placeable answer first size }
    ensures { result ≡ record_from answer area first size }
{
    if answer.number != 0 {
        return None;
    }
    let before = answer.records_compared as usize - 1;
    Some(RecordPlace {
        area,
        start: first + before * size,
    })
}

// The place of a key whose H is h.
fn locate_at(s: Settings, h: u64, areas: LookupAreas<'_>, key: &[u8]) -> Located
    requires checked { CheckedLookup (paper s) areas.clipped.now areas.buckets.now areas.side.now }
    requires wide { length key.now ≡ (card s).width }
    ensures { at_entry (LocatedAt (card_at (paper s) h)) areas key result }
{
    let size = s.record_size();
    let looked = place_by(
        s,
        key_counters(s, h, areas.clipped),
        areas.buckets,
        areas.side,
    );
    let answer = search_place(s, looked, areas, key);
    let place = match looked {
        Place::Bucket { from, .. } => record_of(answer, Area::Buckets, from, size),
        Place::Side { .. } => record_of(answer, Area::Side, 2, size),
        Place::Invalid | Place::Nowhere => None,
    };
    Located { answer, place }
}

// Search, with the place of the record.
pub fn locate(given: Given, areas: LookupAreas<'_>, key: &[u8]) -> Located
    ensures { at_entry (LocatedCall (given_of given)) areas key result }
{
    match judge(given, areas, key) {
        Err(refusal) => Located {
            answer: refused(refusal),
            place: None,
        },
        Ok(s) => locate_at(s, hash::h_rows(key), areas, key),
    }
}
