// The second search call: the record itself, as a part of one of two lent slices.
ghost use Rattle.settings.specs.Checked.{given_of};
ghost use Rattle.lookup.specs.Parts.{FetchedCall};

use crate::locating::{Area, locate};
use settings::areas::LookupAreas;
use settings::{Given, Settings};

// The second search call: "hands back the 17 bytes themselves", the bytes of the record, "out of the buckets or out of the side store, and an empty part when
// absent or refused". The areas come one by one, since the part that it hands back does not borrow the clipped counts.
pub fn fetch<'a, 'b>(
    given: Given,
    clipped: &'b [u8],
    buckets: &'a [u8],
    side: &'a [u8],
    key: &'b [u8],
) -> &'a [u8]
    ensures { FetchedCall (given_of given)
        clipped.now buckets.entry side.entry key.now result }
{
    let areas = LookupAreas {
        clipped,
        buckets,
        side,
    };
    let found = locate(given, areas, key);
    let Some(place) = found.place else {
        return &buckets[..0];
    };
    let start = place.start;
    let end = start + (key.len() + Settings::CLASS_WIDTH);
    match place.area {
        Area::Buckets => &buckets[start..end],
        Area::Side => &side[start..end],
    }
}
