// Where a key's record stands among records in rising key order, or belongs.
ghost use Rattle.std.specs.Prelude.{◌≡◌, true, ◌+◌, ◌*◌, ◌≤◌, length};
ghost use Rattle.theory.specs.Records.{class_width, records, rising};
ghost use Rattle.ledger.specs.Spots.{SpotOf};

use super::keys::{below_key, same_key};
use memory::records::key_at;
use settings::Settings;

// As std's `binary_search` answers, which searches a slice of elements, where here are records in bytes: Ok of the place where the key's record stands,
// or Err of the place where it belongs. By halves: every record before low is below the key, and none from high on is. A `while`, since two bounds meet.
pub fn find_spot(places: &[u8], n: usize, key: &[u8]) -> Result<usize, usize>
    requires room { n * (length key.now + class_width) ≤ length places.now }
    requires rising { rising (records (length key.now) n places.now) ≡ true }
    ensures { SpotOf (records (length key.now) n places.now) key.now result }
{
    let width = key.len();
    let size = width + Settings::CLASS_WIDTH;
    let mut low = 0;
    let mut high = n;
    while low < high {
        let middle = low + (high - low) / 2;
        if below_key(key_at(places, middle, size, width), key) {
            low = middle + 1;
        } else {
            high = middle;
        }
    }
    if low == n {
        return Err(low);
    }
    if same_key(key, key_at(places, low, size, width)) {
        Ok(low)
    } else {
        Err(low)
    }
}
