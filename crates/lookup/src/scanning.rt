// Records compared from the first up to the equal one or the last.
ghost use Rattle.std.specs.Prelude.{◌≤◌, length};
ghost use Rattle.lookup.specs.Scanning.{Scannable, AllScannable, IsPlaceOf};

use memory::picks::pick;
use memory::records::key_at;
use settings::Settings;

// Which of the first n records of a place has the key; no other is compared after it.
#[inline(always)]
pub fn scan(place: &[u8], n: usize, key: &[u8]) -> Option<usize>
    requires { Scannable place.now n key.now }
    ensures { IsPlaceOf key.now n place.now result }
{
    let width = key.len();
    let size = width + Settings::CLASS_WIDTH;
    for i in 0..n {
        if ledger::keys::same_key(key, key_at(place, i, size, width)) {
            return Some(i);
        }
    }
    None
}

// The same where all places may be read: each is compared, from the last to the first, with no branch on what is equal; the first equal one counts if
// it is among the first n.
pub fn scan_all(place: &[u8], n: usize, room: usize, key: &[u8]) -> Option<usize>
    requires { AllScannable place.now n room key.now }
    ensures { IsPlaceOf key.now n place.now result }
{
    let width = key.len();
    let size = width + Settings::CLASS_WIDTH;
    let mut first = room;
    for i in (0..room).rev() {
        let same = ledger::keys::same_words(key, key_at(place, i, size, width));
        first = pick(same, i, first);
    }
    if first < n { Some(first) } else { None }
}
