// The settings of document 01 as a type by value: their limits, the checking constructor, and the lengths of the areas.
#![tactic(auto)]

ghost use Rattle.std.specs.Prelude.{◌≡◌, true, ◌+◌, ◌*◌, ◌≤◌};
ghost use Rattle.theory.specs.Settings.{allowed, record_size, bucket_size, ledger_length, true_length, clipped_length, buckets_length, side_length};
ghost use Rattle.theory.specs.Settings.{width_allowed, work_length, settings_in};
ghost use Rattle.settings.specs.Checked.{paper, given_of, checked_of, card};

use memory::refusals::Refusal;

pub mod areas; // areas.rt: the areas that a call is lent
pub mod counts; // counts.rt: true counts and clipped counts, each a type of its own

// In the paper's order and letters: p, k, B, T, N, S, the key width. No invariant says that they are in range: `width` and others promise their answer of any
// settings (docs/PROOFS.md).
#[derive(Clone, Copy)]
pub struct Settings {
    pub p: usize,
    pub k: usize,
    pub room: usize,
    pub top: usize,
    pub capacity: usize,
    pub side_places: usize,
    pub width: usize,
}

// The same as a caller gives them, or as a file says them: 64 bits each, so that no number is cut off before its range is judged.
#[derive(Clone, Copy, Default)]
pub struct Given {
    pub p: u64,
    pub k: u64,
    pub room: u64,
    pub top: u64,
    pub capacity: u64,
    pub side_places: u64,
    pub width: u64,
}

impl Given {
    // How many numbers a caller lends.
    pub const COUNT: usize = 7;

    // The numbers of a lent area, in their order; zeros for an area of another length, which are out of range.
    pub fn of_area(area: &[u64]) -> Given
        ensures { given_of result ≡ settings_in area.now }
    {
        let &[p, k, room, top, capacity, side_places, width] = area else {
            return Given::default();
        };
        Given {
            p,
            k,
            room,
            top,
            capacity,
            side_places,
            width,
        }
    }
}

// "hands them back": the same seven numbers, as a caller has them.
impl From<Settings> for Given {
    ghost from_gives = { λ s given. given_of given ≡ paper s };

    fn from(s: Settings) -> Given {
        Given {
            p: s.p as u64,
            k: s.k as u64,
            room: s.room as u64,
            top: s.top as u64,
            capacity: s.capacity as u64,
            side_places: s.side_places as u64,
            width: s.width as u64,
        }
    }
}

impl Settings {
    // "Six settings: p 4 to 12, with m = 2^p buckets; k 1 to 4 bucket hashes; B 1 to 4 records a bucket;
    // top count T 2 to 15; capacity N 1 to 4,096; side places S 0 to 64."
    pub const P_LEAST: u64 = 4;

    pub const P_MOST: u64 = 12;

    pub const K_LEAST: u64 = 1;

    pub const K_MOST: u64 = 4;

    pub const ROOM_LEAST: u64 = 1;

    pub const ROOM_MOST: u64 = 4;

    pub const TOP_LEAST: u64 = 2;

    pub const TOP_MOST: u64 = 15;

    pub const CAPACITY_LEAST: u64 = 1;

    pub const CAPACITY_MOST: u64 = 4096;

    pub const SIDE_PLACES_LEAST: u64 = 0;

    pub const SIDE_PLACES_MOST: u64 = 64;

    // The key width, a seventh: "A key is 13 bytes, a class an unsigned 32-bit number"; an IPv6 flow's key is 37 (document 02, U7).
    pub const IPV4_WIDTH: usize = 13;

    pub const IPV6_WIDTH: usize = 37;

    pub const CLASS_WIDTH: usize = 4;

    // "13 or 37": whether a number is a key width.
    pub fn width_allowed(width: u64) -> bool
        ensures { result ≡ width_allowed width }
    {
        if width == Settings::IPV4_WIDTH as u64 {
            return true;
        }
        width == Settings::IPV6_WIDTH as u64
    }

    pub fn new(given: Given) -> Result<Settings, Refusal>
        ensures { result ≡ checked_of (given_of given) }
    {
        let Given {
            p,
            k,
            room,
            top,
            capacity,
            side_places,
            width,
        } = given;
        // by itself, and not as one more of the tests below, so that the compiler makes a branch of it
        if !Settings::width_allowed(width) {
            return Err(Refusal::SettingOutOfRange);
        }
        let p_within = (Settings::P_LEAST <= p) & (p <= Settings::P_MOST);
        let k_within = (Settings::K_LEAST <= k) & (k <= Settings::K_MOST);
        let room_within = (Settings::ROOM_LEAST <= room) & (room <= Settings::ROOM_MOST);
        let top_within = (Settings::TOP_LEAST <= top) & (top <= Settings::TOP_MOST);
        let capacity_within = (Settings::CAPACITY_LEAST <= capacity)
            & (capacity <= Settings::CAPACITY_MOST);
        let side_places_within = (Settings::SIDE_PLACES_LEAST <= side_places)
            & (side_places <= Settings::SIDE_PLACES_MOST);
        if !(p_within
            & (k_within & (room_within & (top_within & (capacity_within & side_places_within)))))
        {
            return Err(Refusal::SettingOutOfRange);
        }
        Ok(Settings {
            p: p as usize,
            k: k as usize,
            room: room as usize,
            top: top as usize,
            capacity: capacity as usize,
            side_places: side_places as usize,
            width: width as usize,
        })
    }

    // m = 2^p
    pub fn buckets(self) -> usize
        requires { allowed (paper self) ≡ true }
        ensures { result ≡ (card self).buckets }
    {
        let p = self.p;
        1usize << p
    }

    pub fn width(self) -> usize
        ensures { result ≡ (card self).width }
    {
        self.width
    }

    // "a record 17 bytes: the key, then the class": four bytes longer than the key
    pub fn record_size(self) -> usize
        requires { allowed (paper self) ≡ true }
        ensures { result ≡ record_size (card self) }
    {
        self.width + Settings::CLASS_WIDTH
    }

    // So many bytes, then places for so many records.
    fn with_records(self, bytes: usize, count: usize) -> usize
        requires { (allowed (paper self) ≡ true) × (bytes ≤ 2) × (count ≤ 4096) }
        ensures { result ≡ bytes + record_size (card self) * count }
    {
        bytes + self.record_size() * count
    }

    // "one bucket of 1 + 17 × B bytes, a mark, then record places", with records of 17 bytes
    pub fn bucket_size(self) -> usize
        requires { allowed (paper self) ≡ true }
        ensures { result ≡ bucket_size (card self) }
    {
        self.with_records(1, self.room)
    }

    // "2 + 17 × N bytes"
    pub fn ledger_length(self) -> usize
        requires { allowed (paper self) ≡ true }
        ensures { result ≡ ledger_length (card self) }
    {
        self.with_records(2, self.capacity)
    }

    // "m 16-bit numbers"
    pub fn true_length(self) -> usize
        requires { allowed (paper self) ≡ true }
        ensures { result ≡ true_length (card self) }
    {
        self.buckets()
    }

    // "m / 2 bytes"
    pub fn clipped_length(self) -> usize
        requires { allowed (paper self) ≡ true }
        ensures { result ≡ clipped_length (card self) }
    {
        self.buckets() / 2
    }

    // "m times one bucket"
    pub fn buckets_length(self) -> usize
        requires { allowed (paper self) ≡ true }
        ensures { result ≡ buckets_length (card self) }
    {
        self.buckets() * self.bucket_size()
    }

    // "2 + 17 × S bytes, shaped as the ledger"
    pub fn side_length(self) -> usize
        requires { allowed (paper self) ≡ true }
        ensures { result ≡ side_length (card self) }
    {
        self.with_records(2, self.side_places)
    }

    // "2 × m 16-bit numbers"
    pub fn work_length(self) -> usize
        requires { allowed (paper self) ≡ true }
        ensures { result ≡ work_length (card self) }
    {
        2 * self.buckets()
    }
}
