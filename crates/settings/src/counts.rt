// "a clipped count is never stored as or taken for a true count": each is a type of its own. A count is made, compared and ranked here, and not by its bare
// number.
ghost use Rattle.std.specs.Prelude.{◌≡◌, cond, ◌+◌, ◌*◌, ◌/◌, ◌%◌, ◌<◌, ◌≤◌, min, eqb, ltb};

use memory::picks::pick;

// The lower of a true count and the top count: four bits. It is held in a wide number, so that searching ranks it with no cut between.
#[derive(Clone, Copy)]
pub struct ClippedCount(u64);

// How many held keys name a bucket.
#[derive(Clone, Copy)]
pub struct TrueCount(u16);

impl ClippedCount {
    // The count of a bucket that no key names.
    pub fn zero() -> ClippedCount
        ensures { result.0 ≡ 0 }
    {
        ClippedCount(0)
    }

    // "bucket b in byte b / 2, an even b in the low four bits". Both halves are made and one is picked, so that no branch depends on the bucket.
    pub fn of_byte(byte: u8, b: usize) -> ClippedCount
        ensures { (result.0 ≡ cond (eqb (b % 2) 0) (byte % 16) (byte / 16)) × (result.0 < 16) }
    {
        let wide = u64::from(byte);
        ClippedCount(pick(b % 2 == 0, wide % 16, wide / 16))
    }

    // The byte of two neighbours, an even bucket's count and the next one's.
    pub fn byte_of(even: ClippedCount, odd: ClippedCount) -> u8
        requires { (even.0 < 16) × (odd.0 < 16) }
        ensures { result ≡ even.0 + 16 * odd.0 }
    {
        (even.0 + 16 * odd.0) as u8
    }

    // A count and its bucket as one number, its rank: the least rank has the least count and, of equal counts, the lowest bucket.
    pub fn rank(self, bucket: u64) -> u64
        requires { (self.0 < 65536) × (bucket < 65536) }
        ensures { result ≡ self.0 * 65536 + bucket }
    {
        self.0 * 65536 + bucket
    }

    // The count of a rank.
    pub fn of_rank(rank: u64) -> ClippedCount
        ensures { result.0 ≡ rank / 65536 }
    {
        ClippedCount(rank / 65536)
    }

    // The higher of two.
    pub fn higher(self, other: ClippedCount) -> ClippedCount
        ensures { result.0 ≡ cond (ltb self.0 other.0) other.0 self.0 }
    {
        ClippedCount(self.0.max(other.0))
    }

    // Above the top count, which no clipped count is.
    pub fn above(self, top: usize) -> bool
        ensures { result ≡ ltb top self.0 }
    {
        (top as u64) < self.0
    }

    pub fn is(self, count: usize) -> bool
        ensures { result ≡ eqb self.0 count }
    {
        self.0 == count as u64
    }
}

impl TrueCount {
    // A number of the true counts, which an area or work holds as 16 bits.
    pub fn of_number(number: u16) -> TrueCount
        ensures { result.0 ≡ number }
    {
        TrueCount(number)
    }

    // The number to store.
    pub fn number(self) -> u16
        ensures { result ≡ self.0 }
    {
        self.0
    }

    pub fn clip(self, top: usize) -> ClippedCount
        requires { top ≤ 15 }
        ensures { result.0 ≡ min self.0 top }
    {
        ClippedCount(u64::from(self.0).min(top as u64))
    }

    // As of a clipped count, and said again: the two are types of their own, so that neither is taken for the other.
    pub fn rank(self, bucket: u64) -> u64
        requires { bucket < 65536 }
        ensures { result ≡ self.0 * 65536 + bucket }
    {
        u64::from(self.0) * 65536 + bucket
    }

    pub fn raised(self, more: u16) -> TrueCount
        requires { self.0 + more < 65536 }
        ensures { result.0 ≡ self.0 + more }
    {
        TrueCount(self.0 + more)
    }
}
