// The counters of a key: what they say of where it is looked for.
ghost use Rattle.std.specs.Prelude.{◌≡◌, true, ◌/◌, ◌<◌, length};
ghost use Rattle.theory.specs.Settings.{allowed, clipped_length};
ghost use Rattle.theory.specs.Lookup as plain;
ghost use Rattle.settings.specs.Checked.{paper, card};
ghost use Rattle.lookup.specs.Choosing.{key_counters_at, CountersOf, of_rank};

use settings::Settings;
use settings::counts::ClippedCount;

// The least; of the bucket numbers with the least, the lowest.
#[derive(Clone, Copy)]
pub struct KeyCounters {
    pub least: ClippedCount,
    pub bucket: usize,
}

// "bucket b in byte b / 2, an even b in the low four bits"
pub fn counter(clipped: &[u8], b: usize) -> ClippedCount
    requires { b / 2 < length clipped.now }
    ensures { (result.0 ≡ plain.counter clipped.now b) × (result.0 < 16) }
{
    ClippedCount::of_byte(clipped[b / 2], b)
}

// The greatest of a key's counters, and their least rank, which has the least counter and the lowest bucket with it: no branch. Repeated hashes are read again
// and alter nothing.
#[inline(always)]
pub fn read_counters(s: Settings, h: u64, clipped: &[u8]) -> (ClippedCount, u64)
    requires { (allowed (paper s) ≡ true) × (length clipped.now ≡ clipped_length (card s)) }
    ensures { CountersOf (paper s) h clipped.now result.0 (of_rank result.1) }
{
    let m = s.buckets() as u64;
    // H from hash j on
    let mut rest = h;
    let mut most = ClippedCount::zero();
    let mut best = (s.top as u64) * 65536 + m;
    for j in 0..s.k {
        let b = rest % m;
        let count = counter(clipped, b as usize);
        most = count.higher(most);
        best = count.rank(b).min(best);
        rest /= 65536;
    }
    (most, best)
}

impl KeyCounters {
    // The counter and the bucket of a rank.
    pub fn of_rank(rank: u64) -> KeyCounters
        ensures { result ≡ of_rank rank }
    {
        KeyCounters {
            least: ClippedCount::of_rank(rank),
            bucket: (rank % 65536) as usize,
        }
    }
}

// What they choose; None where one counter is above T.
#[inline(always)]
pub fn key_counters(s: Settings, h: u64, clipped: &[u8]) -> Option<KeyCounters>
    requires { (allowed (paper s) ≡ true) × (length clipped.now ≡ clipped_length (card s)) }
    ensures { result ≡ key_counters_at (paper s) clipped.now h }
{
    let (most, best) = read_counters(s, h, clipped);
    if most.above(s.top) {
        return None;
    }
    Some(KeyCounters::of_rank(best))
}
