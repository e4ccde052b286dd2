// Numbers in bytes: counts and eight-byte numbers high byte first, as the papers have them; words low byte first, as the processor loads them.
ghost use Rattle.std.specs.Prelude.{◌≡◌, ◌++◌, ◌+◌, ◌<◌, ◌≤◌, length, take, drop};
ghost use Rattle.theory.specs.Records.{to_bytes, of_bytes, count_of};
ghost use Rattle.memory.specs.Words.{low_first};

// The N bytes from a place on.
pub fn bytes_at<const N: usize>(area: &[u8], at: usize) -> [u8; N]
    requires { at + N ≤ length area.now }
    ensures { result ≡ take N (drop at area.now) }
{
    area[at..at + N].try_into().unwrap()
}

// The two-byte count that an area starts with.
pub fn count_at(area: &[u8]) -> usize
    requires { 2 ≤ length area.now }
    ensures { (result ≡ count_of area.now) × (result < 65536) }
{
    usize::from(u16::from_be_bytes(bytes_at(area, 0)))
}

// A number in the two bytes that an area starts with.
pub fn write_number(area: &mut [u8], n: usize)
    requires { (2 ≤ length area.old) × (n < 65536) }
    ensures { area.new ≡ to_bytes 2 n ++ drop 2 area.old }
{
    area[..2].copy_from_slice(&(n as u16).to_be_bytes());
}

// The number in the eight bytes from a place on, low byte first: one load on the processors at hand.
pub fn low_word_at(area: &[u8], at: usize) -> u64
    requires { at + 8 ≤ length area.now }
    ensures { result ≡ low_first (take 8 (drop at area.now)) }
{
    u64::from_le_bytes(bytes_at(area, at))
}

// The number in the eight bytes from a place on, high byte first.
pub fn eight_at(area: &[u8], at: usize) -> u64
    requires { at + 8 ≤ length area.now }
    ensures { result ≡ of_bytes (take 8 (drop at area.now)) }
{
    u64::from_be_bytes(bytes_at(area, at))
}

// A number in the eight bytes of a part, high byte first.
pub fn write_eight(to: &mut [u8], n: u64)
    requires { length to.old ≡ 8 }
    ensures { to.new ≡ to_bytes 8 n }
{
    to.copy_from_slice(&n.to_be_bytes());
}
