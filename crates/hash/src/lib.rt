// The hash of document 01, 'Hash': a step of xorshift64, H of a key with a table and without, hash j, repeats, and a key's bucket numbers.
// The constants are in entries.rt, half_entries.rt and rows.rt, which bin/hash-constants writes.
#![tactic(auto)]

mod by_rows; // by_rows.rt: H of a key by the rows, and the tables by byte that are made of them
pub mod by_table; // by_table.rt: what a lent table gives for a key
mod entries;
mod half_entries;
pub mod made; // made.rt: the table of keys of a width
mod rows;

ghost use Rattle.std.specs.Prelude.{◌≡◌, true, ◌*◌, ◌^◌, ◌<◌, ◌≤◌, length};
ghost use Rattle.theory.specs.Lists.{has};
ghost use Rattle.theory.specs.Settings.{ipv4_width, ipv6_width, KeyWidth};
ghost use Rattle.theory.specs.Hash.{xorshift64, H as H_of, hash, hashes, numbers_of};
ghost use Rattle.hash.specs.Digits.{TableRight, table_length, table_entries};
ghost use Rattle.hash.specs.Table.{table_lengths, TableFor, lent_table, H_by};
ghost use Rattle.hash.specs.Numbering.{Holds};

use by_rows::{fill_by_byte, key_by_rows};
use by_table::{by_bytes, by_halves};
use settings::Settings;

// A step of xorshift64 (Marsaglia, 2003).
#[tactic(auto, unfolding(theory::specs::Hash::xorshift64))]
pub fn step(s: u64) -> u64
    ensures { result ≡ xorshift64 s }
{
    let a = s ^ (s << 13);
    let b = a ^ (a >> 7);
    b ^ (b << 17)
}

// "an entry for each of 13 byte positions and 256 byte values"
pub const TABLE_LENGTH: usize = 3328;

// An entry for each of 74 half-bytes and 16 values.
const HALF_TABLE_LENGTH: usize = 1184;

// The table of H for keys of 13 bytes.
pub fn table() -> &'static [u64; 3328]
    ensures { TableRight 8 ipv4_width result.now }
{
    &entries::TABLE
}

// The table of H for keys of 37 bytes, by half-byte. A function of its own, since the length of a static is part of its type, and callers lend either whole.
pub fn half_table() -> &'static [u64; 1184]
    ensures { TableRight 4 (2 * ipv6_width) result.now }
{
    &half_entries::HALF_TABLE
}

// A lent table of this length is allowed for keys of this width.
pub fn table_length_right(length: usize, width: usize) -> bool
    requires { KeyWidth width }
    ensures { result ≡ has length (table_lengths width) }
{
    if width == Settings::IPV4_WIDTH {
        return length == TABLE_LENGTH;
    }
    (length == width * 256) | (length == width * 32)
}

// By a range, an entry a turn: so an entry that is left out is refused for that entry.
fn fill_by_half(out: &mut [u64])
    requires { length out.old ≡ table_length 4 (2 * ipv6_width) }
    ensures { out.new ≡ table_entries 4 (2 * ipv6_width) }
{
    let table: &[u64] = half_table();
    for i in 0..out.len() {
        out[i] = table[i];
    }
}

// Writes the right table of a lent slice's length.
pub fn fill_table(width: usize, out: &mut [u64])
    requires width { KeyWidth width }
    requires size { has (length out.old) (table_lengths width) ≡ true }
    ensures { out.new ≡ lent_table width (length out.old) }
{
    if out.len() == HALF_TABLE_LENGTH {
        fill_by_half(out);
    } else {
        fill_by_byte(width, out);
    }
}

// The xor of a lent table's entries for a key, with one read a byte or two by the table's length; a right table gives H. The width of an IPv4 flow's key stands
// here as a constant, which the compiler knows, and whoever hashes is one piece with this: its own question for the width serves here too.
#[inline(always)]
pub fn h_with_table(table: &[u64], key: &[u8]) -> u64
    requires { has (length table.now) (table_lengths (length key.now)) ≡ true }
    ensures entries { result ≡ H_by table.now key.now }
    ensures right { TableFor (length key.now) table.now → result ≡ H_of key.now }
{
    if key.len() == Settings::IPV4_WIDTH {
        by_bytes(table, &key[..Settings::IPV4_WIDTH])
    } else if table.len() == key.len() * 256 {
        by_bytes(table, key)
    } else {
        by_halves(table, key)
    }
}

// H of a key for a caller with no table.
pub fn h_rows(key: &[u8]) -> u64
    requires { KeyWidth (length key.now) }
    ensures { result ≡ H_of key.now }
{
    key_by_rows(key)
}

// Hash j of a key whose H is h, for 2^p buckets.
pub fn hash_at(h: u64, j: usize, p: usize) -> u16
    requires few { j < 4 }
    requires power { p ≤ 12 }
    ensures { result ≡ hash (2 ^ p) h j }
{
    ((h >> (16 * j)) % (1 << p)) as u16
}

// b is one of the first j hashes of a key whose H is h, for m buckets. No early exit.
pub fn repeats(h: u64, j: usize, m: u64, b: u64) -> bool
    requires { 0 < m }
    ensures { result ≡ has b (hashes m h 0 j) }
{
    // H from hash i on
    let mut rest = h;
    let mut seen = false;
    for _ in 0..j {
        seen = seen | (b == rest % m);
        rest /= 65536;
    }
    seen
}

// A key's bucket numbers: the first `count` of `at`. A count beside an array, since what grows in fixed memory is not std's but of another crate of the kit
// (`arrayvec`), and beyond std nothing is to be trusted.
#[derive(Clone, Copy)]
pub struct Numbers {
    pub at: [u16; 4],
    pub count: usize,
}

// The bucket numbers of a key whose H is h: its first k hashes, repeats dropped. Both ways to H share it.
pub fn numbers_of(h: u64, p: usize, k: usize) -> Numbers
    requires power { p ≤ 12 }
    requires few { k ≤ 4 }
    ensures { Holds result (numbers_of (2 ^ p) k h) }
{
    let mut at = [0u16; 4];
    let mut count: usize = 0;
    for j in 0..k {
        let x = hash_at(h, j, p);
        if !at[..count].contains(&x) {
            at[count] = x;
            count += 1;
        }
    }
    Numbers { at, count }
}
