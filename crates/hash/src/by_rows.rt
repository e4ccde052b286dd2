// H by the rows.
ghost use Rattle.std.specs.Prelude.{◌≡◌, map, ◌*◌, ◌%◌, ◌≤◌, length};
ghost use Rattle.theory.specs.Lists.{upto};
ghost use Rattle.theory.specs.Settings.{ipv6_width};
ghost use Rattle.theory.specs.Hash.{row, if_set, H as H_of};
ghost use Rattle.hash.specs.Digits.{table_length, table_entries};
ghost use Rattle.hash.specs.Table.{xor_set};

use super::rows::ROWS;

// The rows of the longest key.
fn rows() -> &'static [u64; 296]
    ensures { result.now ≡ map row (upto 0 (8 * ipv6_width)) }
{
    &ROWS
}

// A row if the lowest bit is set, else 0: a product, since the compiler makes a branch of an `if` here.
fn if_set(bits: u8, row: u64) -> u64
    ensures { result ≡ if_set (bits % 2) row }
{
    row * u64::from(bits % 2)
}

// The xor of those rows whose bits are set in v; the first row belongs to bit 0.
fn xor_set(rows: &[u64], v: u8) -> u64
    ensures { result ≡ xor_set rows.now v }
{
    let mut h: u64 = 0;
    let mut bits = v;
    for &row in rows {
        h ^= if_set(bits, row);
        bits /= 2;
    }
    h
}

// H of a key that is no longer than the rows reach.
pub fn key_by_rows(key: &[u8]) -> u64
    requires { length key.now ≤ ipv6_width }
    ensures { result ≡ H_of key.now }
{
    let rows = rows();
    let mut h: u64 = 0;
    for (i, &v) in key.iter().enumerate() {
        h ^= xor_set(&rows[8 * i..8 * i + 8], v);
    }
    h
}

// Writes the table by byte for keys of some width.
pub fn fill_by_byte(width: usize, out: &mut [u64])
    requires width { width ≤ ipv6_width }
    requires size { length out.old ≡ table_length 8 width }
    ensures { out.new ≡ table_entries 8 width }
{
    let rows = rows();
    for (i, entry) in out.iter_mut().enumerate() {
        let first = 8 * (i / 256);
        *entry = xor_set(&rows[first..first + 8], (i % 256) as u8);
    }
}
