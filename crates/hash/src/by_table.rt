// What a lent table gives for a key, with one read a byte or two.
ghost use Rattle.std.specs.Prelude.{◌≡◌, ◌*◌, ◌≤◌, length};
ghost use Rattle.theory.specs.Hash.{H as H_of};
ghost use Rattle.hash.specs.Digits.{TableRight, table_length};
ghost use Rattle.hash.specs.Table.{halves, H_by_from};

// One read a byte; a right table gives H.
pub fn by_bytes(table: &[u64], key: &[u8]) -> u64
    requires { table_length 8 (length key.now) ≤ length table.now }
    ensures entries { result ≡ H_by_from 8 table.now 0 key.now }
    ensures right { TableRight 8 (length key.now) table.now → result ≡ H_of key.now }
{
    let mut h: u64 = 0;
    for (i, &v) in key.iter().enumerate() {
        h ^= table[i * 256 + usize::from(v)];
    }
    h
}

// Two reads a byte, of its low half and of its high half. A loop of its own: one over digits of 4 or of 8 bits would ask which at each read.
pub fn by_halves(table: &[u64], key: &[u8]) -> u64
    requires { table_length 4 (2 * length key.now) ≤ length table.now }
    ensures { result ≡ H_by_from 4 table.now 0 (halves key.now) }
{
    let mut h: u64 = 0;
    for (i, &byte) in key.iter().enumerate() {
        let v = usize::from(byte);
        h = h ^ table[i * 32 + v % 16] ^ table[i * 32 + 16 + v / 16];
    }
    h
}
