// "a record .. the key, then the class, high byte first": written, its class read, and the part of record i of an area.
ghost use Rattle.std.specs.Prelude.{◌≡◌, ◌+◌, ◌*◌, ◌≤◌, length, take, drop};
ghost use Rattle.theory.specs.Records.{class_width, to_bytes, of_bytes, record_bytes};

use super::numbers::bytes_at;

// Record i of an area of records of a size.
pub fn record_at(area: &[u8], i: usize, size: usize) -> &[u8]
    requires { i * size + size ≤ length area.now }
    ensures { result.now ≡ take size (drop (i * size) area.now) }
{
    let start = i * size;
    let end = start + size;
    &area[start..end]
}

// The key that it starts with, of a width.
pub fn key_at(area: &[u8], i: usize, size: usize, width: usize) -> &[u8]
    requires { i * size + width ≤ length area.now }
    ensures { result.now ≡ take width (drop (i * size) area.now) }
{
    let start = i * size;
    let end = start + width;
    &area[start..end]
}

// The class in the four bytes from a place on.
pub fn class_at(area: &[u8], at: usize) -> u32
    requires { at + class_width ≤ length area.now }
    ensures { result ≡ of_bytes (take class_width (drop at area.now)) }
{
    u32::from_be_bytes(bytes_at(area, at))
}

// A class in the four bytes of a part.
pub fn write_class(to: &mut [u8], class: u32)
    requires { length to.old ≡ class_width }
    ensures { to.new ≡ to_bytes class_width class }
{
    to.copy_from_slice(&class.to_be_bytes());
}

pub fn write_record(to: &mut [u8], key: &[u8], class: u32)
    requires { length to.old ≡ length key.now + class_width }
    ensures { to.new ≡ record_bytes (record { key = key.entry.now; class = class }) }
{
    let width = key.len();
    to[..width].copy_from_slice(key);
    write_class(&mut to[width..], class);
}
