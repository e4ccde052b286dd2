// "Keys are ordered byte by byte from the first, unsigned."
ghost use Rattle.std.specs.Prelude.{◌≡◌, ◌+◌, ◌*◌, ◌≤◌, length, take, drop};
ghost use Rattle.theory.specs.Records.{class_width, records, same_key, key_below, rising};

use memory::numbers::low_word_at;
use memory::records::key_at;
use settings::Settings;

// The eight bytes of each from a place on.
fn same_word(a: &[u8], b: &[u8], at: usize) -> bool
    requires in_a { at + 8 ≤ length a.now }
    requires in_b { at + 8 ≤ length b.now }
    ensures { result ≡ same_key (take 8 (drop at a.now)) (take 8 (drop at b.now)) }
{
    low_word_at(a, at) == low_word_at(b, at)
}

// Eight bytes or more, as words from the first byte on and one that ends at the last byte, which may overlap the one before it. No branch on what is equal.
pub fn same_words(a: &[u8], b: &[u8]) -> bool
    requires same_length { length a.now ≡ length b.now }
    requires word { 8 ≤ length a.now }
    ensures { result ≡ same_key a.now b.now }
{
    let mut same = same_word(a, b, a.len() - 8);
    for i in 0..a.len() / 8 {
        same = same_word(a, b, 8 * i) & same;
    }
    same
}

pub fn same_key(a: &[u8], b: &[u8]) -> bool
    requires { length a.now ≡ length b.now }
    ensures { result ≡ same_key a.now b.now }
{
    if a.len() < 8 {
        return a == b;
    }
    same_words(a, b)
}

// A loop of its own: std's order of two slices takes half as many instructions again for each equal byte.
pub fn below_key(a: &[u8], b: &[u8]) -> bool
    requires { length a.now ≡ length b.now }
    ensures { result ≡ key_below a.now b.now }
{
    for i in 0..a.len() {
        if a[i] != b[i] {
            return a[i] < b[i];
        }
    }
    false
}

// The keys of n records rise. A count beside the places: it stands in the lent area before them, and may be less than there is room for.
pub fn keys_rise(places: &[u8], n: usize, width: usize) -> bool
    requires { n * (width + class_width) ≤ length places.now }
    ensures { result ≡ rising (records width n places.now) }
{
    for i in 1..n {
        let size = width + Settings::CLASS_WIDTH;
        let key = key_at(places, i - 1, size, width);
        let next = key_at(places, i, size, width);
        if !below_key(key, next) {
            return false;
        }
    }
    true
}
