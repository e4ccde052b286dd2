// A part of lent memory: copied, judged.
ghost use Rattle.std.specs.Prelude.{◌≡◌, not, eqb, length};
ghost use Rattle.theory.specs.Lists.{any};

// One byte a turn: std's `copy_from_slice` allows for parts that overlap, by a call of memmove, which firmware may not have.
pub fn copy(to: &mut [u8], from: &[u8])
    requires { length to.old ≡ length from.now }
    ensures { to.new ≡ from.now }
{
    for i in 0..from.len() {
        to[i] = from[i];
    }
}

// The same of counts.
pub fn copy_counts(to: &mut [u16], counts: &[u16])
    requires { length to.old ≡ length counts.now }
    ensures { to.new ≡ counts.now }
{
    for i in 0..counts.len() {
        to[i] = counts[i];
    }
}

// No early end, so that the compiler takes sixteen bytes at a time.
pub fn all_zero(part: &[u8]) -> bool
    ensures { result ≡ not (any (λ x. not (eqb x 0)) part.now) }
{
    let mut dirty = false;
    for &x in part {
        dirty |= x != 0;
    }
    !dirty
}
