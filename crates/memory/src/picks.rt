// One of two values by a test. A function of its own stays a conditional move, with no branch.
ghost use Rattle.std.specs.Prelude.{◌≡◌, cond};

pub fn pick<T: Copy>(test: bool, a: T, b: T) -> T
    ensures { result ≡ cond test a b }
{
    if test { a } else { b }
}
