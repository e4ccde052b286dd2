// Fields of a line of text, one after another in lent bytes.
#![tactic(auto)]

ghost use Rattle.std.specs.Prelude.{◌≡◌, [], ◌∷◌, ◌++◌, ◌+◌, ◌≤◌, length};
ghost use Rattle.theory.specs.Flowrun.{decimal};
ghost use Rattle.text.specs.Writing.{Grows};

// Text at the start of lent bytes, and where it ends. std's `write!` into lent bytes can fail, and these can not.
#[derive(Drop)]
pub struct Text<'a> {
    pub bytes: &'a mut [u8],
    pub end: usize,
}

impl Text<'_> {
    // So many bytes more.
    fn push(&mut self, more: &[u8])
        requires { self.old.end + length more.now ≤ length self.old.bytes.now }
        ensures { Grows more.now self.old self.new }
    {
        let at = self.end;
        let end = at + more.len();
        self.bytes[at..end].copy_from_slice(more);
        self.end = end;
    }

    // A number in decimal, and the byte after it.
    pub fn push_decimal(&mut self, n: u64, after: u8)
        requires { self.old.end + 21 ≤ length self.old.bytes.now }
        ensures grows { Grows (decimal n ++ (after ∷ [])) self.old self.new }
        ensures few { self.new.end ≤ self.old.end + 21 }
    {
        let mut digits = [0u8; 20];
        let k = io::decimal(n, &mut digits);
        self.push(&digits[..k]);
        self.push(&[after]);
    }

    // A letter, and the byte after it.
    pub fn push_letter(&mut self, letter: u8, after: u8)
        requires { self.old.end + 2 ≤ length self.old.bytes.now }
        ensures grows { Grows (letter ∷ after ∷ []) self.old self.new }
        ensures few { self.new.end ≤ self.old.end + 2 }
    {
        self.push(&[letter, after]);
    }
}
