// The areas that a call is lent: the five of a table, which it may write, or the three lookup areas, which a search reads; and whether each has its length.
ghost use Rattle.std.specs.Prelude.{◌≡◌, true};
ghost use Rattle.theory.specs.Lists.{all};
ghost use Rattle.theory.specs.Settings.{allowed};
ghost use Rattle.theory.specs.Calls.{lookup_lengths, all_lengths};
ghost use Rattle.settings.specs.Checked.{paper, card};
ghost use Rattle.settings.specs.Areas.{contents, lookup_contents, lookup_part};

use super::Settings;

// The five of a table. That a call hands back the slices that it was lent, as long as they were, is its clause (`SameSlices`): no type says it of a `&mut`.
#[derive(Drop)]
pub struct Areas<'a> {
    pub ledger: &'a mut [u8],
    pub true_counts: &'a mut [u16],
    pub clipped: &'a mut [u8],
    pub buckets: &'a mut [u8],
    pub side: &'a mut [u8],
}

#[derive(Clone, Copy)]
pub struct LookupAreas<'a> {
    pub clipped: &'a [u8],
    pub buckets: &'a [u8],
    pub side: &'a [u8],
}

impl LookupAreas<'_> {
    // Each is as the settings say.
    pub fn have_lengths(self, s: Settings) -> bool
        requires { allowed (paper s) ≡ true }
        ensures { result ≡ all (λ x. x) (lookup_lengths (card s) (lookup_contents self.entry)) }
    {
        let clipped_right = self.clipped.len() == s.clipped_length();
        let buckets_right = self.buckets.len() == s.buckets_length();
        let side_right = self.side.len() == s.side_length();
        clipped_right & (buckets_right & side_right)
    }
}

impl Areas<'_> {
    // The three that a search reads.
    pub fn lookup(&self) -> LookupAreas<'_>
        ensures { lookup_contents result ≡ lookup_part (contents self.now) }
    {
        LookupAreas {
            clipped: &self.clipped[..],
            buckets: &self.buckets[..],
            side: &self.side[..],
        }
    }

    // Each is as the settings say.
    pub fn have_lengths(&self, s: Settings) -> bool
        requires { allowed (paper s) ≡ true }
        ensures { result ≡ all (λ x. x) (all_lengths (card s) (contents self.now)) }
    {
        let ledger_right = self.ledger.len() == s.ledger_length();
        let true_right = self.true_counts.len() == s.true_length();
        ledger_right & (true_right & self.lookup().have_lengths(s))
    }
}
