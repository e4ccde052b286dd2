// An entry of the window: what is kept of an accepted search.
ghost use Rattle.std.specs.Prelude.{◌≤◌};
ghost use Rattle.theory.specs.Window.{most_compared};

// Two flags that are what an entry is, and no value beside one of them.
#[derive(Clone, Copy)]
pub struct Entry {
    pub held: bool,
    pub side_compared: bool,
    // 32 bits wide, as sums with it are: the processor takes longer over sums of 16 bits.
    pub records_compared: u32,
    // No search compares more than 64 records.
    ghost few: { records_compared ≤ most_compared },
}

impl Entry {
    ghost use Rattle.std.specs.Prelude.{◌≡◌, length};
    ghost use Rattle.theory.specs.Window as plain;
    ghost use Rattle.window.specs.Windows.{entry_in};

    // The entry of a search, of which a door gave the driver's number and three counts.
    pub fn of_search(found: u64, counts: &[u32]) -> Entry
        requires { length counts.now ≡ 3 }
        ensures { entry_in result ≡ plain.entry_of (plain.told_answer found counts.now) }
    {
        Entry {
            held: found / 4294967296 == 0,
            side_compared: counts[2] != 0,
            records_compared: counts[1].min(64),
        }
    }
}

// A word of the ring as an entry, and an entry as such a word.
impl From<u16> for Entry {
    ghost use Rattle.std.specs.Prelude.{◌≡◌};
    ghost use Rattle.theory.specs.Window.{word_entry};
    ghost use Rattle.window.specs.Windows.{entry_in};

    ghost from_gives = { λ word e. entry_in e ≡ word_entry word };

    fn from(word: u16) -> Entry {
        Entry {
            held: word % 2 == 1,
            side_compared: word / 2 % 2 == 1,
            records_compared: (u32::from(word) / 4).min(64),
        }
    }
}

impl From<Entry> for u16 {
    ghost use Rattle.std.specs.Prelude.{◌≡◌};
    ghost use Rattle.theory.specs.Window.{entry_word};
    ghost use Rattle.window.specs.Windows.{entry_in};

    ghost from_gives = { λ e word. word ≡ entry_word (entry_in e) };

    fn from(e: Entry) -> u16 {
        (u32::from(e.held) + 2 * u32::from(e.side_compared) + 4 * e.records_compared) as u16
    }
}
