// The three edits as one: where each goes, what it leaves out and brings, and a call of one with its record.
ghost use Rattle.std.specs.Prelude.{◌≡◌, IfOk};
ghost use Rattle.memory.specs.Refusals.{answer_of};
ghost use Rattle.settings.specs.Checked.{paper};
ghost use Rattle.update.specs.Editing.{brings, leaves_out, by_list, is_held, place_in};

use memory::refusals::Refusal;
use settings::Settings;

// Add, change or remove.
#[derive(Clone, Copy)]
pub enum Edit {
    Insert,
    Replace,
    Remove,
}

impl Edit {
    // How many records of the list it leaves out, and how many it brings.
    pub fn counts(self) -> (usize, usize)
        ensures left_out { result.0 ≡ leaves_out self }
        ensures brought { result.1 ≡ brings self }
    {
        match self {
            Edit::Insert => (0, 1),
            Edit::Replace => (1, 1),
            Edit::Remove => (1, 0),
        }
    }

    // Its place in a list of so many records, where the key stands (Ok) or belongs (Err): 6 and 8 of an add, 7 of a change or a removal.
    pub fn place(
        self,
        s: Settings,
        spot: Result<usize, usize>,
        count: usize,
    ) -> Result<usize, Refusal>
        ensures number { answer_of result ≡ by_list (paper s) self (is_held spot) count }
        ensures place { IfOk result (λ at. at ≡ place_in spot) }
    {
        match (self, spot) {
            (Edit::Insert, Ok(_)) => Err(Refusal::AlreadyHeld),
            (Edit::Insert, Err(_)) if s.capacity <= count => Err(Refusal::LedgerFull),
            (Edit::Insert, Err(at)) => Ok(at),
            (_, Ok(at)) => Ok(at),
            (_, Err(_)) => Err(Refusal::NotHeld),
        }
    }
}

// A call of an edit, with the bytes of its record.
#[derive(Clone, Copy)]
pub struct EditCall<'a> {
    pub edit: Edit,
    pub key: &'a [u8],
    pub class: u32,
    pub record: &'a [u8],
}
