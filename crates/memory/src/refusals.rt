// What a call is refused for. Each refusal has the number that document 01, 'Who brings on a refusal', gives it; 15 and 16 are of later requests.
ghost use Rattle.std.specs.Prelude.{◌≡◌};
ghost use Rattle.memory.specs.Refusals.{number_of, answer_of};

#[derive(Clone, Copy, PartialEq, Eq)]
pub enum Refusal {
    // "a setting out of range"
    SettingOutOfRange,
    // "the length of an area that the call is lent"
    WrongAreaLength,
    // "a key, or a buffer for a packet's key", not of the card's width
    WrongKeyLength,
    // "ledger count above N, keys not rising, or a nonzero byte after the last record"
    InvalidLedger,
    // "a clipped count above T, a mark above B other than 255, a side count above S"
    InvalidLookup,
    // "add of a held key"
    AlreadyHeld,
    // "change or remove of one not held"
    NotHeld,
    // "add with N held"
    LedgerFull,
    // "side need exceeds S"
    SideStoreFull,
    // "under 20 bytes, version not 4, header length under 20 or beyond the packet"
    WrongHeader,
    // "under 4 bytes after the header", where there are ports
    PortsCut,
    // "a cut or overlong file, a first count not 6, or a target buffer of wrong length"
    WrongFile,
    // "keys not rising", of a file
    KeysNotRising,
    // "Another letter, or 1 to 17 bytes left over"
    UnknownCall,
    // a load that the bench does not make
    WrongLoad,
    // "under 40 bytes or version not 6"
    WrongIpv6Header,
}

impl Refusal {
    pub fn number(self) -> u32
        ensures { result ≡ number_of self }
    {
        match self {
            Refusal::SettingOutOfRange => 1,
            Refusal::WrongAreaLength => 2,
            Refusal::WrongKeyLength => 3,
            Refusal::InvalidLedger => 4,
            Refusal::InvalidLookup => 5,
            Refusal::AlreadyHeld => 6,
            Refusal::NotHeld => 7,
            Refusal::LedgerFull => 8,
            Refusal::SideStoreFull => 9,
            Refusal::WrongHeader => 10,
            Refusal::PortsCut => 11,
            Refusal::WrongFile => 12,
            Refusal::KeysNotRising => 13,
            Refusal::UnknownCall => 14,
            Refusal::WrongLoad => 15,
            Refusal::WrongIpv6Header => 16,
        }
    }
}

// "An accepted call answers 0", a refused one its refusal's number.
pub fn answer_number(answer: Result<(), Refusal>) -> u32
    ensures { result ≡ answer_of answer }
{
    match answer {
        Ok(()) => 0,
        Err(refusal) => refusal.number(),
    }
}
