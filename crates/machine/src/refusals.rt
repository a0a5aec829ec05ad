// Why a call, a record or a log record is refused, each with document 01's word and number.
ghost use Rattle.std.specs.Prelude.{◌≡◌};
ghost use Rattle.machine.specs.Refusals.{number_of};

// The reasons, in the order of their numbers.
#[derive(Clone, Copy, PartialEq, Eq)]
pub enum Refusal {
    // too long: a program or a log over its limit
    TooLong = 1,
    // no bench: what is lent for writing is too short
    NoRoom = 2,
    // strange
    UnknownKind = 3,
    // cut short
    CutShort = 4,
    // field
    FieldRange = 5,
    // already in
    AlreadyIn = 6,
    // not in
    NotIn = 7,
    // elsewhere
    WrongSlot = 8,
    // float
    FloatTooLong = 9,
    // not opposite
    NotOpposite = 10,
    // hook full
    HookFull = 11,
    // no pair
    NoPair = 12,
    // tied
    Tied = 13,
    // torn log
    TornLog = 14,
    // foul state; a hook limit out of range
    BadState = 15,
    // one yarn twice
    YarnTwice = 16,
    // stretched: a rack that carries a yarn's attachment too far off
    Stretched = 17,
}

impl Refusal {
    // Document 01's number; 0 is no refusal's.
    pub fn number(self) -> u8
        ensures { result ≡ number_of self }
    {
        self as u8
    }
}
