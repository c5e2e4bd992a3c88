// The refusals of document 01, "Numbers given back": each has the number of that table.
ghost use Rattle.std.specs.Prelude.{◌≡◌};
ghost use Rattle.rules.specs.Refusals.{number_of};

use std::fmt;

#[derive(Clone, Copy, Debug, PartialEq, Eq)]
pub enum Refusal {
    Malformed = 1,
    LineTooMany = 2,
    NoTop = 3,
    NotLive = 4,
    DangledOrRoot = 5, // for restore: not dangled, or root
    HasChild = 6,
    NoSlot = 7,
    ScopesFull = 8,
    BindingsFull = 9,
    NameMissing = 10,
    NameMoved = 11,
    NotOwned = 12,
    HandleUnknown = 13,
    NotHeld = 14,
    NeverWritten = 15,
    HandlesFull = 16,
    MemoryTooShort = 17,
    NoAddress = 18,
    NotInitialised = 19,
    AddressTooHigh = 20,
    NeedUnknown = 21,
    NeedsFull = 22,
    SamplesTooFew = 23,
    RecordingMalformed = 24,
    NotSound = 29,
}

impl Refusal {
    // Its number in the table.
    pub fn number(self) -> u8
        ensures { result ≡ number_of self }
    {
        self as u8
    }
}

impl fmt::Display for Refusal {
    fn fmt<W: fmt::Write>(&self, f: &mut fmt::Formatter<W>) -> fmt::Result {
        write!(f, "refused by {}", self.number())
    }
}

impl std::error::Error for Refusal {}
