// A refusal with the line at which it is given, and as an answer of one number.
ghost use Rattle.std.specs.Prelude.{◌≡◌, ◌^◌, ◌<◌, ◌≤◌};
ghost use Rattle.rules.specs.Entries.{refusal_answer};
ghost use Rattle.text.specs.Refused.{answer_of};

use rules::Refusal;
use std::fmt;

// An answer from here on is a refusal.
pub const REFUSAL: u64 = 4294967296;

#[derive(Clone, Copy, Debug, PartialEq, Eq)]
pub struct RefusedAt {
    pub refusal: Refusal,
    pub line: u32,
}

impl RefusedAt {
    pub fn new(refusal: Refusal, line: usize) -> RefusedAt
        requires { line < 2 ^ 32 }
        ensures { result ≡ record { refusal = refusal; line = line } }
    {
        RefusedAt {
            refusal,
            line: line as u32,
        }
    }
}

// The number of a refusal in the high 32 bits, its line in the low 32.
impl From<RefusedAt> for u64 {
    ghost from_gives = { λ e n. n ≡ answer_of e };

    fn from(e: RefusedAt) -> u64 {
        u64::from(e.refusal.number()) * REFUSAL + u64::from(e.line)
    }
}

impl fmt::Display for RefusedAt {
    fn fmt<W: fmt::Write>(&self, f: &mut fmt::Formatter<W>) -> fmt::Result {
        write!(f, "{} at line {}", self.refusal, self.line)
    }
}

impl std::error::Error for RefusedAt {}

// The same of a number that is told.
pub fn refuse(number: u8, line: usize) -> u64
    requires { line ≤ 2 ^ 63 }
    ensures { result ≡ refusal_answer number line }
{
    u64::from(number) * REFUSAL + (line as u64)
}
