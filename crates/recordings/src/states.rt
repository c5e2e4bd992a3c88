// A reader of recordings, and the number that stands for it between two parts.
ghost use Rattle.std.specs.Prelude.{◌≡◌, true};
ghost use Rattle.rules.specs.Recordings.{limit, reader, reader_of, is_reader};

// As many lines may be read; counted from 0, the line of that number is malformed.
pub const LINES: u64 = 4294967295;

// The line that is read, how many of its bytes were read, and the number that its digits make so far. Column 7: the line is malformed.
// Some bytes leave it.
#[derive(Clone, Copy)]
pub struct Reader {
    pub line: u64,
    pub column: u64,
    pub value: u64,
    ghost left_by_bytes: { is_reader (reader line column value) ≡ true },
}

// The three numbers of a state, whether or not some bytes leave them.
#[derive(Clone, Copy)]
pub struct Parts {
    pub line: u64,
    pub column: u64,
    pub value: u64,
}

// The parts that a number stands for.
pub fn opened(state: u64) -> Parts
    ensures { reader result.line result.column result.value ≡ reader_of state }
{
    Parts {
        line: state % 0x1_0000_0000,
        column: state / 0x1_0000_0000_0000,
        value: state / 0x1_0000_0000 % 0x1_0000,
    }
}

// The digits so far make a number below it; 0 for a column that there isn't.
#[tactic(auto, unfolding(rules::specs::Recordings::limit))]
fn limit_of(column: u64) -> u64
    ensures { result ≡ limit column }
{
    match column {
        0..=2 | 7 => 1,
        3..=6 => 1 << (4 * column - 8),
        _ => 0,
    }
}

// Whether some bytes leave them.
#[tactic(auto, unfolding(rules::specs::Recordings::is_reader))]
pub fn is_reader(p: Parts) -> bool
    ensures { result ≡ is_reader (reader p.line p.column p.value) }
{
    p.value < limit_of(p.column)
        && (p.line < LINES || p.line == LINES && (p.column == 0 || p.column == 7))
}

impl Reader {
    ghost use Rattle.std.specs.Prelude.{◌≡◌, false, MatchOption};
    ghost use Rattle.rules.specs.Recordings.{reader_of, state_of, is_state};
    ghost use Rattle.recordings.specs.Reading.{seen};

    // The reader that a number stands for, if it is one.
    pub fn of_state(state: u64) -> Option<Reader>
        ensures { MatchOption result (is_state state ≡ false) (λ r. seen r ≡ reader_of state) }
    {
        let parts = opened(state);
        if !is_reader(parts) {
            return None;
        }
        Some(Reader {
            line: parts.line,
            column: parts.column,
            value: parts.value,
        })
    }

    // The number that stands for it.
    pub fn closed(self) -> u64
        ensures { result ≡ state_of (seen self) }
    {
        self.column * 0x1_0000_0000_0000 + self.value * 0x1_0000_0000 + self.line
    }
}
