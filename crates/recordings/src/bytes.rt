// One byte of a recording.
ghost use Rattle.std.specs.Prelude.{◌≡◌, ◌<◌};
ghost use Rattle.rules.specs.Recordings.{read_byte, kept_at, kept_by};
ghost use Rattle.recordings.specs.Reading.{seen, digits_with};

use crate::states::{LINES, Reader};
use text::digits::digit_value;

// The number that a line's digits make with c in the column, if c may stand there: `30`, four digits. LF ends the line, and isn't asked about.
#[tactic(auto, unfolding(rules::specs::Recordings::fits_at))]
fn digits_with(column: u64, value: u64, c: u8) -> Option<u64>
    requires { value < 65536 }
    ensures { result ≡ digits_with column value c }
{
    match column {
        0 if c == b'3' => Some(0),
        1 if c == b'0' => Some(0),
        2..=5 => Some(value * 16 + digit_value(c)?),
        _ => None,
    }
}

// A line's sample into lent memory, two bytes, high first, where there is room for it.
#[tactic(auto, unfolding(rules::specs::Recordings::kept_at))]
pub fn keep(samples: &mut [u8], line: u64, value: u16)
    ensures { samples.new ≡ kept_at samples.old line value }
{
    let room = (samples.len() / 2) as u64;
    if line < room {
        let i = line as usize;
        let [high, low] = value.to_be_bytes();
        samples[2 * i] = high;
        samples[2 * i + 1] = low;
    }
}

pub fn read_byte(r: Reader, samples: &mut [u8], c: u8) -> Reader
    ensures next { seen result ≡ read_byte (seen r) c }
    ensures left { samples.new ≡ kept_by (seen r) c samples.old }
{
    let line = r.line;
    if line < LINES {
        if r.column == 6 && c == b'\n' {
            keep(samples, line, r.value as u16);
            return Reader {
                line: line + 1,
                column: 0,
                value: 0,
            };
        }
        if let Some(value) = digits_with(r.column, r.value, c) {
            return Reader {
                line,
                column: r.column + 1,
                value,
            };
        }
    }
    Reader {
        line,
        column: 7,
        value: 0,
    }
}
