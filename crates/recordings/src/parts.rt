// The bytes of a part of a recording.
ghost use Rattle.std.specs.Prelude.{◌≡◌, ◌<◌, length};
ghost use Rattle.rules.specs.Recordings.{fed, kept};
ghost use Rattle.recordings.specs.Reading.{seen, Turned};

use crate::bytes::read_byte;
use crate::runs::whole_lines;
use crate::states::Reader;

// What is known after some bytes, and where the next one stands.
#[derive(Clone, Copy)]
struct Turn {
    reader: Reader,
    next: usize,
}

// From p on: whole lines where one lies there, else a byte. After a malformed line nothing is looked at any more.
fn advance(r: Reader, samples: &mut [u8], part: &[u8], p: usize) -> Turn
    requires { p < length part.now }
    ensures { Turned part.now p (seen r) samples.old (seen result.reader) result.next samples.new }
{
    let line = whole_lines(r, samples, part, p);
    let count = line - r.line;
    if 0 < count {
        return Turn {
            reader: Reader {
                line,
                column: r.column,
                value: r.value,
            },
            next: p + 7 * (count as usize),
        };
    }
    if r.column == 7 {
        return Turn {
            reader: r,
            next: part.len(),
        };
    }
    Turn {
        reader: read_byte(r, samples, part[p]),
        next: p + 1,
    }
}

pub fn read_part(reader: Reader, samples: &mut [u8], part: &[u8]) -> Reader
    ensures next { seen result ≡ fed (seen reader) part.now }
    ensures left { samples.new ≡ kept (seen reader) part.now samples.old }
{
    let mut r = reader;
    let mut p: usize = 0;
    // a turn goes on by a byte or by many lines, so no `for`
    while p < part.len() {
        let t = advance(r, samples, part, p);
        r = t.reader;
        p = t.next;
    }
    r
}
