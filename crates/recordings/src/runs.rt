// Whole lines, one after the other.
ghost use Rattle.std.specs.Prelude.{◌+◌, ◌≤◌, length};
ghost use Rattle.rules.specs.Recordings.{reader};
ghost use Rattle.recordings.specs.Reading.{seen, LinesRead};

use crate::bytes::keep;
use crate::lines::sample_at;
use crate::states::{LINES, Reader};

// Up to which line they are read; their samples are kept.
fn keep_lines(first: u64, samples: &mut [u8], part: &[u8], from: usize) -> u64
    requires from_in_bounds { from ≤ length part.now }
    requires part_bound { first + length part.now ≤ 4294967295 + from }
    ensures { LinesRead part.now from (reader first 0 0) samples.old result samples.new }
{
    let lines = (part.len() - from) / 7;
    for i in 0..lines {
        let line = first + (i as u64);
        let Some(v) = sample_at(part, from + 7 * i) else {
            return line;
        };
        keep(samples, line, v);
    }
    first + (lines as u64)
}

// Up to which line whole lines are read from p on: none where a line is begun already, or where lines may run out.
pub fn whole_lines(r: Reader, samples: &mut [u8], part: &[u8], p: usize) -> u64
    requires { p ≤ length part.now }
    ensures { LinesRead part.now p (seen r) samples.old result samples.new }
{
    let rest = (part.len() - p) as u64;
    if r.column == 0 && rest <= LINES - r.line {
        return keep_lines(r.line, samples, part, p);
    }
    r.line
}
