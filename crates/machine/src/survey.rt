// What a whole list asks for, before anything is written.
ghost use Rattle.std.specs.Prelude.{◌≡◌, ◌≤◌, length, IfErr};
ghost use Rattle.rules.specs.Sizes.{LINES};
ghost use Rattle.text.specs.Refused.{checked_of};
ghost use Rattle.machine.specs.Entries.{entries_of};
ghost use Rattle.machine.specs.Survey.{survey_of, lacking_of};

use crate::entries::{entry_at, loads_of, over, takes_of};
use rules::Refusal;
use text::refusal::RefusedAt;

// How many loads there are, and how many samples are taken.
#[derive(Clone, Copy)]
pub struct Asked {
    pub loads: usize,
    pub takes: usize,
}

// What the lines ask for, or the first line whose address is not below the size.
pub fn scan(table: &[u64], lines: usize, size: usize) -> Result<Asked, RefusedAt>
    requires { (lines ≤ length table.now) × (lines ≤ LINES) }
    ensures value { checked_of result ≡ survey_of size 0 0 0 (entries_of table.now 0 lines) }
    ensures within { IfErr result (λ e. e.line ≤ LINES) }
{
    let mut loads: usize = 0;
    let mut takes: usize = 0;
    for i in 0..lines {
        let x = entry_at(table, i);
        if over(x, size) {
            return Err(RefusedAt::new(Refusal::AddressTooHigh, i));
        }
        loads += loads_of(x);
        takes += takes_of(x);
    }
    Ok(Asked { loads, takes })
}

// The first line that takes a sample where so many samples are too few.
pub fn lacking(table: &[u64], lines: usize, samples: usize) -> usize
    requires { (lines ≤ length table.now) × (lines ≤ LINES) }
    ensures value { result ≡ lacking_of 0 samples (entries_of table.now 0 lines) }
    ensures within { result ≤ LINES }
{
    let mut left = samples;
    for i in 0..lines {
        let n = takes_of(entry_at(table, i));
        if left < n {
            return i;
        }
        left -= n;
    }
    lines
}
