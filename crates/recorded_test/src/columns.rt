// Line 1 of three lines, with each byte in each column: how many are refused by 24 at that line, and how many are read.
ghost use Rattle.std.specs.Prelude.{◌≤◌};

use crate::bytes::show_count;
use crate::cuts::read_bytes;
use crate::tally::{Outcome, Tally, show_tally};
use cases::put;
use machine::recorded::run_recorded;
use recordings::read_recording;
use std::io;

// 24 at line 1, as `run_recorded` answers it.
const MALFORMED: u64 = 24 * 4294967296 + 1;

// What a list without 14 comes to beside the recording: refused so, or accepted with all three samples left over. In one part and byte by
// byte it has to be the same.
fn outcome(recording: &[u8]) -> Outcome {
    let mut samples = [0u8; 6];
    let mut cells = [0u8; 1];
    let mut out = [0u8; 1];
    let mut left = [0u8; 4];
    let state = read_recording(0, &mut samples, recording);
    if state != read_bytes(&mut samples, recording) {
        return Outcome::Other;
    }
    let r = run_recorded(
        b"900000\n",
        state,
        &samples,
        &mut cells,
        &mut out,
        &mut left,
    );
    match r {
        MALFORMED => Outcome::Refused,
        0 if left[3] == 3 => Outcome::Accepted,
        _ => Outcome::Other,
    }
}

fn with_byte(column: usize, b: u8) -> Outcome
    requires { column ≤ 6 }
{
    let mut recording = [0u8; 21];
    put(&mut recording, 0, b"300001\n30a2c9\n300003\n");
    recording[7 + column] = b;
    outcome(&recording)
}

fn all_bytes(column: usize) -> Tally
    requires { column ≤ 6 }
{
    let mut t = Tally::default();
    for b in 0..=u8::MAX {
        t.count(with_byte(column, b));
    }
    t
}

pub fn every_column(rt: &HostRuntime) -> io::Result<()> {
    for column in 0..7 {
        show_count(rt, b"column ", column as u64)?;
        show_tally(rt, all_bytes(column))?;
        rt.write_all(b"\n")?;
    }
    Ok(())
}
