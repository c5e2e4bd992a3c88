// The runs: docs/parts/recordings.md has them row by row.
ghost use Rattle.std.specs.Prelude.{◌≤◌};

use crate::runs::{Lent, beside};
use std::io;

fn lent(samples: usize, cells: usize, out: usize, left: usize) -> Lent
    requires { (samples ≤ 9) × (cells ≤ 9) × (out ≤ 17) × (left ≤ 5) }
{
    Lent {
        samples,
        cells,
        out,
        left,
    }
}

// A state that is handed in, and memory in plenty.
fn from(rt: &HostRuntime, label: &[u8], list: &[u8], state: u64, part: &[u8]) -> io::Result<()> {
    beside(rt, label, list, state, part, lent(9, 6, 14, 4))
}

fn case(rt: &HostRuntime, label: &[u8], list: &[u8], recording: &[u8]) -> io::Result<()> {
    from(rt, label, list, 0, recording)
}

// So many bytes of samples and cells.
fn short(
    rt: &HostRuntime,
    label: &[u8],
    list: &[u8],
    recording: &[u8],
    samples: usize,
    cells: usize,
) -> io::Result<()>
    requires { (samples ≤ 9) × (cells ≤ 9) }
{
    beside(rt, label, list, 0, recording, lent(samples, cells, 14, 4))
}

fn unlent(rt: &HostRuntime, label: &[u8], list: &[u8], recording: &[u8]) -> io::Result<()> {
    beside(rt, label, list, 0, recording, lent(0, 0, 0, 0))
}

// The rules' recorded sessions, on as many cells as each says.
fn sessions(rt: &HostRuntime) -> io::Result<()> {
    let samples = b"300001\n30beef\n300003\n";
    short(
        rt,
        b"S1    ",
        b"140000\n110000\n140000\n110000\n900001\n",
        samples,
        9,
        2,
    )?;
    short(rt, b"S2    ", b"900000\n", b"300001\n300002\n", 9, 0)?;
    short(rt, b"S3    ", b"14\n900000\n", b"x", 9, 0)?;
    short(rt, b"S4    ", b"140001\n900001\n", b"x", 9, 2)?;
    short(rt, b"S5    ", b"900000\n", b"x", 9, 0)?;
    short(
        rt,
        b"S6    ",
        b"140000\n140000\n900001\n",
        b"300001\n30000\n",
        9,
        2,
    )?;
    short(
        rt,
        b"S7    ",
        b"900000\n",
        b"300001\n300002\n30000a\n310000\n",
        9,
        0,
    )?;
    short(rt, b"S8    ", b"140000\n900001\n", b"300001", 9, 2)?;
    short(rt, b"S9    ", b"140000\n900001\n", b"30000A\n", 9, 2)?;
    short(rt, b"S10   ", b"140000\n900001\n", b"", 9, 0)?;
    short(
        rt,
        b"S11   ",
        b"140000\n0f0000\n140000\n900001\n",
        b"300001\n",
        9,
        2,
    )?;
    short(rt, b"S12   ", b"140000\n900001\n", b"300001\n", 9, 0)
}

fn readings(rt: &HostRuntime) -> io::Result<()> {
    let two = b"140000\n140000\n900001\n";
    unlent(rt, b"A101  ", b"140000\n900001\n", b"")?;
    unlent(rt, b"A102  ", b"900000\n", b"x")?;
    case(rt, b"A103  ", b"140000\n900001\n", b"300001")?;
    from(rt, b"A104  ", b"140000\n900001\n", 0x0102_0305, b"")?;
    case(
        rt,
        b"A105  ",
        b"140000\n0f0000\n140000\n900001\n",
        b"300001\n",
    )?;
    short(rt, b"A150- ", two, b"300001\n300002\n300003\n", 3, 6)?;
    short(rt, b"A150+ ", two, b"300001\n300002\n300003\n", 4, 6)
}

// Where two refusals apply, and 17 as a third: 29, 1, 20, 24, 23.
fn order(rt: &HostRuntime) -> io::Result<()> {
    from(rt, b"29,1  ", b"zz\n", 0x1_0000_0000, b"")?;
    unlent(rt, b"1,20  ", b"140001\n900001", b"x")?;
    unlent(rt, b"20,24 ", b"140001\n900001\n", b"x")?;
    unlent(rt, b"20,23 ", b"140001\n900001\n", b"")?;
    unlent(rt, b"24,23 ", b"140000\n140000\n900001\n", b"300001\n3")?;
    unlent(rt, b"23,17 ", b"140000\n140000\n900001\n", b"300001\n")
}

// A list that takes a sample and loads it.
fn shown(rt: &HostRuntime, label: &[u8], recording: &[u8], lent: Lent) -> io::Result<()> {
    let list = b"140000\n110000\n900001\n";
    beside(rt, label, list, 0, recording, lent)
}

// Exactly enough is lent, a byte less of each, a byte more of all.
fn enough(rt: &HostRuntime) -> io::Result<()> {
    shown(rt, b"17    ", b"30beef\n", lent(2, 2, 7, 4))?;
    shown(rt, b"17s   ", b"30beef\n", lent(1, 2, 7, 4))?;
    shown(rt, b"17c   ", b"30beef\n", lent(2, 1, 7, 4))?;
    shown(rt, b"17o   ", b"30beef\n", lent(2, 2, 6, 4))?;
    shown(rt, b"17l   ", b"30beef\n", lent(2, 2, 7, 3))?;
    shown(rt, b"odd   ", b"30beef\n300002\n", lent(3, 3, 8, 5))
}

// 4,294,967,295 lines, and one more; a malformed line stays malformed.
fn last_lines(rt: &HostRuntime) -> io::Result<()> {
    from(rt, b"last  ", b"900000\n", 4294967294, b"300007\n")?;
    from(rt, b"torn  ", b"900000\n", 4294967294, b"300007")?;
    from(rt, b"more  ", b"900000\n", 4294967294, b"300007\n3")?;
    from(rt, b"line  ", b"900000\n", 4294967295, b"300007\n")?;
    from(
        rt,
        b"over  ",
        b"900000\n",
        4294967293,
        b"300007\n300008\n300009\n",
    )?;
    from(rt, b"stays ", b"900000\n", 0x7_0000_0000_0009, b"300007\n")
}

pub fn all_runs(rt: &HostRuntime) -> io::Result<()> {
    sessions(rt)?;
    readings(rt)?;
    order(rt)?;
    enough(rt)?;
    last_lines(rt)
}
