// A recording is read in one part, and a list run beside it: what came of the run, and behind > the state and all lent memory afterwards.
ghost use Rattle.std.specs.Prelude.{◌≤◌};

use crate::bytes::{show_hex, show_state};
use cases::{say, show};
use machine::recorded::run_recorded;
use recordings::read_recording;
use std::io;

// How many bytes are lent: of 9 of samples, of 9 of cells and of 5 for the number left over, which hold 55, and of 17 of output, which hold dots.
#[derive(Clone, Copy)]
pub struct Lent {
    pub samples: usize,
    pub cells: usize,
    pub out: usize,
    pub left: usize,
    ghost fits: { (samples ≤ 9) × (cells ≤ 9) × (out ≤ 17) × (left ≤ 5) },
}

// The state before the recording.
pub fn beside(
    rt: &HostRuntime,
    label: &[u8],
    list: &[u8],
    state: u64,
    recording: &[u8],
    lent: Lent,
) -> io::Result<()> {
    let mut samples = [0x55u8; 9];
    let mut cells = [0x55u8; 9];
    let mut out = [b'.'; 17];
    let mut left = [0x55u8; 5];
    let next = read_recording(state, &mut samples[..lent.samples], recording);
    let r = run_recorded(
        list,
        next,
        &samples[..lent.samples],
        &mut cells[..lent.cells],
        &mut out[..lent.out],
        &mut left[..lent.left],
    );
    rt.write_all(label)?;
    say(rt, r, &out, 17)?;
    rt.write_all(b" >")?;
    show_state(rt, next)?;
    show_hex(rt, &samples)?;
    show_hex(rt, &cells)?;
    rt.write_all(b" ")?;
    show(rt, &out, 0, 17)?;
    show_hex(rt, &left)?;
    rt.write_all(b"\n")
}
