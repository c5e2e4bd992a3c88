// Short recordings, in three parts in every way there is, empty parts among them, and byte by byte: each has to come to what one part does.
ghost use Rattle.std.specs.Prelude.{◌≤◌, length};

use crate::bytes::{show_count, show_hex, show_state};
use recordings::read_recording;
use std::io;

#[derive(Clone, Copy, Default)]
struct Ways {
    agree: u64,
    differ: u64,
}

impl Ways {
    fn count(&mut self, agrees: bool) {
        if agrees {
            self.agree = self.agree.wrapping_add(1);
        } else {
            self.differ = self.differ.wrapping_add(1);
        }
    }
}

pub fn read_between(state: u64, samples: &mut [u8], recording: &[u8], from: usize, to: usize) -> u64
    requires { (from ≤ to) × (to ≤ length recording.now) }
{
    read_recording(state, samples, &recording[from..to])
}

// Whether it comes to the same with cuts at a and at b.
fn agrees_cut(recording: &[u8], a: usize, b: usize) -> bool
    requires { (a ≤ b) × (b ≤ length recording.now) }
{
    let mut whole = [0x55u8; 5];
    let mut kept = [0x55u8; 5];
    let one = read_recording(0, &mut whole, recording);
    let first = read_between(0, &mut kept, recording, 0, a);
    let second = read_between(first, &mut kept, recording, a, b);
    let third = read_between(second, &mut kept, recording, b, recording.len());
    one == third && whole == kept
}

// The state after the parts of one byte each.
pub fn read_bytes(samples: &mut [u8], recording: &[u8]) -> u64 {
    let mut state: u64 = 0;
    for b in recording {
        state = read_recording(state, samples, &[*b]);
    }
    state
}

fn agrees_bytes(recording: &[u8]) -> bool {
    let mut whole = [0x55u8; 5];
    let mut kept = [0x55u8; 5];
    let one = read_recording(0, &mut whole, recording);
    let state = read_bytes(&mut kept, recording);
    one == state && whole == kept
}

// The first cut at a, the second at b, which is no earlier.
fn all_cuts(recording: &[u8]) -> Ways {
    let mut ways = Ways::default();
    ways.count(agrees_bytes(recording));
    for b in 0..=recording.len() {
        for a in 0..=b {
            ways.count(agrees_cut(recording, a, b));
        }
    }
    ways
}

// What one part comes to, and how many ways come to the same.
fn cut(rt: &HostRuntime, label: &[u8], recording: &[u8]) -> io::Result<()> {
    let mut whole = [0x55u8; 5];
    let state = read_recording(0, &mut whole, recording);
    let t = all_cuts(recording);
    rt.write_all(label)?;
    show_state(rt, state)?;
    show_hex(rt, &whole)?;
    show_count(rt, b" agree ", t.agree)?;
    show_count(rt, b" differ ", t.differ)?;
    rt.write_all(b"\n")
}

pub fn every_cut(rt: &HostRuntime) -> io::Result<()> {
    cut(rt, b"none   ", b"")?;
    cut(rt, b"one    ", b"30beef\n")?;
    cut(rt, b"two    ", b"300001\n30beef\n")?;
    cut(rt, b"three  ", b"300001\n30beef\n30a2c9\n")?;
    cut(rt, b"torn   ", b"300001\n30be")?;
    cut(rt, b"no LF  ", b"300001\n30beef")?;
    cut(rt, b"upper  ", b"300001\n30beEf\n300002\n")?;
    cut(rt, b"CR LF  ", b"300001\r\n300002\r\n")?;
    cut(rt, b"blank  ", b"300001\n\n300002\n")?;
    cut(rt, b"long   ", b"3000010\n300002\n")?;
    cut(rt, b"opcode ", b"300001\n310001\n300002\n")
}
