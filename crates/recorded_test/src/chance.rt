// 1,000 lines by chance, in parts of 1 to 200 bytes by chance: state and samples have to be those of one part.
ghost use Rattle.std.specs.Prelude.{◌<◌, ◌≤◌};

use crate::bytes::{draw, mix_bytes, show_count, show_state};
use recordings::read_recording;
use std::io;
use text::writing::put_line;

#[derive(Clone, Copy)]
struct Parts {
    state: u64,
    count: u64,
}

// Lines of samples by chance.
fn fill(recording: &mut [u8], seed: u64) {
    let mut x = seed;
    for line in 0..recording.len() / 7 {
        x = draw(x);
        put_line(recording, 7 * line, 0x30, &[((x >> 16) % 65536) as u16]);
    }
}

// One byte by chance at a place by chance.
fn damage(recording: &mut [u8], seed: u64) {
    let at = draw(seed);
    let byte = draw(at);
    let place = ((at >> 16) % 7000) as usize;
    if place < recording.len() {
        recording[place] = ((byte >> 16) % 256) as u8;
    }
}

// In parts by chance.
fn read_parts(samples: &mut [u8], recording: &[u8], seed: u64) -> Parts {
    let mut x = seed;
    let mut state: u64 = 0;
    let mut count: u64 = 0;
    let mut rest = recording;
    // The parts differ in length, so a `for` would count what it does not use.
    while !rest.is_empty() {
        x = draw(x);
        let n = 1 + ((x >> 16) % 200) as usize;
        let (part, after) = rest.split_at(n.min(rest.len()));
        state = read_recording(state, samples, part);
        count = count.wrapping_add(1);
        rest = after;
    }
    Parts { state, count }
}

fn show_parts(rt: &HostRuntime, label: &[u8], seed: u64, recording: &[u8]) -> io::Result<()> {
    let mut whole = [0x55u8; 1501];
    let mut kept = [0x55u8; 1501];
    let state = read_recording(0, &mut whole, recording);
    let parts = read_parts(&mut kept, recording, seed);
    show_count(rt, label, seed)?;
    show_state(rt, state)?;
    show_state(rt, mix_bytes(1, &whole))?;
    show_count(rt, b" parts ", parts.count)?;
    if state == parts.state && whole == kept {
        rt.write_all(b" agree\n")
    } else {
        rt.write_all(b" differ\n")
    }
}

// Whole, and with a byte damaged.
fn long_recording(rt: &HostRuntime, seed: u64) -> io::Result<()> {
    let mut recording = [0u8; 7000];
    fill(&mut recording, seed);
    show_parts(rt, b"whole ", seed, &recording)?;
    damage(&mut recording, seed);
    show_parts(rt, b"damaged ", seed, &recording)
}

pub fn long_recordings(rt: &HostRuntime) -> io::Result<()> {
    for seed in 1..9 {
        long_recording(rt, seed)?;
    }
    Ok(())
}
