// Numbers handed in as states, by chance and near the bounds: each gets 29 and leaves the samples as they were, or an answer that is a state again.
ghost use Rattle.std.specs.Prelude.{◌<◌};

use crate::bytes::{draw, mix, mix_bytes, show_count, show_state};
use crate::tally::{Outcome, Tally, show_tally};
use recordings::read_recording;
use std::io;

// What they came to, and all answers and samples, mixed.
#[derive(Clone, Copy)]
struct Answers {
    tally: Tally,
    digest: u64,
}

const REFUSED: u64 = 29 * 4294967296;

fn no_answers() -> Answers {
    Answers {
        tally: Tally::default(),
        digest: 1,
    }
}

// 29, and the samples as they were; or a state again, which an empty part leaves as it is.
fn outcome(r: u64, samples: &[u8]) -> Outcome {
    let mut kept = [0u8; 1];
    match r {
        REFUSED if samples.iter().all(|b| *b == 0x55) => Outcome::Refused,
        REFUSED => Outcome::Other,
        _ if read_recording(r, &mut kept, b"") == r => Outcome::Accepted,
        _ => Outcome::Other,
    }
}

// Reads what is left of the line in the number's column.
fn read_rest(n: u64, samples: &mut [u8], line: &[u8]) -> u64 {
    let column = (n / 281474976710656) as usize;
    read_recording(n, samples, line.get(column..).unwrap_or(line))
}

impl Answers {
    fn hand_in(&mut self, n: u64) {
        let mut samples = [0x55u8; 9];
        let r = read_rest(n, &mut samples, b"30beef\n");
        self.tally.count(outcome(r, &samples));
        self.digest = mix_bytes(mix(self.digest, r), &samples);
    }
}

fn show_answers(rt: &HostRuntime, a: Answers) -> io::Result<()> {
    show_tally(rt, a.tally)?;
    show_state(rt, a.digest)?;
    rt.write_all(b"\n")
}

fn state(column: u64, value: u16, line: u32) -> u64
    requires { column < 16 }
{
    column * 281474976710656 + u64::from(value) * 4294967296 + u64::from(line)
}

// Of three numbers one is any, one has a low column, and one a low column, a low value and a low line.
fn by_chance(rt: &HostRuntime) -> io::Result<()> {
    let mut t = no_answers();
    let mut x: u64 = 29;
    for _ in 0..1000 {
        let any = draw(x);
        let low = draw(any);
        x = draw(low);
        t.hand_in(any);
        t.hand_in(low >> 12);
        t.hand_in(state(x % 9, ((x >> 16) % 300) as u16, ((x >> 32) % 10) as u32));
    }
    rt.write_all(b"by chance")?;
    show_answers(rt, t)
}

// Values at both sides of each bound that a value may have; of each the first two lines and the last two.
fn of_column(column: u64) -> Answers
    requires { column < 16 }
{
    let mut t = no_answers();
    for value in [0, 1, 15, 16, 255, 256, 4095, 4096, 65535] {
        for line in [0, 1, 4294967294, 4294967295] {
            t.hand_in(state(column, value, line));
        }
    }
    t
}

fn near_bounds(rt: &HostRuntime) -> io::Result<()> {
    for column in 0..10 {
        show_count(rt, b"bounds of column ", column)?;
        show_answers(rt, of_column(column))?;
    }
    Ok(())
}

pub fn all_states(rt: &HostRuntime) -> io::Result<()> {
    near_bounds(rt)?;
    by_chance(rt)
}
