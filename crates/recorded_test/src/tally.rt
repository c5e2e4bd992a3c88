// How many were refused as they have to be, how many were accepted, and how many came to something else.
use crate::bytes::show_count;
use std::io;

#[derive(Clone, Copy)]
pub enum Outcome {
    Refused,
    Accepted,
    Other,
}

#[derive(Clone, Copy, Default)]
pub struct Tally {
    pub refused: u64,
    pub accepted: u64,
    pub other: u64,
}

impl Tally {
    pub fn count(&mut self, outcome: Outcome) {
        match outcome {
            Outcome::Refused => self.refused = self.refused.wrapping_add(1),
            Outcome::Accepted => self.accepted = self.accepted.wrapping_add(1),
            Outcome::Other => self.other = self.other.wrapping_add(1),
        }
    }
}

pub fn show_tally(rt: &HostRuntime, t: Tally) -> io::Result<()> {
    show_count(rt, b" refused ", t.refused)?;
    show_count(rt, b" accepted ", t.accepted)?;
    show_count(rt, b" other ", t.other)
}
