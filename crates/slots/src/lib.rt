// Which of the slots are occupied, in segments of 128, each of two 64-bit halves; and where the next one goes.
// Beside the original's slots.rs: `half` is one 64-bit half, `halves` those of a state, `spots` where an allocation goes,
// `entries` what a host calls.
#![tactic(auto)]

pub mod entries;
pub mod half;
pub mod halves;
pub mod spots;

pub use entries::{fresh, insert, insert_lowest, push, remove};
use rules::{HALVES, Refusal};

// The address of a slot. A handle number is another type, so that neither passes for the other.
#[derive(Clone, Copy, Debug, PartialEq, Eq)]
pub struct SlotAddress(pub u16);

// The state, by value: the occupied slots, segment count L, head segment H.
#[derive(Clone, Copy, Debug, PartialEq, Eq)]
pub struct Slots {
    pub halves: [u64; HALVES],
    pub segments: usize,
    pub head: usize,
}

// Where an allocation goes: by the head (edition 1), to the lowest clear slot of all (edition 2), or exactly at an address that a list shows.
#[derive(Clone, Copy, Debug, PartialEq, Eq)]
pub enum Place {
    ByHead,
    Lowest,
    ExactlyAt(SlotAddress),
}

// The first slot of an allocation; and L and H once its slots are occupied.
#[derive(Clone, Copy, Debug, PartialEq, Eq)]
pub struct Spot {
    pub address: usize,
    pub segments: usize,
    pub head: usize,
}

// What insert and push give. The state comes first, the answer after it: so a step copies the state least.
#[derive(Clone, Copy, Debug, PartialEq, Eq)]
pub struct Placing {
    pub state: Slots,
    pub answer: Result<SlotAddress, Refusal>,
}

// What remove gives: whether the slot was occupied.
#[derive(Clone, Copy, Debug, PartialEq, Eq)]
pub struct Removing {
    pub state: Slots,
    pub answer: Result<bool, Refusal>,
}
