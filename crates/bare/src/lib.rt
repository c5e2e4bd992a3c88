// Bare slots for the comparison with the original and for its figures: runs of calls on `Slots` alone. No product links this crate.
// Where `as` takes a number to another type, it fits, and the proof says so: `From` has no such step, and `try_from` would bring an error that can't be.
#![tactic(auto)]

pub mod calls; // one call, by number
pub mod pairs; // insert and remove pairs, in two ways of calling
pub mod rows; // a run of calls, and what each showed

pub use pairs::{bare_pairs_by_value, bare_pairs_lent};
pub use rows::bare_calls;
