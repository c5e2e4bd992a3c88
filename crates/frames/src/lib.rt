// One step for each frame of a script, over the state, the handles and the needs where they stand. Those that look at needs take the whole
// script, the others what they change or ask of it.
// Where `as` takes a number to another type, it fits, and the proof says so: `From` has no such step, and `try_from` would bring an error that can't be.
#![tactic(auto)]

pub mod steps; // where a script stands; what a step adds
pub mod scoped; // 01 to 05
pub mod allots; // 06 to 08
pub mod named; // 09 to 0b
pub mod frees; // 0c to 0e
pub mod cells; // 10 to 12, 14
pub mod needing; // 20, 21, 22, 24
pub mod owned; // 23, 25, and 0c to 0e beside needs
