// Addresses, runs and needs over a state: allocated and freed. The state and the need are lent, and a refusal leaves both as they were.
// `addresses` allocates and frees one address, `linear` a run of them, `any` a need; what takes no state is crate needs'.
// Where `as` takes a number to another type, it fits, and the proof says so: `From` has no such step, and `try_from` would bring an error that can't be.
#![tactic(auto)]

pub mod addresses;
pub mod any;
pub mod linear;
