// Text of scripts and lists: a line read at a position of a text, a line written at a position of lent memory, and the check of a
// whole text.
// Where `as` takes a number to another type, it fits, and the proof says so: `From` has no such step, and `try_from` would bring an error that can't be.
#![tactic(auto)]

pub mod digits; // one hex digit, and four
pub mod lines; // a line of a script or of a list, read
pub mod writing; // a line of a list, and the line of a refusal, written
pub mod table; // a line of a list as one number
pub mod whole; // the title of a text, and its first line with 1 or 2
pub mod refusal; // a refusal with its line, and as one number
