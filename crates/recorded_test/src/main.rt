// Reads recordings and runs lists beside them; the oracle's model makes the same lines, and docs/parts/recordings.md says why they are what they are.
// Where `as` takes a number to another type, it fits, and the proof says so: `From` has no such step, and `try_from` would bring an error that can't be.
#![tactic(auto)]

use chance::long_recordings;
use columns::every_column;
use cuts::every_cut;
use many::long_lists;
use rows::all_runs;
use states::all_states;
use std::io;

pub mod bytes; // bytes shown, and mixed into one number
pub mod tally; // how many came to what
pub mod cuts; // short recordings in every way to cut them
pub mod runs; // a recording read, a list run beside it, and lent memory afterwards
pub mod rows; // .. one after the other
pub mod many; // lists of 2,048 lines
pub mod columns; // each byte in each column of a line
pub mod chance; // long recordings in parts by chance
pub mod states; // numbers handed in as states

fn main(rt: HostRuntime) -> io::Result<()> {
    all_runs(&rt)?;
    long_lists(&rt)?;
    every_cut(&rt)?;
    every_column(&rt)?;
    long_recordings(&rt)?;
    all_states(&rt)
}
