// The frame machine: it runs a list over lent cells, and writes what its loads show.
// Where `as` takes a number to another type, it fits, and the proof says so: `From` has no such step, and `try_from` would bring an error that can't be.
#![tactic(auto)]

ghost use Rattle.rules.specs.Sizes.{base};
ghost use Rattle.rules.specs.Entries.{run_entry};
ghost use Rattle.machine.specs.Machine.{LeavesFrame};

use recorded::run_recorded;

pub mod entries; // what a line asks of the machine
pub mod survey; // what a whole list asks for
pub mod lent; // lent memory of two bytes a cell
pub mod obeying; // the work
pub mod recorded; // a run with a recording beside the list: the refusals in their order

// Runs the list with no recording: as with an empty one. The answer is the number of bytes written; or, on a refusal, its number and
// its line, and then cells and out are as they were.
#[unsafe(no_mangle)]
pub extern "C" fn run(list: &[u8], cells: &mut [u8], out: &mut [u8]) -> u64
    ensures { LeavesFrame (run_entry base list.now cells.old out.old) result cells.new out.new }
{
    let none = [0u8; 1];
    let mut left = [0u8; 4];
    run_recorded(list, 0, &none, cells, out, &mut left)
}
