// A script translated and its list run, in one call on lent memory.
// Where `as` takes a number to another type, it fits, and the proof says so: `From` has no such step, and `try_from` would bring an error that can't be.
#![tactic(auto)]

ghost use Rattle.machine.specs.Machine.{LeavesFrame};
ghost use Rattle.demand3.specs.Together.{together};

use rules::PAGE;
use text::refusal::REFUSAL;

// Prints what the script means. The answer is the number of bytes written; or, on a refusal, its number and its line, and then cells and
// out are as they were: the list goes to a page of its own, which holds every list.
pub fn translate_and_run(script: &[u8], cells: &mut [u8], out: &mut [u8]) -> u64
    ensures { LeavesFrame (together script.now cells.old out.old) result cells.new out.new }
{
    let mut page = [0u8; PAGE];
    let r = translate::translate(script, &mut page);
    if r < REFUSAL {
        let n = r as usize;
        return machine::run(&page[..n], cells, out);
    }
    r
}
