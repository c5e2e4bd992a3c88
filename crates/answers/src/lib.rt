// What each of the programs prints for its input, left at the start of a text buffer; the bytes past it stay.
// Where `as` takes a number to another type, it fits, and the proof says so: `From` has no such step, and `try_from` would bring an error that can't be.
#![tactic(auto)]

ghost use Rattle.std.specs.Prelude.{◌+◌, ◌/◌, ◌%◌, ◌≤◌, length};
ghost use Rattle.rules.specs.Sizes.{base, TEXT};
ghost use Rattle.rules.specs.Entries.{ee_text, translator_prints, runner_prints, recorded_prints, REFUSAL};
ghost use Rattle.answers.specs.Prints.{Prints, Halved, Shown, Behind, HalvedBeside, stopped_text};

use machine::lent::load;
use machine::recorded::run_recorded;
use rules::{SLOTS, TEXT};
use text::refusal::REFUSAL;
use text::writing::{put_line, put_malformed, put_refusal};

pub mod verdict; // the checking program

// Longer input: 17, whatever it holds.
pub fn longer(out: &mut [u8; TEXT]) -> usize
    ensures { Prints (ee_text 17 0) out.old result out.new }
{
    put_refusal(out, 0, 17, 0)
}

// An answer of translate or run as it is printed: what it counts stands there already, the line of a refusal goes over the start.
// These are functions of the C interface, which answer one number, so it is taken apart as a number.
fn shown(answer: u64, out: &mut [u8; TEXT]) -> usize
    requires { Halved answer }
    ensures { Shown answer out.old result out.new }
{
    if answer < REFUSAL {
        return answer as usize;
    }
    put_refusal(out, 0, (answer / REFUSAL) as u8, (answer % REFUSAL) as u16)
}

// What the translating program prints for a script.
pub fn translated(script: &[u8], out: &mut [u8; TEXT]) -> usize
    ensures { Prints (translator_prints base script.now) out.old result out.new }
{
    if script.len() > TEXT {
        return longer(out);
    }
    let answer = translate::translate(script, out);
    shown(answer, out)
}

// What the running program prints for a list, in cells of its own.
pub fn ran(list: &[u8], out: &mut [u8; TEXT]) -> usize
    ensures { Prints (runner_prints base list.now) out.old result out.new }
{
    if list.len() > TEXT {
        return longer(out);
    }
    let mut cells = [0u8; 2 * SLOTS];
    let answer = machine::run(list, &mut cells, out);
    shown(answer, out)
}

// Behind what was printed, in so many bytes: the line of the number left over, which stands in left, high first.
fn put_left(out: &mut [u8; TEXT], written: usize, left: &[u8]) -> usize
    requires { (written + 11 ≤ TEXT) × (4 ≤ length left.now) }
    ensures { Behind left.now out.old written result out.new }
{
    let high = load(left, 0);
    let low = load(left, 1);
    put_line(out, written, 0xa1, &[high, low])
}

// A refusal of run_recorded: 24 shows a line of the recording. It comes as one number, as the C interface has it.
fn refused_beside(answer: u64, out: &mut [u8; TEXT]) -> usize
    requires { HalvedBeside answer }
    ensures { Prints (stopped_text (answer / REFUSAL) (answer % REFUSAL)) out.old result out.new }
{
    let number = (answer / REFUSAL) as u8;
    let line = (answer % REFUSAL) as u32;
    if number == 24 {
        return put_malformed(out, 0, line);
    }
    put_refusal(out, 0, number, line as u16)
}

// What the running program prints for a list beside a recording, once this is read to a state and its samples are kept.
pub fn recorded(list: &[u8], state: u64, samples: &[u8], out: &mut [u8; TEXT]) -> usize
    ensures { Prints (recorded_prints base list.now state samples.now) out.old result out.new }
{
    if list.len() > TEXT {
        return longer(out);
    }
    let mut frame = [0u8; 2 * SLOTS];
    let mut left = [0u8; 4];
    let answer = run_recorded(list, state, samples, &mut frame, out, &mut left);
    if answer / REFUSAL == 0 {
        return put_left(out, answer as usize, &left);
    }
    refused_beside(answer, out)
}
