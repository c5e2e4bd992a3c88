// Whether a list from elsewhere agrees with a script: the script's own steps, and the same steps once more with each allocation where the list
// shows it.
#![tactic(auto)]

ghost use Rattle.std.specs.Prelude.{◌≡◌};
ghost use Rattle.rules.specs.Sizes.{base};
ghost use Rattle.rules.specs.Suppliers.{verdict, verdict_answer};
ghost use Rattle.supplier.specs.Judged.{Read, TheList, SaysShown, SaysBoth, answered};

use rules::{LINES, PAGE};
use text::refusal::RefusedAt;
use text::whole::{check_list, check_script};
use translate::whole::{steps, steps_shown};

// The size line has so many bytes.
const SIZE_LINE: usize = 7;

// The steps over the list's own addresses give its lines, and need no larger size than its own. The rows are those of its lines.
fn agrees_shown(script: &[u8], list: &[u8], rows: &[u64], size: usize) -> bool
    requires { Read script.now × TheList list.now rows.now size }
    ensures { SaysShown script.now list.now rows.now size result }
{
    let mut page = [0u8; PAGE];
    match steps_shown(script, rows, &mut page) {
        Err(_) => false,
        Ok(l) => {
            if list.len() != l.bytes || size < l.size {
                return false;
            }
            let front = l.bytes - SIZE_LINE;
            list[..front] == page[..front]
        }
    }
}

// Both texts are read. The script's own steps come first: a script that they refuse gets a no, whatever the number, 7 too.
fn agrees_both(script: &[u8], list: &[u8], rows: &[u64], size: usize) -> bool
    requires { Read script.now × TheList list.now rows.now size }
    ensures { SaysBoth script.now list.now rows.now size result }
{
    let mut page = [0u8; PAGE];
    steps(script, &mut page).is_ok() && agrees_shown(script, list, rows, size)
}

// The script is read: 1 and 2 of the list, then yes or no.
fn agrees_read(script: &[u8], list: &[u8]) -> Result<bool, RefusedAt>
    requires { Read script.now }
    ensures { answered result ≡ verdict_answer (verdict base script.now list.now) }
{
    let mut table = [0u64; LINES];
    let read = check_list(list, &mut table)?;
    Ok(agrees_both(script, list, &table[..read.lines], read.size))
}

// Whether the list agrees with the script; or, where one of them can't be read, the refusal, the script's before the list's.
pub fn judged(script: &[u8], list: &[u8]) -> Result<bool, RefusedAt>
    ensures { answered result ≡ verdict_answer (verdict base script.now list.now) }
{
    check_script(script)?;
    agrees_read(script, list)
}

// The same as a number: 1 for yes, 0 for no; or the number and the line of the refusal.
#[unsafe(no_mangle)]
pub extern "C" fn agrees(script: &[u8], list: &[u8]) -> u64
    ensures { result ≡ verdict_answer (verdict base script.now list.now) }
{
    match judged(script, list) {
        Ok(yes) => u64::from(yes),
        Err(e) => u64::from(e),
    }
}
