// Scripts into lists: the steps of all frames, the page, and translate.
// Where `as` takes a number to another type, it fits, and the proof says so: `From` has no such step, and `try_from` would bring an error that can't be.
#![tactic(auto)]

ghost use Rattle.std.specs.Prelude.{◌≡◌, ◌++◌, ◌≤◌, true, length, take, drop};
ghost use Rattle.std.specs.Result.{is_err};
ghost use Rattle.rules.specs.Sizes.{base, PAGE};
ghost use Rattle.rules.specs.Entries.{translate_entry};
ghost use Rattle.translate.specs.Whole.{longest_of, told, LeavesList, LeavesOn};

use rules::{PAGE, Refusal};
use text::refusal::RefusedAt;
use whole::steps_on;

pub mod whole; // all steps of a script, and the page

// The first n bytes of the page go to the start of the list. One by one, since `copy_from_slice` is compiled to a call of `memmove`, which nothing else
// in the archive for C needs from outside.
fn copy(page: &[u8], list: &mut [u8], n: usize)
    requires { (n ≤ length page.now) × (n ≤ length list.old) }
    ensures { list.new ≡ take n page.now ++ drop n list.old }
{
    for i in 0..n {
        list[i] = page[i];
    }
}

// Translates the script on this page: its lines and their steps, and 17 last; or 17 where the page may be too short for the list. It answers
// how many bytes the list takes.
fn translate_on(script: &[u8], page: &mut [u8], list: &mut [u8]) -> Result<usize, RefusedAt>
    requires { (longest_of 1 0 ≤ length page.old) × (length page.old ≤ PAGE) }
    ensures leaves_on { LeavesOn (length page.old) (translate_entry base script.now list.old) result list.new }
    ensures list_unchanged { is_err result ≡ true → list.new ≡ list.old }
{
    let n = steps_on(script, page)?.bytes;
    if list.len() < n {
        return Err(RefusedAt::new(Refusal::MemoryTooShort, 0));
    }
    copy(page, list, n);
    Ok(n)
}

// The same on a page that no list outgrows.
fn translate_whole(script: &[u8], list: &mut [u8]) -> Result<usize, RefusedAt>
    ensures { LeavesList (translate_entry base script.now list.old) (told result) list.new }
{
    let mut page = [0u8; PAGE];
    translate_on(script, &mut page, list)
}

// A script of so many bytes at most is tried on a short page first: a whole one takes as long to clear as twenty frames take. Where 11 bytes for
// each frame and 4 for each handle are more than the short one has, the script is walked again.
const SHORT_SCRIPT: usize = 2048;

const SHORT_PAGE: usize = 8192;

fn translate_short(script: &[u8], list: &mut [u8]) -> Result<usize, RefusedAt>
    ensures { LeavesList (translate_entry base script.now list.old) (told result) list.new }
{
    let mut page = [0u8; SHORT_PAGE];
    match translate_on(script, &mut page, list) {
        Err(e) if e.refusal == Refusal::MemoryTooShort => translate_whole(script, list),
        r => r,
    }
}

// Translates the script: its lines and their steps, and 17 last. The answer is how many bytes the list takes; or, on a refusal, its number and
// its line, and then the lent memory is as it was.
#[unsafe(no_mangle)]
pub extern "C" fn translate(script: &[u8], list: &mut [u8]) -> u64
    ensures { LeavesList (translate_entry base script.now list.old) result list.new }
{
    let r = if script.len() <= SHORT_SCRIPT {
        translate_short(script, list)
    } else {
        translate_whole(script, list)
    };
    match r {
        Ok(n) => n as u64,
        Err(e) => u64::from(e),
    }
}
