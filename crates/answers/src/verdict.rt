// What the checking program prints for a script and a list.
ghost use Rattle.std.specs.Prelude.{◌≤◌, length};
ghost use Rattle.rules.specs.Sizes.{base, TEXT};
ghost use Rattle.rules.specs.Suppliers.{checker_prints};
ghost use Rattle.answers.specs.Prints.{Prints};

use crate::longer;
use rules::TEXT;
use supplier::judged;
use text::writing::put_refusal;

// The word at the start.
fn put(out: &mut [u8; TEXT], word: &[u8]) -> usize
    requires { length word.now ≤ TEXT }
    ensures { Prints word.now out.old result out.new }
{
    out[..word.len()].copy_from_slice(word);
    word.len()
}

// `yes`, `no` or the line of a refusal; 17 where either text is longer than is read.
pub fn checked(script: &[u8], list: &[u8], out: &mut [u8; TEXT]) -> usize
    ensures { Prints (checker_prints base script.now list.now) out.old result out.new }
{
    if script.len() > TEXT {
        return longer(out);
    }
    if list.len() > TEXT {
        return longer(out);
    }
    match judged(script, list) {
        Ok(true) => put(out, b"yes\n"),
        Ok(false) => put(out, b"no\n"),
        Err(e) => put_refusal(out, 0, e.refusal.number(), e.line as u16),
    }
}
