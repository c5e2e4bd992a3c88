// The checking program: its first argument names the script, its second the list.
ghost use Rattle.rules.specs.Sizes.{base};
ghost use Rattle.rules.specs.Suppliers.{checker_prints};
ghost use Rattle.input.specs.Counts.{IsPrefixLen};
ghost use Rattle.programs.specs.Printed.{ReadInto, Answers, AnswersBoth};

use crate::handed_on;
use answers::verdict::checked;
use input::{Input, read_argument};
use rules::{LONGER, TEXT};
use std::io;

// What is printed beside a script that was read, by what was read of the list. As in the other programs nothing is printed where nothing was read;
// what is asked then is another function of `answers` in each, with parameters of its own.
fn beside_script(
    script: &[u8],
    list: &[u8; LONGER],
    read: Option<Input>,
    out: &mut [u8; TEXT],
) -> usize
    requires { ReadInto read list.now }
    ensures answers { Answers (checker_prints base script.now) read list.now out.old result out.new }
    ensures prefix_len { IsPrefixLen result out.new }
{
    match read {
        None => 0,
        Some(read) => checked(script, handed_on(read, list), out),
    }
}

// What the checking program prints, by what was read of the script and of the list: of a full buffer that is 17, whatever follows.
fn answered(
    script: &[u8; LONGER],
    first: Option<Input>,
    list: &[u8; LONGER],
    second: Option<Input>,
    out: &mut [u8; TEXT],
) -> usize
    requires read_into { ReadInto first script.now }
    requires read_into_2 { ReadInto second list.now }
    ensures answers_both { AnswersBoth first script.now second list.now out.old result out.new }
    ensures prefix_len { IsPrefixLen result out.new }
{
    match first {
        None => 0,
        Some(first) => beside_script(handed_on(first, script), list, second, out),
    }
}

pub fn respond_checking(rt: &HostRuntime) -> io::Result<()> {
    let mut script = [0u8; LONGER];
    let first = read_argument(rt, 1, &mut script);
    let mut list = [0u8; LONGER];
    let second = read_argument(rt, 2, &mut list);
    let mut out = [0u8; TEXT];
    let n = answered(&script, first, &list, second, &mut out);
    rt.write_all(&out[..n])
}
