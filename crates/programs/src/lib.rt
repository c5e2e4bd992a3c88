// The programs, but for their `main`: each reads a text, or two, asks `answers` what to print, and writes it.
// Where `as` takes a number to another type, it fits, and the proof says so: `From` has no such step, and `try_from` would bring an error that can't be.
#![tactic(auto)]

ghost use Rattle.std.specs.Prelude.{Some};
ghost use Rattle.answers.specs.Prints.{Prints};
ghost use Rattle.input.specs.Counts.{IsPrefixLen};
ghost use Rattle.programs.specs.Printed.{printed_by, ReadInto, HandedOn, Answers};

use answers::{ran, translated};
use input::{Input, read_input};
use rules::{LONGER, TEXT};
use std::io;

pub mod beside; // the running program with a recording
pub mod checking; // the checking program

#[derive(Clone, Copy)]
pub enum Program {
    Translator,
    Runner,
}

fn printed(program: Program, text: &[u8], out: &mut [u8; TEXT]) -> usize
    ensures { Prints (printed_by program text.now) out.old result out.new }
{
    match program {
        Program::Translator => translated(text, out),
        Program::Runner => ran(text, out),
    }
}

// The bytes that are handed on: so many at the start of the buffer, or all of a full one. How long the buffer is, its callers' types say.
fn handed_on(read: Input, buffer: &[u8]) -> &[u8]
    requires { ReadInto (Some read) buffer.now }
    ensures { HandedOn read buffer.now result.now }
{
    match read {
        Input::Full => buffer,
        Input::Whole(n) => &buffer[..n],
    }
}

// What the program prints, by what was read, and nothing where a read failed: of a full buffer that is 17, whatever follows.
fn answered(
    program: Program,
    text: &[u8; LONGER],
    read: Option<Input>,
    out: &mut [u8; TEXT],
) -> usize
    requires { ReadInto read text.now }
    ensures answers { Answers (printed_by program) read text.now out.old result out.new }
    ensures prefix_len { IsPrefixLen result out.new }
{
    match read {
        None => 0,
        Some(read) => printed(program, handed_on(read, text), out),
    }
}

pub fn respond(rt: &HostRuntime, program: Program) -> io::Result<()> {
    let mut text = [0u8; LONGER];
    let read = read_input(rt, &mut text);
    let mut out = [0u8; TEXT];
    let n = answered(program, &text, read, &mut out);
    rt.write_all(&out[..n])
}
