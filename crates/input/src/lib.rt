// What a program reads: standard input, or a file that an argument names.
#![tactic(auto)]

ghost use Rattle.std.specs.Prelude.{◌≡◌, ℕ, ◌≤◌, length, IfOk, IfSome};
ghost use Rattle.std.specs.Result.{result_ok};
ghost use Rattle.input.specs.Within.{Within};

use std::env::{Env, FillError};
use std::fs::File;
use std::io;
use std::io::{ErrorKind, Read, Write};
use std::str::from_utf8;

// All of it, in so many bytes at the start of the buffer, where room is left; or the buffer is full, and more may follow.
#[derive(Clone, Copy)]
pub enum Input {
    Whole(usize),
    Full,
}

// An argument that names a file is no longer than this.
const PATH: usize = 4096;

// No error's words are longer.
const WORDS: usize = 128;

// Where the words of an error end: std puts the system's number behind them.
fn words_end(text: &[u8; WORDS]) -> usize
    ensures { result ≤ length text.now }
{
    for (i, b) in text.iter().enumerate() {
        if *b == 0 || text[i..].starts_with(b" (os error ") {
            return i;
        }
    }
    text.len()
}

// Writes a line to standard error: what failed, a colon and the error's words.
fn fail(rt: &HostRuntime, what: &[u8], error: io::Error) {
    let mut text = [0u8; WORDS];
    let mut room = &mut text[..];
    let _ = write!(room, "{error}");
    let n = words_end(&text);
    let to = rt.stderr();
    let _ = Print::write_all(&to, what);
    let _ = Print::write_all(&to, b": ");
    let _ = Print::write_all(&to, &text[..n]);
    let _ = Print::write_all(&to, b"\n");
}

// Reads until buf is full or the input ends.
fn fill<R: Read>(from: &mut R, buf: &mut [u8]) -> io::Result<Input>
    ensures { IfOk result (λ r. Within r (length buf.old)) }
{
    let mut n: usize = 0;
    // a read takes as many bytes as come, so no `for`
    while n < buf.len() {
        let more = from.read(&mut buf[n..])?;
        if more == 0 {
            return Ok(Input::Whole(n));
        }
        n += more;
    }
    Ok(Input::Full)
}

// What was answered; of an error a word on standard error instead.
pub fn or_say<T>(rt: &HostRuntime, what: &[u8], answer: io::Result<T>) -> Option<T>
    ensures { result ≡ result_ok answer }
{
    match answer {
        Ok(v) => Some(v),
        Err(e) => {
            fail(rt, what, e);
            None
        }
    }
}

// Opens the file of this path for reading. std takes a path that is UTF-8, and no other.
fn open_read(rt: &HostRuntime, path: &[u8]) -> io::Result<File> {
    match from_utf8(path) {
        Ok(path) => File::open(rt, path),
        Err(_) => Err(io::Error::from(ErrorKind::InvalidFilename)),
    }
}

fn open(rt: &HostRuntime, path: &[u8]) -> Option<File> {
    or_say(rt, path, open_read(rt, path))
}

// Is there an argument k? The program's own name is argument 0.
pub fn has_argument(rt: &HostRuntime, k: usize) -> bool {
    !matches!(rt.arg(k, &mut []), Err(FillError::NotPresent))
}

// The system's EINVAL and ENAMETOOLONG.
const INVALID_ARGUMENT: i32 = 22;

const NAME_TOO_LONG: i32 = 36;

// What the system says of an argument that is missing, or too long.
fn no_argument(e: FillError) -> io::Error {
    match e {
        FillError::NotPresent => io::Error::from_raw_os_error(INVALID_ARGUMENT),
        FillError::TooLong => io::Error::from_raw_os_error(NAME_TOO_LONG),
    }
}

// The path that argument k is: so many bytes at the start of the buffer.
fn argument(rt: &HostRuntime, k: usize, path: &mut [u8]) -> Option<usize>
    ensures fits { IfSome result (λ n. n ≤ length path.old) }
    ensures length_kept { length path.new ≡ length path.old }
{
    or_say(rt, b"argument", rt.arg(k, path).map_err(no_argument))
}

// What was read of the file that argument k names; or none, and a word on standard error.
pub fn read_argument(rt: &HostRuntime, k: usize, buf: &mut [u8]) -> Option<Input>
    ensures { IfSome result (λ r. Within r (length buf.old)) }
{
    let mut path = [0u8; PATH];
    let n = argument(rt, k, &mut path)?;
    let mut file = open(rt, &path[..n])?;
    or_say(rt, &path[..n], fill(&mut file, buf))
}

// Opens the file that argument k names; or there is none, and a word on standard error.
pub fn open_argument(rt: &HostRuntime, k: usize) -> Option<File> {
    let mut path = [0u8; PATH];
    let n = argument(rt, k, &mut path)?;
    open(rt, &path[..n])
}

pub fn read_input(rt: &HostRuntime, buf: &mut [u8]) -> Option<Input>
    ensures { IfSome result (λ r. Within r (length buf.old)) }
{
    if !has_argument(rt, 1) {
        return or_say(rt, b"standard input", fill(&mut rt.stdin(), buf));
    }
    read_argument(rt, 1, buf)
}
