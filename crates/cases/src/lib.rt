// What test programs share: a long text put together, and an answer shown on a line.
// Where `as` takes a number to another type, it fits, and the proof says so: `From` has no such step, and `try_from` would bring an error that can't be.
#![tactic(auto)]

ghost use Rattle.std.specs.Prelude.{◌≡◌, ◌≤◌, length};

use std::io;
use text::refusal::REFUSAL;
use text::writing::{put_malformed, put_refusal};

// The text from w on, as far as there is room. Answers where it ends.
pub fn put(buf: &mut [u8], w: usize, text: &[u8]) -> usize
    requires { w ≤ length buf.old }
    ensures { (result ≤ length buf.new) × (length buf.new ≡ length buf.old) }
{
    let n = text.len().min(buf.len() - w);
    buf[w..w + n].copy_from_slice(&text[..n]);
    w + n
}

// The line n times.
pub fn put_lines(buf: &mut [u8], w: usize, line: &[u8], n: usize) -> usize
    requires { w ≤ length buf.old }
    ensures { (result ≤ length buf.new) × (length buf.new ≡ length buf.old) }
{
    let mut at = w;
    for _ in 0..n {
        at = put(buf, at, line);
    }
    at
}

// LF is shown as /.
fn show_char(rt: &HostRuntime, b: u8) -> io::Result<()> {
    if b == b'\n' {
        rt.write_all(b"/")
    } else {
        rt.write_all(&[b])
    }
}

// The bytes of text before `to`, from `from` on.
pub fn show(rt: &HostRuntime, text: &[u8], from: usize, to: usize) -> io::Result<()>
    requires { to ≤ length text.now }
{
    for i in from..to {
        show_char(rt, text[i])?;
    }
    Ok(())
}

// The `ee` line; that of 24 has eight digits for the recording's line.
fn say_refusal(rt: &HostRuntime, number: u8, line: u32) -> io::Result<()> {
    if number == 24 {
        let mut long = [0u8; 13];
        put_malformed(&mut long, 0, line);
        return show(rt, &long, 0, 13);
    }
    let mut short = [0u8; 9];
    put_refusal(&mut short, 0, number, (line % 65536) as u16);
    show(rt, &short, 0, 9)
}

// What was answered: the last of r bytes of text, `-` where there are none; or the `ee` line.
pub fn say(rt: &HostRuntime, r: u64, text: &[u8], last: usize) -> io::Result<()> {
    if r < REFUSAL {
        let n = (r as usize).min(text.len());
        if n == 0 {
            rt.write_all(b"-")?;
        }
        return show(rt, text, n.saturating_sub(last), n);
    }
    say_refusal(rt, (r / REFUSAL % 256) as u8, (r % REFUSAL) as u32)
}
