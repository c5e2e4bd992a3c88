// A line of a script or of a list: an opcode of two digits, then operands of four. Rows of digits say which operands an opcode
// has in each of the two.
ghost use Rattle.std.specs.Prelude.{◌≡◌, ◌+◌, ◌≤◌, ◌<◌, IfSome, length};
ghost use Rattle.text.specs.Lines.{Ends, NextLine, DigitsEnd, DigitsFrom, Joined, reading_by, reading_of, frame_reading, line_reading, Took};
ghost use Rattle.text.specs.Shapes.{row_of, shape_of, fit};

use crate::digits::{digit_value, four_digits, word_of};
use crate::table::unpack;

// The two kinds of text: an opcode has other operands in a script than in a list.
#[derive(Clone, Copy)]
pub enum TextKind {
    Script,
    List,
}

// A frame, or a line of a list: its opcode and its first two operands, 0 where it has fewer.
#[derive(Clone, Copy, Debug, PartialEq, Eq)]
pub struct Frame {
    pub opcode: u8,
    pub a: u16,
    pub b: u16,
}

// The frame of a line, none where it is malformed; and where the next line begins.
#[derive(Clone, Copy)]
pub struct TakenLine {
    pub frame: Option<Frame>,
    pub next: usize,
}

// The digits from a place on: where they end, and the number that the first ten make, with zeros after them where there are fewer.
#[derive(Clone, Copy)]
pub struct Digits {
    pub end: usize,
    pub number: u64,
}

// Where the line that starts at p ends: its LF, or the end of the text.
fn line_end(s: &[u8], p: usize) -> usize
    requires { p ≤ length s.now }
    ensures { Ends s.now p result }
{
    for e in p..s.len() {
        if s[e] == b'\n' {
            return e;
        }
    }
    s.len()
}

// Where the digits from a place on end.
fn digits_end(s: &[u8], from: usize) -> usize
    requires { from ≤ length s.now }
    ensures { DigitsEnd s.now from result }
{
    for e in from..s.len() {
        if digit_value(s[e]).is_none() {
            return e;
        }
    }
    s.len()
}

// The digits up to end, of an opcode and two operands.
fn joined(end: usize, opcode: u16, a: u16, b: u16) -> Digits
    ensures { Joined end opcode a b result }
{
    Digits {
        end,
        number: u64::from(opcode) * 0x1_0000_0000 + u64::from(a) * 0x1_0000 + u64::from(b),
    }
}

// The digits of a whole line with none, one or two operands. The bytes are read four at a time, and the LF is looked for in what was read, so
// that each word is one load.
fn digits_at_once(s: &[u8], p: usize) -> Option<Digits>
    requires { p + 11 ≤ length s.now }
    ensures { IfSome result (λ d. DigitsFrom s.now p d) }
{
    let front = word_of(s[p], s[p + 1], s[p + 2], s[p + 3]);
    let opcode = four_digits(front % 0x1_0000 * 0x1_0000 + 0x3030)?;
    if front / 0x1_0000 % 0x100 == 10 {
        return Some(joined(p + 2, opcode, 0, 0));
    }
    let back = word_of(s[p + 4], s[p + 5], s[p + 6], s[p + 7]);
    let a = four_digits(front / 0x1_0000 + back % 0x1_0000 * 0x1_0000)?;
    if back / 0x1_0000 % 0x100 == 10 {
        return Some(joined(p + 6, opcode, a, 0));
    }
    let last = word_of(s[p + 8], s[p + 9], s[p + 10], 0);
    let b = four_digits(back / 0x1_0000 + last % 0x1_0000 * 0x1_0000)?;
    if last / 0x1_0000 == 10 {
        return Some(joined(p + 10, opcode, a, b));
    }
    None
}

// The digits from p on, in one walk: a line's LF stands where they end. Past the tenth they are only passed over.
pub fn digits_one_by_one(s: &[u8], p: usize) -> Digits
    requires { p ≤ length s.now }
    ensures { DigitsFrom s.now p result }
{
    // as p and the least of two numbers, the compiler would count the shift along in each turn
    let stop = if s.len() - p < 10 { s.len() } else { p + 10 };
    let mut number: u64 = 0;
    for e in p..stop {
        let Some(v) = digit_value(s[e]) else {
            return Digits {
                end: e,
                number: number << (40 - 4 * (e - p)),
            };
        };
        number = number * 16 + v;
    }
    Digits {
        end: digits_end(s, stop),
        number: number << (40 - 4 * (stop - p)),
    }
}

// The digits from p on: at once where a whole line lies there and the text's end isn't near, else one by one.
fn digits_from(s: &[u8], p: usize) -> Digits
    requires { p ≤ length s.now }
    ensures { DigitsFrom s.now p result }
{
    if 11 <= s.len() - p {
        if let Some(d) = digits_at_once(s, p) {
            return d;
        }
    }
    digits_one_by_one(s, p)
}

// The shape of each opcode's operands, a digit for each of 16 opcodes, the last for the first. 0: no such opcode; 1: no operand; 2: one;
// 3: two; 4: a count and as many operands. A number for a row, since an array would be made anew for each line.
const SCRIPT_0: u64 = 0x1222_2232_2112_2210; // 0f drain, .., 01 child

const LIST_0: u64 = 0x4111_2212_2211_1120;

const BOTH_1: u64 = 0x2_0223; // 14 write a sample, 12 read name, 11 read, 10 write

const SCRIPT_2: u64 = 0x22_2122; // 25 free need, 24 output of need, 23 allocate need, 22 ignore, 21 assigned, 20 defer

const LIST_2: u64 = 0x12_2222;

const LIST_9: u64 = 0x2; // 90 the size

// The row of the opcodes with this first digit.
#[tactic(auto, unfolding(crate::specs::Shapes::row_of))]
fn row_of(high: u8, kind: TextKind) -> u64
    ensures { result ≡ row_of kind high }
{
    match kind {
        TextKind::Script => match high {
            0 => SCRIPT_0,
            1 => BOTH_1,
            2 => SCRIPT_2,
            _ => 0,
        },
        TextKind::List => match high {
            0 => LIST_0,
            1 => BOTH_1,
            2 => LIST_2,
            9 => LIST_9,
            _ => 0,
        },
    }
}

fn shape_of(opcode: u8, kind: TextKind) -> u8
    ensures { result ≡ shape_of kind opcode }
{
    let row = row_of(opcode / 16, kind);
    ((row >> (4 * (opcode % 16))) % 16) as u8
}

// Whether a line of so many operands, a the first, has the shape.
fn fits(shape: u8, count: usize, a: u16) -> bool
    ensures { result ≡ fit shape count a }
{
    match shape {
        0 => false,
        4 => count == usize::from(a) + 1,
        n => count == usize::from(n - 1),
    }
}

// The frame of a line of n digits whose number it is.
fn frame_by(number: u64, n: usize, kind: TextKind) -> Option<Frame>
    requires { number < 0x10000000000 }
    ensures { result ≡ reading_by kind n number }
{
    if n < 2 || (n - 2) % 4 != 0 {
        return None;
    }
    let frame = unpack(number);
    if fits(shape_of(frame.opcode, kind), (n - 2) / 4, frame.a) {
        return Some(frame);
    }
    None
}

// Where the line after the one that holds e begins.
fn next_line(s: &[u8], e: usize) -> usize
    requires { e ≤ length s.now }
    ensures { NextLine s.now e result }
{
    let q = line_end(s, e);
    if q == s.len() { q } else { q + 1 }
}

// The line at p, whose digits they are. One that holds another byte than digits, or that no LF ends, is malformed. The digits are asked for by the
// callers, so that this is compiled into each of them and what a line is needs no memory.
fn line_at(s: &[u8], p: usize, d: Digits, kind: TextKind) -> TakenLine
    requires in_bounds { p < length s.now }
    requires digits { DigitsFrom s.now p d }
    ensures { Took (reading_of kind) s.now p result }
{
    let e = d.end;
    if e == s.len() {
        return TakenLine {
            frame: None,
            next: e,
        };
    }
    if s[e] == b'\n' {
        let frame = frame_by(d.number, e - p, kind);
        return TakenLine { frame, next: e + 1 };
    }
    TakenLine {
        frame: None,
        next: next_line(s, e),
    }
}

// The line of a script at p.
pub fn frame_at(s: &[u8], p: usize) -> TakenLine
    requires { p < length s.now }
    ensures { Took frame_reading s.now p result }
{
    line_at(s, p, digits_from(s, p), TextKind::Script)
}

// The line of a list at p; the size line is one too, with opcode 90.
pub fn list_line_at(s: &[u8], p: usize) -> TakenLine
    requires { p < length s.now }
    ensures { Took line_reading s.now p result }
{
    line_at(s, p, digits_from(s, p), TextKind::List)
}
