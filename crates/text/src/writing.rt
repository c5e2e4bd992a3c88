// Lines at a position of lent memory. Each function answers the next position.
ghost use Rattle.std.specs.Prelude.{◌≡◌, List, [], ◌∷◌, ◌++◌, ℕ, ◌+◌, ◌*◌, ◌≤◌, ◌<◌, length};
ghost use Rattle.rules.specs.Frames.{shows};
ghost use Rattle.rules.specs.Text.{hex2, hex4, hexes, line_text};
ghost use Rattle.rules.specs.Entries.{ee_text, malformed_text};
ghost use Rattle.text.specs.Writing.{over};

use crate::digits::digit_of;

pub fn put_byte(out: &mut [u8], w: usize, n: u8) -> usize
    requires { w + 2 ≤ length out.old }
    ensures value { result ≡ w + 2 }
    ensures out_after { out.new ≡ over out.old w (hex2 n) }
{
    out[w] = digit_of(n / 16);
    out[w + 1] = digit_of(n % 16);
    w + 2
}

pub fn put_word(out: &mut [u8], w: usize, n: u16) -> usize
    requires { w + 4 ≤ length out.old }
    ensures value { result ≡ w + 4 }
    ensures out_after { out.new ≡ over out.old w (hex4 n) }
{
    let [high, low] = n.to_be_bytes();
    let v = put_byte(out, w, high);
    put_byte(out, v, low)
}

pub fn put_end(out: &mut [u8], w: usize) -> usize
    requires { w + 1 ≤ length out.old }
    ensures value { result ≡ w + 1 }
    ensures out_after { out.new ≡ over out.old w (10 ∷ []) }
{
    out[w] = 10;
    w + 1
}

// Operands, one behind the other.
pub fn put_words(out: &mut [u8], w: usize, ws: &[u16]) -> usize
    requires { w + 4 * length ws.now ≤ length out.old }
    ensures value { result ≡ w + 4 * length ws.now }
    ensures out_after { out.new ≡ over out.old w (hexes ws.now) }
{
    let mut v = w;
    for n in ws {
        v = put_word(out, v, *n);
    }
    v
}

// A line: the opcode, the operands, LF.
pub fn put_line(out: &mut [u8], w: usize, opcode: u8, operands: &[u16]) -> usize
    requires { w + 3 + 4 * length operands.now ≤ length out.old }
    ensures value { result ≡ w + 3 + 4 * length operands.now }
    ensures out_after { out.new ≡ over out.old w (line_text (shows opcode operands.now)) }
{
    let w1 = put_byte(out, w, opcode);
    let w2 = put_words(out, w1, operands);
    put_end(out, w2)
}

// The line of a drain: 0f, the count, the addresses, LF.
pub fn put_drain(out: &mut [u8], w: usize, ws: &[u16]) -> usize
    requires { (length ws.now < 65536) × (w + 7 + 4 * length ws.now ≤ length out.old) }
    ensures value { result ≡ w + 7 + 4 * length ws.now }
    ensures out_after { out.new ≡ over out.old w (line_text (shows 0x0f (length ws.now ∷ ws.now))) }
{
    let w1 = put_byte(out, w, 0x0f);
    let w2 = put_word(out, w1, ws.len() as u16);
    let w3 = put_words(out, w2, ws);
    put_end(out, w3)
}

// The last line of a list: 90 and the size.
pub fn put_size(out: &mut [u8], w: usize, size: u16) -> usize
    requires { w + 7 ≤ length out.old }
    ensures value { result ≡ w + 7 }
    ensures out_after { out.new ≡ over out.old w (line_text (shows 0x90 (size ∷ []))) }
{
    put_line(out, w, 0x90, &[size])
}

// The line of a refusal: ee, the number in two digits, the line in four, LF.
pub fn put_refusal(out: &mut [u8], w: usize, number: u8, line: u16) -> usize
    requires { w + 9 ≤ length out.old }
    ensures value { result ≡ w + 9 }
    ensures out_after { out.new ≡ over out.old w (ee_text number line) }
{
    let w1 = put_byte(out, w, 0xee);
    let w2 = put_byte(out, w1, number);
    let w3 = put_word(out, w2, line);
    put_end(out, w3)
}

// The line of a malformed recording: ee, 18, the recording's line in eight digits, LF.
pub fn put_malformed(out: &mut [u8], w: usize, line: u32) -> usize
    requires { w + 13 ≤ length out.old }
    ensures value { result ≡ w + 13 }
    ensures out_after { out.new ≡ over out.old w (malformed_text line) }
{
    let w1 = put_byte(out, w, 0xee);
    put_line(out, w1, 24, &[(line / 65536) as u16, (line % 65536) as u16])
}
