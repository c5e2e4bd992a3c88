// Stored answers, read where they lie: a row of records, each a head of 18 bytes (a mark, two lengths of eight digits, LF), a script and
// what is printed for it.
// Where `as` takes a number to another type, it fits, and the proof says so: `From` has no such step, and `try_from` would bring an error that can't be.
#![tactic(auto)]

ghost use Rattle.std.specs.Prelude.{◌≡◌, ◌+◌, ◌≤◌, length};
ghost use Rattle.rules.specs.Text.{value};
ghost use Rattle.std.proofs.Math.Seq.{slice};
ghost use Rattle.text.specs.Lines.{word_at};
ghost use Rattle.records.specs.Records.{same_text, marked, all_hex, head_at, number_at, record_at};

use text::digits::digit_value;

pub mod tally; // the records of a text, replayed and counted

// Where a record's script and answer begin, and where the answer ends.
#[derive(Clone, Copy)]
struct Record {
    script: usize,
    answer: usize,
    end: usize,
}

// Whether two texts are one, byte for byte.
fn same(a: &[u8], b: &[u8]) -> bool
    ensures { result ≡ same_text a.now b.now }
{
    a == b
}

// What a byte counts as a digit: 16 where it is none, as the rules' `value` has it. A record's lengths are read once their digits are checked.
fn weight_of(c: u8) -> usize
    ensures { (result ≡ value c) × (result ≤ 16) }
{
    match digit_value(c) {
        Some(v) => v as usize,
        None => 16,
    }
}

// The number that four digits show.
fn four_at(s: &[u8], p: usize) -> usize
    requires { p + 4 ≤ length s.now }
    ensures { (result ≡ word_at s.now p) × (result ≤ 1114095) }
{
    let a = weight_of(s[p]);
    let b = weight_of(s[p + 1]);
    let c = weight_of(s[p + 2]);
    let d = weight_of(s[p + 3]);
    a * 4096 + b * 256 + c * 16 + d
}

// The number that eight digits show.
fn number_at(s: &[u8], p: usize) -> usize
    requires { p + 8 ≤ length s.now }
    ensures { result ≡ number_at s.now p }
{
    let high = four_at(s, p);
    let low = four_at(s, p + 4);
    high * 65536 + low
}

// Whether a byte says whose answer a record has.
#[tactic(auto, unfolding(crate::specs::Records::marked))]
fn is_mark(b: u8) -> bool
    ensures { result ≡ marked b }
{
    matches!(b, b'o' | b'r' | b'm')
}

// Whether the bytes from p on, below e, are digits.
fn all_hex(s: &[u8], p: usize, e: usize) -> bool
    requires { (p ≤ e) × (e ≤ length s.now) }
    ensures { result ≡ all_hex (slice p e s.now) }
{
    for i in p..e {
        if digit_value(s[i]).is_none() {
            return false;
        }
    }
    true
}

// Whether a record's head stands at p.
#[tactic(auto, unfolding(crate::specs::Records::head_at))]
fn head_at(s: &[u8], p: usize) -> bool
    requires { p + 18 ≤ length s.now }
    ensures { result ≡ head_at s.now p }
{
    is_mark(s[p]) && s[p + 17] == b'\n' && all_hex(s, p + 1, p + 17)
}

// The record at p, if it is none that is broken.
fn record_at(s: &[u8], p: usize) -> Option<Record>
    requires { p ≤ length s.now }
    ensures { result ≡ record_at s.now p }
{
    let left = s.len() - p;
    if left < 18 {
        return None;
    }
    if !head_at(s, p) {
        return None;
    }
    let most = left - 18;
    let script = number_at(s, p + 1);
    if most < script {
        return None;
    }
    let answer = number_at(s, p + 9);
    if most - script < answer {
        return None;
    }
    Some(Record {
        script: p + 18,
        answer: p + 18 + script,
        end: p + 18 + script + answer,
    })
}
