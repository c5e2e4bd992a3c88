// The title of a text, and the check of a whole text before any step: the first line with 1 or 2.
ghost use Rattle.std.specs.Prelude.{◌≡◌, ◌≤◌, length};
ghost use Rattle.std.specs.Int.{from_bool};
ghost use Rattle.rules.specs.Sizes.{base, LINES};
ghost use Rattle.text.specs.Refused.{checked_of};
ghost use Rattle.text.specs.Titles.{Titles, title_in};
ghost use Rattle.text.specs.Whole.{script_left, script_checked, listing, size_listing};
ghost use Rattle.text.specs.Table.{RowsFor, Tabled};

use crate::lines::{frame_at, list_line_at};
use crate::refusal::RefusedAt;
use crate::table::pack;
use rules::{LINES, Refusal, SLOTS};

// The title of a list as a number of the table: opcode f0, operand 2.
const TITLE: u64 = 0xf0_0002_0000;

// The opcode of a size line.
const SIZE: u8 = 0x90;

// Of a list its size, and how many lines stand before the size line.
#[derive(Clone, Copy)]
pub struct Listing {
    pub size: usize,
    pub lines: usize,
}

// Whether the first line of a script, or of a list, is its title.
pub fn has_title(s: &[u8]) -> bool
    ensures { Titles s.now (from_bool result) }
{
    s.starts_with(b"f00002\n")
}

// Checks the lines of a script from a place on, of which the first is the given one. It answers how many frames there are, the title and those
// before the given line among them.
pub fn check_from(s: &[u8], from: usize, line: usize) -> Result<usize, RefusedAt>
    requires { (from ≤ length s.now) × (line ≤ LINES) }
    ensures { checked_of result ≡ script_left base s.now from line }
{
    let mut p = from;
    let mut i = line;
    // a walk over lines of any length, so no `for`
    while p < s.len() {
        if i == LINES {
            return Err(RefusedAt::new(Refusal::LineTooMany, i));
        }
        let t = frame_at(s, p);
        if t.frame.is_none() {
            return Err(RefusedAt::new(Refusal::Malformed, i));
        }
        p = t.next;
        i += 1;
    }
    Ok(i)
}

// Begins behind the title, which is line 0.
pub fn check_script(s: &[u8]) -> Result<usize, RefusedAt>
    ensures { checked_of result ≡ script_checked base s.now }
{
    let first = usize::from(has_title(s));
    check_from(s, 7 * first, first)
}

// The size line, which is line i.
fn sized(n: u16, last: bool, i: usize) -> Result<Listing, RefusedAt>
    requires { i ≤ LINES }
    ensures { checked_of result ≡ size_listing base n last i }
{
    let size = usize::from(n);
    if SLOTS < size || !last {
        return Err(RefusedAt::new(Refusal::Malformed, i));
    }
    Ok(Listing { size, lines: i })
}

// The title is a line of the list: row 0 of the table is its.
fn put_title(table: &mut [u64], titles: usize)
    requires { titles ≤ length table.old }
    ensures { table.new ≡ title_in titles table.old }
{
    if 0 < titles {
        table[0] = TITLE;
    }
}

// Reads a list once: the table has its lines afterwards, its title among them.
pub fn check_list(s: &[u8], table: &mut [u64]) -> Result<Listing, RefusedAt>
    requires { RowsFor s.now table.old }
    ensures value { checked_of result ≡ listing base s.now }
    ensures tabled { Tabled s.now table.new result }
{
    let titles = usize::from(has_title(s));
    put_title(table, titles);
    let mut p = 7 * titles;
    let mut i = titles;
    // a walk over lines of any length, so no `for`
    while p < s.len() {
        let t = list_line_at(s, p);
        match t.frame {
            Some(f) if f.opcode == SIZE => return sized(f.a, t.next == s.len(), i),
            _ if i == LINES => return Err(RefusedAt::new(Refusal::LineTooMany, i)),
            None => return Err(RefusedAt::new(Refusal::Malformed, i)),
            Some(f) => {
                table[i] = pack(f);
                p = t.next;
                i += 1;
            }
        }
    }
    Err(RefusedAt::new(Refusal::Malformed, i))
}
