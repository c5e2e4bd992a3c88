// The work: samples go into the table of lines, and then its lines are obeyed.
ghost use Rattle.std.specs.Prelude.{◌≡◌, ◌+◌, ◌*◌, ◌≤◌, ◌<◌, length};
ghost use Rattle.rules.specs.Sizes.{LINES};
ghost use Rattle.text.specs.Lines.{unpacked};
ghost use Rattle.text.specs.Writing.{over as over_text};
ghost use Rattle.machine.specs.Entries.{entry_for, entries_of, loads_of, takes_of};
ghost use Rattle.machine.specs.Work.{cell_at, stored_of, printed_of, obey_cells, printed_over, loads_in, takes_in, fill_of, filled_from, Reach, Reaches};

use crate::entries::{Entry, entry_at, takes_of};
use crate::lent::{load, store};
use text::lines::Frame;
use text::table::{pack, unpack};
use text::writing::put_line;

// The line's number with sample j, where it takes one: a store like any other.
fn filled(code: u64, samples: &[u8], j: usize) -> u64
    requires { 2 * (j + takes_of (entry_for (unpacked code))) ≤ length samples.now }
    ensures { entry_for (unpacked result) ≡ fill_of (entry_for (unpacked code)) (cell_at samples.now j) }
{
    let f = unpack(code);
    if f.opcode != 0x14 {
        return code;
    }
    let b = load(samples, j);
    pack(Frame {
        opcode: 0x10,
        a: f.a,
        b,
    })
}

// The samples into the lines that take them, in order, each used once.
pub fn fill(table: &mut [u64], lines: usize, takes: usize, samples: &[u8])
    requires lines_in_bounds { (lines ≤ length table.old) × (lines ≤ LINES) }
    requires takes_value { takes ≡ takes_in (entries_of table.old 0 lines) }
    requires takes_in_bounds { 2 * takes ≤ length samples.now }
    ensures { entries_of table.new 0 lines ≡ filled_from samples.now 0 (entries_of table.old 0 lines) }
{
    let mut j: usize = 0;
    for i in 0..lines {
        if j == takes {
            return;
        }
        let n = takes_of(entry_at(table, i));
        table[i] = filled(table[i], samples, j);
        j += n;
    }
}

// One entry: a store into the cells, or `a0` and the loaded value written at w. It answers the next w.
fn obey_one(x: Entry, cells: &mut [u8], out: &mut [u8], w: usize) -> usize
    requires reach { Reach (length cells.old) x }
    requires x_in_bounds { w + 7 * loads_of x ≤ length out.old }
    ensures next { result ≡ w + 7 * loads_of x }
    ensures stored { cells.new ≡ stored_of x cells.old }
    ensures printed { out.new ≡ over_text out.old w (printed_of x cells.old) }
{
    match x {
        Entry::Skip => w,
        Entry::Store(a, v) => {
            store(cells, usize::from(a), v);
            w
        }
        Entry::Sample(_) => w,
        Entry::Load(a) => {
            let v = load(cells, usize::from(a));
            put_line(out, w, 0xa0, &[v])
        }
    }
}

// The whole list. It answers how many bytes it wrote.
pub fn obey(table: &[u64], lines: usize, cells: &mut [u8], out: &mut [u8]) -> usize
    requires lines_in_bounds { (lines ≤ length table.now) × (lines ≤ LINES) }
    requires reaches { Reaches (length cells.old) (entries_of table.now 0 lines) }
    requires lines_in_bounds_2 { 7 * loads_in (entries_of table.now 0 lines) ≤ length out.old }
    ensures wrote { result ≡ 7 * loads_in (entries_of table.now 0 lines) }
    ensures stored { cells.new ≡ obey_cells cells.old (entries_of table.now 0 lines) }
    ensures printed { out.new ≡ printed_over cells.old (entries_of table.now 0 lines) out.old }
{
    let mut w: usize = 0;
    for i in 0..lines {
        w = obey_one(entry_at(table, i), cells, out, w);
    }
    w
}
