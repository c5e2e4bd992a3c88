// What a line of a list asks of the machine: nothing, a store, a store of the next sample, or a load.
ghost use Rattle.std.specs.Prelude.{◌≡◌, ◌<◌, length};
ghost use Rattle.machine.specs.Entries.{entry_for, entry_in, loads_of, takes_of, over_of};

use text::lines::Frame;
use text::table::unpack;

#[derive(Clone, Copy)]
pub enum Entry {
    Skip,
    Store(u16, u16),
    Sample(u16),
    Load(u16),
}

pub fn entry_for(f: Frame) -> Entry
    ensures { result ≡ entry_for f }
{
    match f.opcode {
        0x10 => Entry::Store(f.a, f.b),
        0x11 | 0x12 => Entry::Load(f.a),
        0x14 => Entry::Sample(f.a),
        _ => Entry::Skip,
    }
}

// The entry of line i of the table.
pub fn entry_at(table: &[u64], i: usize) -> Entry
    requires { i < length table.now }
    ensures { result ≡ entry_in table.now i }
{
    entry_for(unpack(table[i]))
}

pub fn loads_of(x: Entry) -> usize
    ensures { result ≡ loads_of x }
{
    match x {
        Entry::Load(_) => 1,
        _ => 0,
    }
}

// How many samples it takes.
pub fn takes_of(x: Entry) -> usize
    ensures { result ≡ takes_of x }
{
    match x {
        Entry::Sample(_) => 1,
        _ => 0,
    }
}

// Whether its address is not below the size. An arm for each, so that in a loop over lines what an entry is gets asked once.
pub fn over(x: Entry, size: usize) -> bool
    ensures { result ≡ over_of size x }
{
    match x {
        Entry::Skip => false,
        Entry::Store(a, _) => size <= usize::from(a),
        Entry::Sample(a) => size <= usize::from(a),
        Entry::Load(a) => size <= usize::from(a),
    }
}
