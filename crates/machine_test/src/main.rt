// Runs lists on lent memory and prints, for each, the reading that it shows, what came of it, and behind > the lent memory afterwards, LF as /:
// docs/parts/text.md says why each line is what it is.
#![tactic(auto)]

ghost use Rattle.std.specs.Prelude.{◌≤◌, length};

use cases::{put, put_lines, say, show};
use rules::SLOTS;
use std::io;

fn show_byte(rt: &HostRuntime, b: u8) -> io::Result<()> {
    print!(rt; "{:02x}", u64::from(b))
}

fn show_cells(rt: &HostRuntime, cells: &[u8]) -> io::Result<()> {
    for b in cells {
        show_byte(rt, *b)?;
    }
    Ok(())
}

// Lends the first c bytes of cells and the first o bytes of out.
fn lend(list: &[u8], cells: &mut [u8], c: usize, out: &mut [u8], o: usize) -> u64
    requires c_in_bounds { c ≤ length cells.old }
    requires o_in_bounds { o ≤ length out.old }
{
    machine::run(list, &mut cells[..c], &mut out[..o])
}

// The list on c of 9 bytes of cells that hold 55, and o of 17 bytes of output that hold dots.
fn case(rt: &HostRuntime, label: &[u8], list: &[u8], c: usize, o: usize) -> io::Result<()> {
    let mut cells = [0x55u8; 9];
    let mut out = [b'.'; 17];
    if c <= 9 && o <= 17 {
        rt.write_all(label)?;
        let r = lend(list, &mut cells, c, &mut out, o);
        say(rt, r, &out, 17)?;
        rt.write_all(b" > ")?;
        show_cells(rt, &cells)?;
        rt.write_all(b" ")?;
        show(rt, &out, 0, 17)?;
        rt.write_all(b"\n")?;
    }
    Ok(())
}

fn part(rt: &HostRuntime, label: &[u8], list: &[u8], end: usize) -> io::Result<()>
    requires { end ≤ length list.now }
{
    case(rt, label, &list[..end], 6, 14)
}

// A list of n lines `0f0000`, what stands before them and what follows them.
fn long_under(
    rt: &HostRuntime,
    label: &[u8],
    head: &[u8],
    n: usize,
    tail: &[u8],
) -> io::Result<()> {
    let mut list = [0u8; 14400];
    let w = put(&mut list, 0, head);
    let v = put_lines(&mut list, w, b"0f0000\n", n);
    let end = put(&mut list, v, tail);
    part(rt, label, &list, end)
}

fn long(rt: &HostRuntime, label: &[u8], n: usize, tail: &[u8]) -> io::Result<()> {
    long_under(rt, label, b"", n, tail)
}

// The whole session of document 01.
fn session(rt: &HostRuntime) -> io::Result<()> {
    case(
        rt,
        b"C    ",
        b"010001\n080000\n10000100ff\n09\n120001\n0e\n0c\n02\n0f0003000200000001\n060000\n05\n900003\n",
        6,
        14,
    )
}

// Lines that are malformed.
fn malformed(rt: &HostRuntime) -> io::Result<()> {
    case(rt, b"A01  ", b"0f0000\n900000", 6, 14)?;
    case(rt, b"A03  ", b"\n900000\n", 6, 14)?;
    case(rt, b"A04  ", b"zz\n0f0000\n", 6, 14)?;
    case(rt, b"hex  ", b"0F0000\n900000\n", 6, 14)?;
    case(rt, b"op   ", b"13\n900000\n", 6, 14)
}

// The size line.
fn sized(rt: &HostRuntime) -> io::Result<()> {
    case(rt, b"A11  ", b"900001\n0f0000\n", 6, 14)?;
    case(rt, b"A12  ", b"900001\n9", 6, 14)?;
    case(rt, b"A13  ", b"900001\n900001\n", 6, 14)?;
    case(rt, b"A14  ", b"", 6, 14)?;
    case(rt, b"over ", b"901001\n", 6, 14)
}

// The list on a frame of every slot (W-206); of the cells the first and the last are shown.
fn on_all_slots(rt: &HostRuntime, label: &[u8], list: &[u8]) -> io::Result<()> {
    let mut cells = [0x55u8; 2 * SLOTS];
    let mut out = [b'.'; 17];
    rt.write_all(label)?;
    let r = machine::run(list, &mut cells, &mut out);
    say(rt, r, &out, 17)?;
    rt.write_all(b" > ")?;
    show_byte(rt, cells[0])?;
    show_byte(rt, cells[1])?;
    rt.write_all(b" .. ")?;
    show_byte(rt, cells[2 * SLOTS - 2])?;
    show_byte(rt, cells[2 * SLOTS - 1])?;
    rt.write_all(b"\n")
}

fn all_slots(rt: &HostRuntime) -> io::Result<()> {
    on_all_slots(rt, b"A107 ", b"901000\n")?;
    on_all_slots(rt, b"fff  ", b"100fffbeef\n110fff\n901000\n")?;
    on_all_slots(rt, b"fff- ", b"100fffbeef\n110fff\n900fff\n")
}

// Lines that the machine passes over.
fn shown(rt: &HostRuntime) -> io::Result<()> {
    case(rt, b"A20  ", b"06ffff\n900000\n", 6, 14)?;
    case(rt, b"A21+ ", b"0f0001ffff\n900000\n", 6, 14)?;
    case(rt, b"A21- ", b"0f0002ffff\n900000\n", 6, 14)
}

// The lines of needs (W-201), which are passed over too, and what isn't one.
fn needs(rt: &HostRuntime) -> io::Result<()> {
    case(
        rt,
        b"20.. ",
        b"200000\n220001\n230000\n23ffff\n240000\n210002\n1000000007\n110000\n25\n900001\n",
        6,
        14,
    )?;
    case(rt, b"25+  ", b"250000\n900000\n", 6, 14)?;
    case(rt, b"23-  ", b"23\n900000\n", 6, 14)?;
    case(rt, b"26   ", b"26\n900000\n", 6, 14)
}

// 14 (W-205), with no recording beside the list.
fn sampled(rt: &HostRuntime) -> io::Result<()> {
    case(rt, b"14   ", b"140000\n900001\n", 6, 14)?;
    case(rt, b"14-  ", b"14\n900001\n", 6, 14)?;
    case(rt, b"14+  ", b"1400000001\n900001\n", 6, 14)?;
    case(rt, b"14=  ", b"140000\n140001\n900001\n", 6, 14)?;
    case(rt, b"A151 ", b"0f0000\n1000000005\n140000\n900001\n", 6, 14)?;
    case(rt, b"A101 ", b"140000\n900001\n", 0, 0)
}

// The title (W-211), which is a line of the list, and what isn't one.
fn titled(rt: &HostRuntime) -> io::Result<()> {
    case(rt, b"f0   ", b"f00002\n1000000007\n110000\n900001\n", 6, 14)?;
    case(rt, b"f020 ", b"f00002\n110001\n900001\n", 6, 14)?;
    case(rt, b"f0,1 ", b"0f0000\nf00002\n900000\n", 6, 14)?;
    case(rt, b"f0,0 ", b"f00002\nf00002\n900000\n", 6, 14)?;
    case(rt, b"f0=3 ", b"f00003\n900000\n", 6, 14)?;
    case(rt, b"f0+  ", b"f000020000\n900000\n", 6, 14)?;
    case(rt, b"f0-  ", b"f00002", 6, 14)?;
    case(rt, b"f0.  ", b"f00002\n", 6, 14)
}

// The title among 2,048 lines.
fn titled_long(rt: &HostRuntime) -> io::Result<()> {
    long_under(rt, b"f047 ", b"f00002\n", 2047, b"900001\n")?;
    long_under(rt, b"f048 ", b"f00002\n", 2048, b"900001\n")
}

// Line 2,048, as a size line or not.
fn late(rt: &HostRuntime) -> io::Result<()> {
    long(rt, b"A15  ", 2048, b"")?;
    long(rt, b"A16  ", 2048, b"90ffff\n")?;
    long(rt, b"A17  ", 2048, b"900001\n0")?;
    long(rt, b"A18  ", 2048, b"90000A\n")?;
    long(rt, b"A18- ", 2048, b"900001")
}

// The last lines.
fn last(rt: &HostRuntime) -> io::Result<()> {
    long(rt, b"A05  ", 2048, b"0")?;
    long(rt, b"2049 ", 2048, b"0f0000\n900001\n")?;
    long(rt, b"2048 ", 2048, b"900001\n")?;
    long(rt, b"2047 ", 2047, b"zz\n900001\n")
}

// Stores and loads, and 20.
fn obeyed(rt: &HostRuntime) -> io::Result<()> {
    case(rt, b"A22  ", b"110000\n900001\n", 6, 14)?;
    case(rt, b"10   ", b"100000abcd\n110000\n120000\n900001\n", 6, 14)?;
    case(rt, b"20   ", b"1000000005\n120001\n900001\n", 6, 14)?;
    case(rt, b"20,1 ", b"110001\n900001", 6, 14)
}

// 17, and half a cell.
fn lent(rt: &HostRuntime) -> io::Result<()> {
    case(rt, b"A23+ ", b"110000\n900001\n", 2, 7)?;
    case(rt, b"A23- ", b"110000\n900001\n", 2, 6)?;
    case(rt, b"A24  ", b"110000\n900001\n", 0, 0)?;
    case(rt, b"A25  ", b"110001\n900001\n", 0, 0)?;
    case(rt, b"A27+ ", b"1000000102\n110000\n900001\n", 3, 14)?;
    case(rt, b"A27- ", b"900002\n", 3, 14)
}

fn main(rt: HostRuntime) -> io::Result<()> {
    session(&rt)?;
    malformed(&rt)?;
    sized(&rt)?;
    all_slots(&rt)?;
    shown(&rt)?;
    needs(&rt)?;
    sampled(&rt)?;
    titled(&rt)?;
    titled_long(&rt)?;
    late(&rt)?;
    last(&rt)?;
    obeyed(&rt)?;
    lent(&rt)
}
