// Document 01's sessions A to K and its five to run, and scripts of ours, with needs, with samples, of edition 2 and without: for each its label, what `translate` makes of it, the list or the `ee`
// line, and behind > what `translate_and_run` prints on a frame of so many cells. LF is shown as /, nothing as -. Of a long list the last two
// lines are shown.
#![tactic(auto)]

ghost use Rattle.std.specs.Prelude.{◌≤◌, length};
ghost use Rattle.rules.specs.Sizes.{SLOTS, TEXT};

use cases::{put, put_lines, say};
use rules::{SLOTS, TEXT};
use std::io;

// Lends the first n bytes of cells.
fn lend(script: &[u8], cells: &mut [u8], n: usize, out: &mut [u8]) -> u64
    requires { n ≤ length cells.old }
{
    demand3::translate_and_run(script, &mut cells[..n], out)
}

// What the script prints on a frame of so many cells.
fn meant(rt: &HostRuntime, script: &[u8], size: usize) -> io::Result<()>
    requires { size ≤ SLOTS }
{
    let mut cells = [0x55u8; 2 * SLOTS];
    let mut out = [0u8; 14336];
    let r = lend(script, &mut cells, 2 * size, &mut out);
    say(rt, r, &out, 14336)
}

fn case(rt: &HostRuntime, label: &[u8], script: &[u8], last: usize, size: usize) -> io::Result<()>
    requires { size ≤ SLOTS }
{
    let mut list = [0u8; TEXT];
    rt.write_all(label)?;
    let r = translate::translate(script, &mut list);
    say(rt, r, &list, last)?;
    rt.write_all(b" > ")?;
    meant(rt, script, size)?;
    rt.write_all(b"\n")
}

// The script's first `end` bytes, of whose list the last two lines are shown.
fn part(rt: &HostRuntime, label: &[u8], script: &[u8], end: usize, size: usize) -> io::Result<()>
    requires end_in_bounds { end ≤ length script.now }
    requires size_bound { size ≤ SLOTS }
{
    case(rt, label, &script[..end], 14, size)
}

// A title or none, n allocs, and what follows them.
fn long(
    rt: &HostRuntime,
    label: &[u8],
    title: &[u8],
    n: usize,
    tail: &[u8],
    size: usize,
) -> io::Result<()>
    requires { size ≤ SLOTS }
{
    let mut script = [0u8; 1024];
    let first = put(&mut script, 0, title);
    let w = put_lines(&mut script, first, b"06\n", n);
    let end = put(&mut script, w, tail);
    part(rt, label, &script, end, size)
}

// 128 allocs, child, 384 allocs, pop 1, linear 2, alloc: 256, where an insert meets H above L.
fn head_above(rt: &HostRuntime) -> io::Result<()> {
    let mut script = [0u8; 2048];
    let first = put_lines(&mut script, 0, b"06\n", 128);
    let child = put(&mut script, first, b"01\n");
    let more = put_lines(&mut script, child, b"06\n", 384);
    let end = put(&mut script, more, b"020001\n080002\n06\n");
    part(rt, b"R5   ", &script, end, 512)
}

fn whole_session(rt: &HostRuntime, label: &[u8], size: usize) -> io::Result<()>
    requires { size ≤ SLOTS }
{
    case(
        rt,
        label,
        b"01\n080003\n10000100ff\n0900070001\n120007\n0e0001\n0c0002\n020001\n0f\n06\n05\n",
        1024,
        size,
    )
}

fn a_to_f(rt: &HostRuntime) -> io::Result<()> {
    case(rt, b"A    ", b"", 1024, 0)?;
    case(rt, b"B    ", b"080000\n", 1024, 0)?;
    whole_session(rt, b"C    ", 3)?;
    case(rt, b"D    ", b"06\n06\n0c0000\n06\n", 1024, 2)?;
    case(rt, b"E    ", b"06\n06\n0c0000\n080002\n", 1024, 4)?;
    case(rt, b"F    ", b"06\n06\n0c0000\n080001\n", 1024, 2)
}

fn g_to_k(rt: &HostRuntime) -> io::Result<()> {
    case(rt, b"G    ", b"01\n06\n020001\n06\n0c0000\n", 1024, 1)?;
    case(rt, b"H    ", b"01\n030001\n020001\n", 1024, 0)?;
    case(rt, b"I    ", b"01\n01\n020001\n", 1024, 0)?;
    case(
        rt,
        b"J    ",
        b"06\n06\n0900070000\n0b0007\n0900070001\n0a0007\n",
        1024,
        2,
    )?;
    case(rt, b"K    ", b"01\n070000\n0c0000\n06\n", 1024, 2)
}

fn runs(rt: &HostRuntime) -> io::Result<()> {
    long(rt, b"R1   ", b"", 129, b"0c0005\n0c0080\n06\n", 129)?;
    long(rt, b"R2   ", b"", 127, b"080002\n", 129)?;
    case(rt, b"R3   ", b"080400\n", 1024, 1024)?;
    case(rt, b"R3+  ", b"080400\n06\n", 1024, 1025)?;
    case(rt, b"R4   ", b"080401\n", 1024, 1025)
}

// W-206: every slot, and one more; every handle, and one more. Of a run that is too long for both, 16 comes first.
fn room(rt: &HostRuntime) -> io::Result<()> {
    case(rt, b"W1   ", b"081000\n100fff00aa\n110fff\n", 1024, SLOTS)?;
    case(rt, b"W1+  ", b"081000\n06\n", 1024, SLOTS)?;
    case(rt, b"W2   ", b"081001\n", 1024, SLOTS)?;
    case(rt, b"W3   ", b"082000\n", 1024, SLOTS)?;
    case(rt, b"W4   ", b"082001\n", 1024, SLOTS)?;
    case(
        rt,
        b"W5   ",
        b"01\n081000\n020001\n080fff\n06\n101fff00aa\n111fff\n",
        1024,
        SLOTS,
    )?;
    case(
        rt,
        b"W5+  ",
        b"01\n081000\n020001\n080fff\n06\n0c1fff\n06\n",
        1024,
        SLOTS,
    )
}

// The list's first n bytes are lent.
fn lend_list(script: &[u8], list: &mut [u8], n: usize) -> u64
    requires { n ≤ length list.old }
{
    translate::translate(script, &mut list[..n])
}

// The script's first `end` bytes, translated to a list of so many bytes.
fn lent(rt: &HostRuntime, label: &[u8], script: &[u8], end: usize, bytes: usize) -> io::Result<()>
    requires { (end ≤ length script.now) × (bytes ≤ TEXT) }
{
    let mut list = [0u8; TEXT];
    rt.write_all(label)?;
    let r = lend_list(&script[..end], &mut list, bytes);
    say(rt, r, &list, 14)?;
    rt.write_all(b"\n")
}

// All handles are drained, by two drains of every slot, and n lines show a value. With 2,041 of them the script has as many lines as it may, and
// its list 55,267 bytes; we know of none that is longer.
fn longest(rt: &HostRuntime, label: &[u8], n: usize, bytes: usize) -> io::Result<()>
    requires { bytes ≤ TEXT }
{
    let mut script = [0u8; 24576];
    let first = put(&mut script, 0, b"01\n081000\n020001\n0f\n081000\n");
    let w = put_lines(&mut script, first, b"101fff00aa\n", n);
    let end = put(&mut script, w, b"05\n0f\n");
    lent(rt, label, &script, end, bytes)
}

fn longest_lists(rt: &HostRuntime) -> io::Result<()> {
    longest(rt, b"W6   ", 2041, 55267)?;
    longest(rt, b"W6-  ", 2041, 55266)?;
    longest(rt, b"W6+  ", 2042, TEXT)
}

// Slots that another allocation had, or could be taken to have.
fn slots(rt: &HostRuntime) -> io::Result<()> {
    // Two allocations live at the same time. Slot 0 for both would print 2 twice.
    case(
        rt,
        b"P1   ",
        b"06\n06\n1000000001\n1000010002\n110000\n110001\n",
        1024,
        2,
    )?;
    // Handle 2 gets slot 0 again. If free 0 gave back slot 1, or slot 1 came again, handle 1 would print 3.
    case(
        rt,
        b"P2   ",
        b"06\n06\n1000010002\n0c0000\n06\n1000020003\n110001\n110002\n",
        1024,
        2,
    )?;
    // A run beside a gap. From slot 0 on it would lie over handle 1, which would print 3.
    case(
        rt,
        b"P3   ",
        b"06\n06\n1000010001\n0c0000\n080002\n1000020002\n1000030003\n110001\n110002\n110003\n",
        1024,
        4,
    )?;
    // Pop gives back what the child owns. With root's slot too, handle 2 would lie over handle 0, which would print 3.
    case(
        rt,
        b"P4   ",
        b"06\n1000000001\n01\n06\n1000010002\n020001\n06\n1000020003\n110000\n110002\n",
        1024,
        2,
    )
}

// Name 7 in root and in a child. Looked for from root it would print 1 twice, and if it outlived the child 2 twice.
fn names(rt: &HostRuntime) -> io::Result<()> {
    case(
        rt,
        b"P5   ",
        b"06\n06\n1000000001\n1000010002\n0900070000\n01\n0900070001\n120007\n020001\n120007\n",
        1024,
        2,
    )
}

// An insert meets H above L. The Rust gives handle 259 the slot of handle 387, and it would print 55.
fn head_above_read(rt: &HostRuntime) -> io::Result<()> {
    case(
        rt,
        b"P6   ",
        b"01\n080101\n020001\n080002\n06\n080080\n10010300aa\n1001830055\n110103\n110183\n",
        1024,
        257,
    )
}

// Needs (W-201): the three kinds, and a need's handle written, read and named.
fn needs(rt: &HostRuntime) -> io::Result<()> {
    case(
        rt,
        b"Na   ",
        b"01\n200001\n22\n06\n210000\n230000\n240000\n1000010009\n110001\n0900070001\n120007\n230001\n240001\n230002\n240002\n250000\n250001\n250002\n0f\n",
        1024,
        2,
    )?;
    // A second 23 takes no handle: with another one, handle 1 would be the need's, and 0c of it refused.
    case(
        rt,
        b"Nb   ",
        b"200000\n230000\n230000\n06\n0c0001\n",
        1024,
        2,
    )?;
    // A need of root, allocated while a child is the top. If the child owned it, handle 2 would lie over it, and it would print 33.
    case(
        rt,
        b"Nc   ",
        b"200000\n01\n230000\n1000000011\n06\n020001\n06\n1000020033\n110000\n110002\n",
        1024,
        2,
    )?;
    // 25 away from its scope keeps the slot. If it went back, handle 1 would lie over it, and it would print 6.
    case(
        rt,
        b"Nd   ",
        b"200000\n230000\n1000000005\n01\n250000\n06\n1000010006\n110000\n",
        1024,
        2,
    )?;
    // 25 in its scope gives the slot back.
    case(
        rt,
        b"Ne   ",
        b"200000\n230000\n1000000005\n250000\n0f\n06\n1000010006\n110001\n",
        1024,
        1,
    )
}

// 14 (W-205): its line has the address, and its list without a recording gets 23.
fn samples(rt: &HostRuntime) -> io::Result<()> {
    case(rt, b"Sa   ", b"06\n140000\n110000\n", 1024, 1)?;
    // A Freed handle that is still held may be written.
    case(rt, b"Sb   ", b"06\n0e0000\n140000\n110000\n", 1024, 1)?;
    // Handle 1 has slot 0: the line has the address, not the handle.
    case(rt, b"Sc   ", b"06\n0c0000\n06\n140001\n", 1024, 1)?;
    // The allocation is written, for 12 too; a need's handle may be written.
    case(
        rt,
        b"Sd   ",
        b"200000\n230000\n0900070000\n140000\n120007\n",
        1024,
        1,
    )?;
    // 23 before 17.
    case(rt, b"Se   ", b"06\n06\n140001\n", 1024, 0)
}

// As 10 is refused: 1, 13, 14. A write by 14 of another allocation doesn't count for 15.
fn samples_refused(rt: &HostRuntime) -> io::Result<()> {
    case(rt, b"S1   ", b"14\n", 1024, 0)?;
    case(rt, b"S1+  ", b"1400000001\n", 1024, 0)?;
    case(rt, b"S13  ", b"140000\n", 1024, 0)?;
    case(rt, b"S14  ", b"01\n06\n020001\n140000\n", 1024, 1)?;
    case(rt, b"S15  ", b"06\n06\n140000\n110001\n", 1024, 2)
}

// 13 of a need's handle; 4 of a closed scope, whose index was used again; 18, 21.
fn needs_refused(rt: &HostRuntime) -> io::Result<()> {
    case(rt, b"N13  ", b"200000\n230000\n0c0000\n", 1024, 1)?;
    case(rt, b"N4   ", b"01\n200001\n020001\n01\n230000\n", 1024, 0)?;
    case(rt, b"N18  ", b"200000\n240000\n", 1024, 0)?;
    case(rt, b"N21  ", b"22\n250000\n230000\n", 1024, 0)
}

// On 23 of a deferred need 4, 16, 7: no slot left; no handle left; and neither, in a scope that has closed.
fn needs_full(rt: &HostRuntime) -> io::Result<()> {
    case(rt, b"N7   ", b"081000\n200000\n230000\n", 1024, SLOTS)?;
    case(
        rt,
        b"N16  ",
        b"01\n081000\n020001\n01\n081000\n020002\n200000\n230000\n",
        1024,
        SLOTS,
    )?;
    case(
        rt,
        b"N4+  ",
        b"01\n200001\n020001\n01\n081000\n020002\n081000\n230000\n",
        1024,
        SLOTS,
    )
}

// n needs, and what follows them.
fn many_needs(rt: &HostRuntime, label: &[u8], n: usize, tail: &[u8]) -> io::Result<()> {
    let mut script = [0u8; 256];
    let w = put_lines(&mut script, 0, b"22\n", n);
    let end = put(&mut script, w, tail);
    part(rt, label, &script, end, 0)
}

// A 65th need, after 4 or 13; freed needs count.
fn needs_many(rt: &HostRuntime) -> io::Result<()> {
    many_needs(rt, b"N64  ", 63, b"22\n230000\n")?;
    many_needs(rt, b"N22  ", 64, b"22\n")?;
    many_needs(rt, b"N22+ ", 64, b"200001\n")?;
    many_needs(rt, b"N22h ", 64, b"210000\n")?;
    many_needs(rt, b"N22- ", 64, b"250000\n22\n")
}

// Edition 2: the lowest clear slot of all, whatever was removed last; and the same frames by the head.
fn editions(rt: &HostRuntime) -> io::Result<()> {
    long(rt, b"E1   ", b"f00002\n", 129, b"0c0005\n0c0080\n06\n", 129)?;
    case(rt, b"E2   ", b"f00002\n", 1024, 0)?;
    case(
        rt,
        b"E3   ",
        b"081000\n0c0005\n0c0fff\n06\n06\n",
        1024,
        SLOTS,
    )?;
    case(
        rt,
        b"E4   ",
        b"f00002\n081000\n0c0005\n0c0fff\n06\n06\n",
        1024,
        SLOTS,
    )?;
    case(
        rt,
        b"E5   ",
        b"f00002\n081000\n0c0005\n0c0fff\n06\n06\n06\n",
        1024,
        SLOTS,
    )?;
    case(
        rt,
        b"E6   ",
        b"f00002\n080083\n0c0000\n0c0082\n06\n10008300aa\n110083\n080002\n1000840055\n110084\n",
        1024,
        132,
    )?;
    case(
        rt,
        b"E7   ",
        b"080083\n0c0000\n0c0082\n06\n10008300aa\n110083\n080002\n1000840055\n110084\n",
        1024,
        133,
    )?;
    case(
        rt,
        b"E8   ",
        b"f00002\n080083\n0c0000\n0c0082\n200000\n230000\n070000\n",
        1024,
        131,
    )
}

// `f0` with another number, on a later line, torn; a refusal's line counts the title.
fn editions_refused(rt: &HostRuntime) -> io::Result<()> {
    case(rt, b"E1-  ", b"f00003\n06\n", 1024, 0)?;
    case(rt, b"E1+  ", b"06\nf00002\n", 1024, 0)?;
    case(rt, b"E1.  ", b"f00002", 1024, 0)?;
    case(rt, b"E13  ", b"f00002\n110000\n", 1024, 0)
}

fn main(rt: HostRuntime) -> io::Result<()> {
    a_to_f(&rt)?;
    g_to_k(&rt)?;
    runs(&rt)?;
    room(&rt)?;
    longest_lists(&rt)?;
    head_above(&rt)?;
    slots(&rt)?;
    names(&rt)?;
    head_above_read(&rt)?;
    needs(&rt)?;
    needs_refused(&rt)?;
    needs_full(&rt)?;
    needs_many(&rt)?;
    samples(&rt)?;
    samples_refused(&rt)?;
    editions(&rt)?;
    editions_refused(&rt)?;
    // one cell less than its size
    whole_session(&rt, b"C-   ", 2)
}
