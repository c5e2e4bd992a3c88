// Asks of scripts and lists whether they agree, and prints for each the reading that it shows and the answer: docs/parts/supplier.md says why
// each line is what it is.
#![tactic(auto)]

ghost use Rattle.std.specs.Prelude.{◌≡◌, ◌≤◌, length};

use cases::{put, put_lines, say};
use std::io;
use text::writing::put_line;

fn case(rt: &HostRuntime, label: &[u8], script: &[u8], list: &[u8]) -> io::Result<()> {
    rt.write_all(label)?;
    match supplier::agrees(script, list) {
        0 => rt.write_all(b"no")?,
        1 => rt.write_all(b"yes")?,
        r => say(rt, r, b"", 0)?,
    }
    rt.write_all(b"\n")
}

fn part(
    rt: &HostRuntime,
    label: &[u8],
    script: &[u8],
    s: usize,
    list: &[u8],
    l: usize,
) -> io::Result<()>
    requires { (s ≤ length script.now) × (l ≤ length list.now) }
{
    case(rt, label, &script[..s], &list[..l])
}

// What our rules refuse, sizes, and each later line's own address.
fn readings(rt: &HostRuntime) -> io::Result<()> {
    case(rt, b"A94   ", b"081001\n", b"080000\n901000\n")?;
    case(
        rt,
        b"room  ",
        b"081000\n0c0000\n0c0001\n080002\n",
        b"080000\n0c\n0c\n080000\n901000\n",
    )?;
    case(rt, b"A95   ", b"06\n", b"060001\n900001\n")?;
    case(rt, b"A96   ", b"06\n", b"060000\n900400\n")?;
    case(
        rt,
        b"A97   ",
        b"06\n0900070000\n0c0000\n0a0007\n",
        b"060003\n09\n0c\n0a0004\n900005\n",
    )?;
    case(
        rt,
        b"own   ",
        b"06\n0900070000\n0c0000\n0a0007\n",
        b"060003\n09\n0c\n0a0003\n900005\n",
    )?;
    case(
        rt,
        b"A100  ",
        b"06\n0c0000\n06\n0f\n",
        b"060000\n0c\n060001\n0f00010000\n900002\n",
    )?;
    case(
        rt,
        b"again ",
        b"06\n0c0000\n06\n0f\n",
        b"060000\n0c\n060000\n0f0000\n900001\n",
    )?;
    case(
        rt,
        b"ours  ",
        b"06\n0c0000\n06\n0f\n",
        b"060005\n0c\n060001\n0f00010000\n900006\n",
    )
}

// Slots that are held, runs, and what a line adds.
fn conditions(rt: &HostRuntime) -> io::Result<()> {
    case(rt, b"held  ", b"06\n06\n", b"060007\n060007\n900400\n")?;
    case(rt, b"in    ", b"080003\n06\n", b"080010\n060011\n900400\n")?;
    case(
        rt,
        b"run   ",
        b"080003\n1000020007\n110002\n",
        b"080010\n1000120007\n110012\n900013\n",
    )?;
    case(
        rt,
        b"apart ",
        b"080003\n1000020007\n110002\n",
        b"080010\n1000130007\n110013\n900014\n",
    )?;
    case(rt, b"past  ", b"080002\n", b"0803ff\n900400\n")?;
    case(rt, b"empty ", b"080000\n", b"08ffff\n900000\n")?;
    case(rt, b"none  ", b"080000\n", b"080000\n900001\n")?;
    case(
        rt,
        b"value ",
        b"06\n1000000001\n",
        b"060000\n1000000002\n900001\n",
    )?;
    case(rt, b"fewer ", b"06\n06\n", b"060000\n900001\n")?;
    case(rt, b"more  ", b"06\n", b"060000\n060001\n900002\n")?;
    case(rt, b"size  ", b"080002\n", b"080003\n900004\n")?;
    case(rt, b"child ", b"01\n", b"010002\n900000\n")
}

// Needs, samples, both editions; the texts' own refusals.
fn others(rt: &HostRuntime) -> io::Result<()> {
    case(
        rt,
        b"need  ",
        b"200000\n230000\n240000\n250000\n0f\n",
        b"200000\n230009\n240009\n25\n0f00010009\n90000a\n",
    )?;
    case(
        rt,
        b"other ",
        b"200000\n230000\n240000\n",
        b"200000\n230009\n240008\n90000a\n",
    )?;
    case(
        rt,
        b"ffff  ",
        b"22\n230000\n240000\n",
        b"220000\n23ffff\n24ffff\n900000\n",
    )?;
    case(
        rt,
        b"of    ",
        b"06\n210000\n230000\n",
        b"060004\n210000\n230004\n900005\n",
    )?;
    case(
        rt,
        b"14    ",
        b"06\n140000\n110000\n",
        b"060002\n140002\n110002\n900003\n",
    )?;
    case(
        rt,
        b"10    ",
        b"06\n140000\n",
        b"060002\n1000020000\n900003\n",
    )?;
    case(rt, b"f0    ", b"f00002\n06\n", b"f00002\n060005\n900006\n")?;
    case(rt, b"only  ", b"06\n", b"f00002\n060000\n900001\n")?;
    case(rt, b"miss  ", b"f00002\n06\n", b"060000\n900001\n")?;
    case(rt, b"both  ", b"zz\n", b"zz\n")?;
    case(rt, b"list  ", b"06\n", b"060000\n")
}

// n lines `0f` and n lines `0f0000`.
fn many(rt: &HostRuntime, label: &[u8], n: usize) -> io::Result<()> {
    let mut script = [0u8; 8192];
    let mut list = [0u8; 16384];
    let s = put_lines(&mut script, 0, b"0f\n", n);
    let w = put_lines(&mut list, 0, b"0f0000\n", n);
    let l = put(&mut list, w, b"900000\n");
    part(rt, label, &script, s, &list, l)
}

// The last 1,024 slots, from the last one down; the line with address `twice` shows the one before it again.
fn put_down(list: &mut [u8], twice: u16) -> usize
    requires { 7175 ≤ length list.old }
    ensures { (result ≤ length list.new) × (length list.new ≡ length list.old) }
{
    let mut w: usize = 0;
    for a in (3072..4096u16).rev() {
        let shown = if a == twice { a + 1 } else { a };
        w = put_line(list, w, 0x06, &[shown]);
    }
    put(list, w, b"901000\n")
}

fn down(rt: &HostRuntime, label: &[u8], twice: u16) -> io::Result<()> {
    let mut script = [0u8; 3072];
    let mut list = [0u8; 7175];
    let s = put_lines(&mut script, 0, b"06\n", 1024);
    let l = put_down(&mut list, twice);
    part(rt, label, &script, s, &list, l)
}

fn main(rt: HostRuntime) -> io::Result<()> {
    readings(&rt)?;
    conditions(&rt)?;
    others(&rt)?;
    many(&rt, b"2048  ", 2048)?;
    many(&rt, b"2049  ", 2049)?;
    down(&rt, b"down  ", 0)?;
    down(&rt, b"twice ", 3584)
}
