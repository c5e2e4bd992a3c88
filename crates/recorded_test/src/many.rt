// Lists of 2,048 lines beside as many samples: what came of the run, the state, cells and the number left over.
ghost use Rattle.std.specs.Prelude.{◌≡◌, ◌≤◌, length};

use crate::bytes::{show_hex, show_state};
use cases::{put, put_lines, say};
use machine::recorded::run_recorded;
use recordings::read_recording;
use std::io;

// A line n times, and a last one.
#[derive(Clone, Copy)]
struct Lines<'a> {
    n: usize,
    line: &'a [u8],
    last: &'a [u8],
}

impl Lines<'_> {
    // Where they end.
    fn put(&self, buf: &mut [u8]) -> usize
        ensures { (result ≤ length buf.new) × (length buf.new ≡ length buf.old) }
    {
        let w = put_lines(buf, 0, self.line, self.n);
        put(buf, w, self.last)
    }
}

// The list beside the recording; m bytes of samples are lent.
fn many(rt: &HostRuntime, label: &[u8], list: Lines, recording: Lines, m: usize) -> io::Result<()>
    requires { m ≤ 4096 }
{
    let mut lines = [0u8; 14400];
    let mut read = [0u8; 14400];
    let mut samples = [0x55u8; 4096];
    let mut cells = [0x55u8; 2];
    let mut out = [b'.'; 7];
    let mut left = [0x55u8; 4];
    let end = list.put(&mut lines);
    let e = recording.put(&mut read);
    let state = read_recording(0, &mut samples, &read[..e]);
    let r = run_recorded(
        &lines[..end],
        state,
        &samples[..m],
        &mut cells,
        &mut out,
        &mut left,
    );
    rt.write_all(label)?;
    say(rt, r, &out, 7)?;
    rt.write_all(b" >")?;
    show_state(rt, state)?;
    show_hex(rt, &cells)?;
    show_hex(rt, &left)?;
    rt.write_all(b"\n")
}

// 2,048 lines 14, beside n samples 0001 and beef.
fn taken(rt: &HostRuntime, label: &[u8], n: usize, m: usize) -> io::Result<()>
    requires { m ≤ 4096 }
{
    let list = Lines {
        n: 2048,
        line: b"140000\n",
        last: b"900001\n",
    };
    let recording = Lines {
        n,
        line: b"300001\n",
        last: b"30beef\n",
    };
    many(rt, label, list, recording, m)
}

// A line too many, and a slot that is not below the size: 2 comes before 20.
fn too_many(rt: &HostRuntime, label: &[u8]) -> io::Result<()> {
    let list = Lines {
        n: 2048,
        line: b"140001\n",
        last: b"0f0000\n900001\n",
    };
    let recording = Lines {
        n: 0,
        line: b"",
        last: b"x",
    };
    many(rt, label, list, recording, 0)
}

pub fn long_lists(rt: &HostRuntime) -> io::Result<()> {
    taken(rt, b"2048  ", 2047, 4096)?;
    taken(rt, b"2048+ ", 2048, 4096)?;
    taken(rt, b"2048- ", 2046, 4096)?;
    taken(rt, b"2048s ", 2047, 4095)?;
    too_many(rt, b"2,20  ")
}
