// Replays the stored answers of each file that an argument names through what the translating program prints, and says how many there are and
// how many differ.
#![tactic(auto)]

use input::{Input, has_argument, read_argument};
use records::tally::{Tally, replayed};
use std::io;

fn say(rt: &HostRuntime, t: Tally) -> io::Result<()> {
    rt.print(t.records)?;
    rt.write_all(b" replayed, ")?;
    rt.print(t.differ)?;
    rt.write_all(b" differ\n")?;
    if t.first > 0 {
        rt.write_all(b"the first that differs is record ")?;
        rt.print(t.first)?;
        rt.write_all(b"\n")?;
    }
    if t.broken {
        rt.write_all(b"the record after these is broken\n")?;
    }
    Ok(())
}

fn replay(rt: &HostRuntime, k: usize) -> io::Result<()> {
    let mut text = [0u8; 262144];
    match read_argument(rt, k, &mut text) {
        None => Ok(()),
        Some(Input::Full) => rt.write_all(b"no room for the file\n"),
        Some(Input::Whole(n)) => say(rt, replayed(&text[..n])),
    }
}

fn main(rt: HostRuntime) -> io::Result<()> {
    for k in 1..usize::MAX {
        if !has_argument(&rt, k) {
            break;
        }
        replay(&rt, k)?;
    }
    Ok(())
}
