// Bytes shown, and mixed into one number; numbers that look like chance.

use std::io;

// After a blank.
pub fn show_hex(rt: &HostRuntime, bytes: &[u8]) -> io::Result<()> {
    rt.write_all(b" ")?;
    for b in bytes {
        print!(rt; "{:02x}", u64::from(*b))?;
    }
    Ok(())
}

// After a blank, in sixteen digits: of a state four for the column, four for the value, eight for the line.
pub fn show_state(rt: &HostRuntime, n: u64) -> io::Result<()> {
    rt.write_all(b" ")?;
    print!(rt; "{n:016x}")
}

pub fn show_count(rt: &HostRuntime, words: &[u8], n: u64) -> io::Result<()> {
    rt.write_all(words)?;
    rt.print(n)
}

// The next of a row of numbers that look like chance.
pub fn draw(x: u64) -> u64 {
    let a = x ^ (x << 13);
    let b = a ^ (a >> 7);
    b ^ (b << 17)
}

pub fn mix(digest: u64, n: u64) -> u64 {
    draw(digest ^ n)
}

pub fn mix_bytes(digest: u64, bytes: &[u8]) -> u64 {
    bytes.iter().fold(digest, |d, b| mix(d, u64::from(*b)))
}
