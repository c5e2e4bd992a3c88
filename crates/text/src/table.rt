// A line of a list as one number, for a table of a list's lines: the opcode, then the two operands.
ghost use Rattle.std.specs.Prelude.{◌≡◌};
ghost use Rattle.text.specs.Lines.{unpacked};

use crate::lines::Frame;

pub fn pack(f: Frame) -> u64
    ensures { unpacked result ≡ f }
{
    u64::from(f.opcode) * 0x1_0000_0000 + u64::from(f.a) * 0x1_0000 + u64::from(f.b)
}

pub fn unpack(code: u64) -> Frame
    ensures { result ≡ unpacked code }
{
    let opcode = (code / 0x1_0000_0000 % 0x100) as u8;
    let a = (code / 0x1_0000 % 0x1_0000) as u16;
    let b = (code % 0x1_0000) as u16;
    Frame { opcode, a, b }
}
