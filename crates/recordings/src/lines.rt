// A whole line of a recording, where one lies there: it is read at once.
ghost use Rattle.std.specs.Prelude.{◌≡◌, true, ◌+◌, ◌≤◌, IfSome, length};
ghost use Rattle.recordings.specs.Reading.{WholeLine};

use text::digits::number_of;

// Whether they are `30`, both at once.
fn is_opcode(a: u8, b: u8) -> bool
    ensures { result ≡ true → (a ≡ 51) × (b ≡ 48) }
{
    u16::from_be_bytes([a, b]) == 0x3330
}

// The sample of the line at p.
pub fn sample_at(part: &[u8], p: usize) -> Option<u16>
    requires { p + 7 ≤ length part.now }
    ensures { IfSome result (λ v. WholeLine part.now p v) }
{
    if is_opcode(part[p], part[p + 1]) && part[p + 6] == b'\n' {
        return number_of(part[p + 2], part[p + 3], part[p + 4], part[p + 5]);
    }
    None
}
