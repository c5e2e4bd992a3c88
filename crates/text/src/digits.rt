// Digits of "lowercase hex": one, and four at once.
ghost use Rattle.std.specs.Prelude.{◌≡◌, ◌<◌, IfSome};
ghost use Rattle.rules.specs.Text.{digit};
ghost use Rattle.text.specs.Lines.{digit_in, Packed, FourDigits, WordMakes};

// The value of a byte, if it is a digit. Only a byte that is none takes a branch: which digit comes next nobody can foretell.
// It is computed in the 64 bits that it is wanted in; in a byte it takes more instructions.
pub fn digit_value(c: u8) -> Option<u64>
    ensures { result ≡ digit_in c }
{
    if c < b'0' || b'f' < c || b'9' < c && c < b'a' {
        return None;
    }
    let w = u64::from(c);
    Some(w % 16 + w / 64 * 9)
}

pub fn digit_of(n: u8) -> u8
    requires { n < 16 }
    ensures { result ≡ digit n }
{
    if n < 10 { b'0' + n } else { b'a' - 10 + n }
}

// ---- four at once

// Four bytes as one number, the first one lowest.
pub fn word_of(a: u8, b: u8, c: u8, d: u8) -> u64
    ensures { Packed a b c d result }
{
    u64::from(a) + u64::from(b) * 0x100 + u64::from(c) * 0x1_0000 + u64::from(d) * 0x100_0000
}

// The number that the bytes of a word make as digits. Their values are found all together and written again: where a byte is no digit,
// another comes out.
pub fn four_digits(bytes: u64) -> Option<u16>
    requires { bytes < 0x100000000 }
    ensures { IfSome result (λ v. WordMakes bytes v) }
{
    let values = (bytes + ((bytes >> 6) & 0x0101_0101) * 9) & 0x0f0f_0f0f;
    let letters = ((values + 0x0606_0606) >> 4) & 0x0101_0101;
    if values + 0x3030_3030 + letters * 39 != bytes {
        return None;
    }
    let pairs = values * 16 + values / 0x100;
    Some((pairs % 0x100 * 0x100 + pairs / 0x1_0000 % 0x100) as u16)
}

// The number that four digits make.
pub fn number_of(a: u8, b: u8, c: u8, d: u8) -> Option<u16>
    ensures { IfSome result (λ v. FourDigits a b c d v) }
{
    four_digits(word_of(a, b, c, d))
}
