// One 64-bit half of a segment, for either half.
ghost use Rattle.std.specs.Prelude.{◌≡◌, true, false, ◌<◌, ltb};
ghost use Rattle.rules.specs.Options.{option_of};
ghost use Rattle.rules.specs.Notation.{put, past_last};
ghost use Rattle.slots.specs.Halves.{bit, clear_from};

pub fn test_bit(h: u64, i: u64) -> bool
    requires { i < 64 }
    ensures { result ≡ bit h i }
{
    (h >> i) % 2 == 1
}

// One function for both, told the bit, would be no plainer: they differ in the operator, not in a constant.
pub fn set_bit(h: u64, i: u64) -> u64
    requires { i < 64 }
    ensures { bit result ≡ put (bit h) i true }
{
    h | (1 << i)
}

pub fn clear_bit(h: u64, i: u64) -> u64
    requires { i < 64 }
    ensures { bit result ≡ put (bit h) i false }
{
    h & !(1 << i)
}

pub fn has_set(h: u64) -> bool
    ensures { result ≡ ltb 0 (past_last (bit h) 64) }
{
    h != 0
}

// The lowest clear bit, if not every bit is set.
pub fn lowest_clear(h: u64) -> Option<u32>
    ensures { option_of (λ i. i) result ≡ clear_from (bit h) 0 64 }
{
    if h == u64::MAX {
        return None;
    }
    Some(h.trailing_ones())
}

// One past the highest set bit, or 0: what the zeros at the high end leave.
pub fn past_highest(h: u64) -> u32
    ensures { result ≡ past_last (bit h) 64 }
{
    64 - h.leading_zeros()
}
