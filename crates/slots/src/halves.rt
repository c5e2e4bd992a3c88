// The halves of a state, lent: questions and changes of one slot, and the two searches. No state is copied here.
ghost use Rattle.std.specs.Prelude.{◌≡◌, true, false, ℕ, ◌+◌, ◌-◌, ◌*◌, ◌≤◌, ◌<◌, length};
ghost use Rattle.rules.specs.Options.{option_of};
ghost use Rattle.rules.specs.Notation.{put, past_last};
ghost use Rattle.rules.specs.Sizes.{base, HALVES, SEGMENTS, SLOTS};
ghost use Rattle.rules.specs.Sound.{sound_slots};
ghost use Rattle.rules.specs.Tells.{Tells};
ghost use Rattle.slots.specs.Halves.{occ, clear_from, slots_of, grown_to};

// The language has no From between usize and u64 or u32, so the number of a bit is cast.
use crate::half;
use rules::{HALVES, SEGMENTS, SLOTS};

pub fn occupied(halves: &[u64; HALVES], a: usize) -> bool
    requires { a < SLOTS }
    ensures { result ≡ occ halves.now a }
{
    half::test_bit(halves[a / 64], (a % 64) as u64)
}

// As with set_bit and clear_bit: callers would say true or false for what these two names say.
pub fn occupy(halves: &mut [u64; HALVES], a: usize)
    requires { a < SLOTS }
    ensures halves_after { occ halves.new ≡ put (occ halves.old) a true }
    ensures halves_len { length halves.new ≡ HALVES }
{
    let h = halves[a / 64];
    halves[a / 64] = half::set_bit(h, (a % 64) as u64);
}

pub fn vacate(halves: &mut [u64; HALVES], a: usize)
    requires { a < SLOTS }
    ensures halves_after { occ halves.new ≡ put (occ halves.old) a false }
    ensures halves_len { length halves.new ≡ HALVES }
{
    let h = halves[a / 64];
    halves[a / 64] = half::clear_bit(h, (a % 64) as u64);
}

// The least clear slot from segment `from` on, if there is one.
pub fn first_clear(halves: &[u64; HALVES], from: usize) -> Option<usize>
    requires { from ≤ SEGMENTS }
    ensures { option_of (λ i. i) result ≡ clear_from (occ halves.now) (128 * from) (SLOTS - 128 * from) }
{
    for i in 2 * from..HALVES {
        if let Some(j) = half::lowest_clear(halves[i]) {
            return Some(64 * i + j as usize);
        }
    }
    None
}

// One past the greatest occupied slot, or 0.
pub fn past_greatest(halves: &[u64; HALVES]) -> usize
    ensures { result ≡ past_last (occ halves.now) SLOTS }
{
    for i in (0..HALVES).rev() {
        let h = halves[i];
        if half::has_set(h) {
            return 64 * i + half::past_highest(h) as usize;
        }
    }
    0
}

// No slot from segment `from` on is occupied. It stops at no half (any() would): so it compiles to a straight line, without a loop.
fn none_from(halves: &[u64; HALVES], from: usize) -> bool
    requires { from ≤ SEGMENTS }
    ensures { Tells result ((a : ℕ) → 128 * from ≤ a → a < SLOTS → occ halves.now a ≡ false) }
{
    let mut none = true;
    for i in 0..HALVES {
        if 2 * from <= i {
            none &= !half::has_set(halves[i]);
        }
    }
    none
}

// What 01 asks of the slots of a state handed in. Halves, L and H come one by one: crate scopes has them among other fields.
pub fn are_sound(halves: &[u64; HALVES], segments: usize, head: usize) -> bool
    ensures { result ≡ sound_slots base.segments (slots_of halves.now segments head) }
{
    if SEGMENTS < segments || SEGMENTS <= head {
        return false;
    }
    none_from(halves, segments)
}

// L after a push at g.
pub fn grown(segments: usize, g: usize) -> usize
    ensures { result ≡ grown_to segments g }
{
    if g % 128 == 0 { g / 128 + 1 } else { segments }
}
