// Pairs of a remove and an insert over a half-full frame, for the figures: each operation a call by value, or the state lent.
ghost use Rattle.std.specs.Prelude.{◌≡◌, ◌+◌, ◌%◌, ◌<◌, true, length};
ghost use Rattle.rules.specs.Sizes.{base, HALVES, SLOTS};
ghost use Rattle.rules.specs.Sound.{sound_slots};
ghost use Rattle.rules.specs.Slots as rule;
ghost use Rattle.slots.specs.Promises.{view, place_says};
ghost use Rattle.bare.specs.Bare.{HALF, address_given, half_full, inserting, pairs_sum, summed};

use rules::{Refusal, SLOTS};
use slots::{SlotAddress, Slots, fresh, halves, insert, remove};

// Half of the slots.
const HALF: usize = SLOTS / 2;

// Cast, since a const calls no function.
const WIDE_HALF: u32 = HALF as u32;

// As many inserts from fresh slots.
fn half_full() -> Slots
    ensures filled { view result ≡ half_full }
    ensures sound { sound_slots base.segments (view result) ≡ true }
{
    let mut s = fresh();
    for _i in 0..HALF {
        let p = insert(s);
        s = p.state;
    }
    s
}

// The slot that the next pair removes. It fits 16 bits, as an address does: try_from would answer for what the proof rules out.
fn next(a: u16, stride: u16) -> u16
    ensures { result ≡ (a + stride) % HALF }
{
    ((u32::from(a) + u32::from(stride)) % WIDE_HALF) as u16
}

// What a pair adds to the sum.
fn address_of(x: Result<SlotAddress, Refusal>) -> u64
    ensures { result ≡ address_given (place_says x) }
{
    match x {
        Ok(a) => u64::from(a.0),
        Err(_) => 0,
    }
}

// The sum of the addresses given by n pairs, each operation a call of the public entry.
#[unsafe(no_mangle)]
pub extern "C" fn bare_pairs_by_value(n: usize, stride: u16) -> u64
    ensures { result ≡ pairs_sum stride n }
{
    let mut s = half_full();
    let mut a: u16 = 0;
    let mut sum: u64 = 0;
    for _i in 0..n {
        let q = remove(s, SlotAddress(a));
        let p = insert(q.state);
        s = p.state;
        sum = sum.wrapping_add(address_of(p.answer));
        a = next(a, stride);
    }
    sum
}

// ---- the state lent, with no check of soundness for each step

// Slot a is removed.
fn take_out(t: &mut Slots, a: usize)
    requires sound { sound_slots base.segments (view t.old) ≡ true }
    requires bounds { (a < SLOTS) × (length t.old.halves ≡ HALVES) }
    ensures removed { view t.new ≡ rule.remove a (view t.old) }
    ensures long { length t.new.halves ≡ HALVES }
{
    if a / 128 < t.segments {
        halves::vacate(&mut t.halves, a);
        t.head = a / 128;
    }
}

// One slot is inserted. 7.
fn put_in(t: &mut Slots) -> Result<SlotAddress, Refusal>
    requires sound { sound_slots base.segments (view t.old) ≡ true }
    requires long { length t.old.halves ≡ HALVES }
    ensures inserted { record { next = view t.new; says = place_says result } ≡ inserting (view t.old) }
    ensures long { length t.new.halves ≡ HALVES }
{
    let Some(a) = halves::first_clear(&t.halves, t.head.min(t.segments)) else {
        return Err(Refusal::NoSlot);
    };
    halves::occupy(&mut t.halves, a);
    t.segments = t.segments.max(a / 128 + 1);
    t.head = a / 128;
    Ok(SlotAddress(a as u16))
}

fn run_lent(s: Slots, n: usize, stride: u16) -> u64
    requires { sound_slots base.segments (view s) ≡ true }
    ensures { result ≡ summed stride n 0 (view s) 0 }
{
    let mut t = s;
    let mut a: u16 = 0;
    let mut sum: u64 = 0;
    for _i in 0..n {
        take_out(&mut t, usize::from(a));
        let given = put_in(&mut t);
        sum = sum.wrapping_add(address_of(given));
        a = next(a, stride);
    }
    sum
}

// The same sum: the state goes in by value once, and each pair works on it where it stands.
#[unsafe(no_mangle)]
pub extern "C" fn bare_pairs_lent(n: usize, stride: u16) -> u64
    ensures { result ≡ pairs_sum stride n }
{
    run_lent(half_full(), n, stride)
}
