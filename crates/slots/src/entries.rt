// What a host calls: the state in and out by value. A state that isn't sound is refused by 29; every refusal leaves the state unchanged.
// An address is cast to 16 bits, since it fits: try_from would answer for what the proof rules out. The entries end in if and else, and not
// in an early return, by which the state is copied once more.
ghost use Rattle.std.specs.Prelude.{◌≡◌, true};
ghost use Rattle.rules.specs.Sizes.{base};
ghost use Rattle.rules.specs.Sound.{sound_slots};
ghost use Rattle.rules.specs.Slots as rule;
ghost use Rattle.slots.specs.Promises.{view, seen_placing, seen_removing, placed_or7, removal, inserted_by};
ghost use Rattle.slots.specs.Promises.{FreshPromise, InsertPromise, InsertLowestPromise, InsertByPromise, PushPromise, RemovePromise};

use crate::{Place, Placing, Removing, SlotAddress, Slots, halves, spots};
use rules::{HALVES, Refusal, SLOTS};

impl Slots {
    // What 01 asks of the slots of a state handed in.
    fn is_sound(&self) -> bool
        ensures { result ≡ sound_slots base.segments (view self.now) }
    {
        halves::are_sound(&self.halves, self.segments, self.head)
    }
}

// No slot, no segment.
pub fn fresh() -> Slots
    ensures { FreshPromise result }
{
    Slots {
        halves: [0; HALVES],
        segments: 0,
        head: 0,
    }
}

// insert of edition 1.
pub fn insert(s: Slots) -> Placing
    ensures { InsertPromise s result }
{
    insert_by(s, Place::ByHead)
}

// insert of edition 2: the lowest clear slot of all.
pub fn insert_lowest(s: Slots) -> Placing
    ensures { InsertLowestPromise s result }
{
    insert_by(s, Place::Lowest)
}

fn insert_by(s: Slots, place: Place) -> Placing
    ensures { InsertByPromise place s result }
{
    if s.is_sound() {
        insert_sound(s, place)
    } else {
        Placing {
            state: s,
            answer: Err(Refusal::NotSound),
        }
    }
}

fn insert_sound(s: Slots, place: Place) -> Placing
    requires { sound_slots base.segments (view s) ≡ true }
    ensures { seen_placing result ≡ placed_or7 (view s) (inserted_by place (view s)) }
{
    let mut t = s;
    let Some(spot) = spots::choose(&t.halves, t.segments, t.head, place, 1) else {
        return Placing {
            state: t,
            answer: Err(Refusal::NoSlot),
        };
    };
    halves::occupy(&mut t.halves, spot.address);
    t.segments = spot.segments;
    t.head = spot.head;
    Placing {
        state: t,
        answer: Ok(SlotAddress(spot.address as u16)),
    }
}

pub fn push(s: Slots) -> Placing
    ensures { PushPromise s result }
{
    if s.is_sound() {
        push_sound(s)
    } else {
        Placing {
            state: s,
            answer: Err(Refusal::NotSound),
        }
    }
}

fn push_sound(s: Slots) -> Placing
    requires { sound_slots base.segments (view s) ≡ true }
    ensures { seen_placing result ≡ placed_or7 (view s) (rule.push base.segments (view s)) }
{
    let mut t = s;
    let g = halves::past_greatest(&t.halves);
    if g == SLOTS {
        return Placing {
            state: t,
            answer: Err(Refusal::NoSlot),
        };
    }
    halves::occupy(&mut t.halves, g);
    t.segments = halves::grown(t.segments, g);
    Placing {
        state: t,
        answer: Ok(SlotAddress(g as u16)),
    }
}

pub fn remove(s: Slots, a: SlotAddress) -> Removing
    ensures { RemovePromise s a result }
{
    if s.is_sound() {
        remove_sound(s, usize::from(a.0))
    } else {
        Removing {
            state: s,
            answer: Err(Refusal::NotSound),
        }
    }
}

// As in the original, the head moves wherever the segment exists, also for a slot that is clear.
fn remove_sound(s: Slots, a: usize) -> Removing
    requires { sound_slots base.segments (view s) ≡ true }
    ensures { seen_removing result ≡ removal a (view s) }
{
    let mut t = s;
    if a / 128 < t.segments {
        t.head = a / 128;
        if halves::occupied(&t.halves, a) {
            halves::vacate(&mut t.halves, a);
            let answer = Ok(true);
            return Removing { state: t, answer };
        }
    }
    let answer = Ok(false);
    Removing { state: t, answer }
}
