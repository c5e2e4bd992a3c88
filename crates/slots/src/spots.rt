// Where the slots of an allocation go, by any placement. Nothing changes here.
ghost use Rattle.std.specs.Prelude.{◌≡◌, true, ◌+◌, ◌≤◌, ◌<◌};
ghost use Rattle.rules.specs.Sizes.{base, SEGMENTS, SLOTS};
ghost use Rattle.rules.specs.Slots.{exactly};
ghost use Rattle.rules.specs.Sound.{sound_slots};
ghost use Rattle.rules.specs.Tells.{Tells};
ghost use Rattle.slots.specs.Halves.{occ, slots_of};
ghost use Rattle.slots.specs.Spots.{placement_of, Vacant, taken_from, pushed_from, going_from, spot_says};

use crate::{Place, Spot, halves as bits};
use rules::{HALVES, SLOTS};

// The slots from a on, `many` of them, are taken one after another: L grows to take in the segment of the last, and H becomes it.
fn taken(segments: usize, a: usize, many: usize) -> Spot
    requires { (a + many ≤ SLOTS) × (0 < many) }
    ensures { result ≡ taken_from segments a many }
{
    let last = (a + many - 1) / 128;
    Spot {
        address: a,
        segments: segments.max(last + 1),
        head: last,
    }
}

// The slots from g on are pushed: where there is a first slot of a segment among them, L becomes the last one's segment and one.
fn pushed(segments: usize, head: usize, g: usize, many: usize) -> Spot
    requires { (g + many ≤ SLOTS) × (0 < many) }
    ensures { result ≡ pushed_from segments head g many }
{
    let last = g + many - 1;
    let segments = if last % 128 < many {
        last / 128 + 1
    } else {
        segments
    };
    Spot {
        address: g,
        segments,
        head,
    }
}

// One slot goes to the least clear one from segment `from` on, two or more past the greatest that is occupied.
fn from_on(
    halves: &[u64; HALVES],
    segments: usize,
    head: usize,
    from: usize,
    many: usize,
) -> Option<Spot>
    requires { (from ≤ SEGMENTS) × (0 < many) × (many < 65536) }
    ensures { spot_says many (slots_of halves.now segments head) result ≡ going_from from many (slots_of halves.now segments head) }
{
    if many == 1 {
        let a = bits::first_clear(halves, from)?;
        return Some(taken(segments, a, 1));
    }
    let g = bits::past_greatest(halves);
    if SLOTS < g + many {
        return None;
    }
    Some(pushed(segments, head, g, many))
}

// The slots from a on, `many` of them, are below the room and clear.
fn vacant(halves: &[u64; HALVES], a: usize, many: usize) -> bool
    requires { (a < 65536) × (many < 65536) }
    ensures { Tells result (Vacant (occ halves.now) a many) }
{
    if SLOTS < a + many {
        return false;
    }
    for b in a..a + many {
        if bits::occupied(halves, b) {
            return false;
        }
    }
    true
}

// The slots from a on, or none where one of them is occupied or beyond the room.
fn exactly_at(
    halves: &[u64; HALVES],
    segments: usize,
    head: usize,
    a: usize,
    many: usize,
) -> Option<Spot>
    requires { (a < 65536) × (0 < many) × (many < 65536) }
    ensures { spot_says many (slots_of halves.now segments head) result ≡ exactly base.segments a many (slots_of halves.now segments head) }
{
    if vacant(halves, a, many) {
        Some(taken(segments, a, many))
    } else {
        None
    }
}

// Where `many` slots go, if there is room. Both editions walk the same halves, from another segment on: edition 1 from min(H, L), edition 2
// from 0; where an address is given, the slots from there on are looked at, and no others.
// Halves, L and H come one by one, here and above: the state of crate scopes has them among other fields.
pub fn choose(
    halves: &[u64; HALVES],
    segments: usize,
    head: usize,
    place: Place,
    many: usize,
) -> Option<Spot>
    requires { (sound_slots base.segments (slots_of halves.now segments head) ≡ true) × (0 < many) × (many < 65536) }
    ensures { spot_says many (slots_of halves.now segments head) result ≡ placement_of place many (slots_of halves.now segments head) }
{
    match place {
        Place::ByHead => from_on(halves, segments, head, head.min(segments), many),
        Place::Lowest => from_on(halves, segments, head, 0, many),
        Place::ExactlyAt(a) => exactly_at(halves, segments, head, usize::from(a.0), many),
    }
}
