// A call on the slots as a number: 65,535 inserts, 65,534 pushes, 65,533 inserts by edition 2, every other number removes the slot of
// that address.
ghost use Rattle.std.specs.Prelude.{◌≡◌};
ghost use Rattle.rules.specs.Notation.{refused};
ghost use Rattle.rules.specs.Refusals.{number_of};
ghost use Rattle.slots.specs.Promises.{view, seen_placing, seen_removing};
ghost use Rattle.bare.specs.Bare.{shown_call, numbered, place_number, remove_number, called};

use rules::Refusal;
use slots::{Placing, Removing, SlotAddress, Slots, insert, insert_lowest, push, remove};

// The state, and what the call answered as a number.
#[derive(Clone, Copy)]
pub struct Shown {
    pub state: Slots,
    pub says: u64,
}

fn refused(why: Refusal) -> u64
    ensures { result ≡ place_number (refused (number_of why)) }
{
    65536 + u64::from(why.number())
}

fn placed(p: Placing) -> Shown
    ensures { shown_call result ≡ numbered place_number (seen_placing p) }
{
    let says = match p.answer {
        Ok(a) => u64::from(a.0),
        Err(why) => refused(why),
    };
    let state = p.state;
    Shown { state, says }
}

// Beside `placed`: another type, and another value in one arm. A `From` for each would be no shorter.
fn removed(p: Removing) -> Shown
    ensures { shown_call result ≡ numbered remove_number (seen_removing p) }
{
    let says = match p.answer {
        Ok(was) => u64::from(was),
        Err(why) => refused(why),
    };
    let state = p.state;
    Shown { state, says }
}

pub fn call(s: Slots, c: u16) -> Shown
    ensures { shown_call result ≡ called c (view s) }
{
    match c {
        65535 => placed(insert(s)),
        65534 => placed(push(s)),
        65533 => placed(insert_lowest(s)),
        _ => removed(remove(s, SlotAddress(c))),
    }
}
