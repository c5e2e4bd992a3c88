// Checks of a full state, and calls of `allocator` with a small one, for figures: how long a check of a state handed in takes, and an entry that
// is handed one. No product links it.
// Where `as` takes a number to another type, it fits, and the proof says so: `From` has no such step, and `try_from` would bring an error that can't be.
#![tactic(auto)]

ghost use Rattle.std.specs.Prelude.{◌≡◌, ◌-◌, ◌≤◌};
ghost use Rattle.rules.specs.Notation.{given};
ghost use Rattle.rules.specs.Needs as rule;
ghost use Rattle.rules.specs.Refusals.{says};
ghost use Rattle.rules.specs.Sizes.{SCOPES, SLOTS};
ghost use Rattle.scopes.specs.Sound.{Sound};
ghost use Rattle.scopes.specs.View.{view};
ghost use Rattle.needs.specs.Kinds.{address_of};
ghost use Rattle.checks.specs.States.{Idle, Filled, Full};

use allocator::{Outcome, addresses};
use needs::{Address, AddressKind};
use rules::{BINDINGS, SCOPES, SLOTS};
use scopes::{HandleNumber, Scopes};
use slots::{Place, SlotAddress};

// Scopes beside root, as many as there can be; a run of all slots; as many names as there can be.
const CHILDREN: usize = SCOPES - 1;

const ALL: u16 = SLOTS as u16;

const NAMES: u16 = BINDINGS as u16;

// All scopes, in one line.
fn opened() -> Scopes
    ensures { Sound result × Filled (SCOPES - 1) 0 0 (view result) }
{
    let mut s = scopes::fresh();
    for _i in 0..CHILDREN {
        let _ = s.child(); // none is refused
    }
    s
}

// As many names as there can be, in the top scope.
fn bound(t: Scopes) -> Scopes
    requires { Sound t }
    ensures sound { Sound result }
    ensures full { Filled (SCOPES - 1) SLOTS 0 (view t) → Full (view result) }
{
    let mut s = t;
    for name in 0..NAMES {
        let _ = s.define(name, SlotAddress(0), HandleNumber(0)); // none is refused
    }
    s
}

// All scopes, all slots on the list of the top scope, all names.
fn full() -> Scopes
    ensures { Sound result × Full (view result) }
{
    let mut s = opened();
    let _ = s.alloc_run(ALL, Place::ByHead); // it isn't refused
    bound(s)
}

// How many of n checks of the full state say yes, up to the first that does not: all do.
#[unsafe(no_mangle)]
pub extern "C" fn full_checks(n: usize) -> usize
    ensures { result ≡ n }
{
    let s = full();
    // Counted as it goes: an answer of n alone would be given by a loop that checks once.
    let mut yes: usize = 0;
    for _i in 0..n {
        if !soundness::is_sound(s) {
            return yes;
        }
        yes += 1;
    }
    yes
}

// The first slot is allocated, and freed without dangling: two calls.
fn in_turn(s: Scopes) -> Outcome<Address>
    ensures { Sound s → Idle (view s) → (says address_of result.answer ≡ given (rule.address 0 rule.freed)) × Idle (view result.state) × Sound result.state }
{
    let o = addresses::alloc(s);
    let slot = SlotAddress(0);
    let kind = AddressKind::Local;
    addresses::free(o.state, Address { slot, kind }, false)
}

// How many of these pairs of calls are answered, up to the first that is refused.
fn answered(start: Scopes, pairs: usize) -> usize
    ensures most { result ≤ pairs }
    ensures all { Sound start → Idle (view start) → result ≡ pairs }
{
    let mut s = start;
    // Counted as it goes, as in `full_checks`.
    let mut done: usize = 0;
    for _i in 0..pairs {
        let o = in_turn(s);
        if o.answer.is_err() {
            return done;
        }
        s = o.state;
        done += 1;
    }
    done
}

// From a fresh state: all of them are.
#[unsafe(no_mangle)]
pub extern "C" fn entry_pairs(pairs: usize) -> usize
    ensures { result ≡ pairs }
{
    answered(scopes::fresh(), pairs)
}
