// The allocator as a host calls it: every call of document 01 over the state of crate scopes, none with a `requires`. A call that is
// handed a state checks it first: one that isn't sound is refused by 29, and a refusal leaves the state, the need and lent memory as
// they were. `scope` opens and closes scopes and binds names, `addresses` is one address, `linear` a run, `any` a need, `drain` the dangling list.
// Calls with `_by` take a place: an edition, or exactly at an address; those without are edition 1.
#![tactic(auto)]

pub mod addresses;
pub mod any;
pub mod drain;
pub mod linear;
pub mod scope;

ghost use Rattle.std.specs.Prelude.{◌≡◌};
ghost use Rattle.std.specs.Fn.{FnOnceTakesAtMut};
ghost use Rattle.scopes.specs.Steps.{Whole};
ghost use Rattle.allocator.specs.Calls.{Leaves, TakesBoth, LeavesBoth};
ghost use Rattle.allocator.specs.Entries.{unsound};

use needs::Need;
use rules::Refusal;
use scopes::Scopes;
pub use scopes::fresh;

// What a call leaves: the state, and what it gives, or why it is refused.
#[derive(Clone, Copy)]
pub struct Outcome<T> {
    pub state: Scopes,
    pub answer: Result<T, Refusal>,
}

// The state isn't sound, and comes back as it was.
fn turned_away<T>(state: Scopes) -> Outcome<T>
    ensures { result ≡ unsound state }
{
    Outcome {
        state,
        answer: Err(Refusal::NotSound),
    }
}

// 29 first; else what the call leaves and answers. It works on the state that came in: on another, each call would take a copy more.
fn checked<T, F: FnOnce(&mut Scopes) -> Result<T, Refusal>>(mut s: Scopes, call: F) -> Outcome<T>
    requires { Whole s → FnOnceTakesAtMut F.FnOnce call s }
    ensures { Leaves F.FnOnce call s result }
{
    if !soundness::is_sound(s) {
        return turned_away(s);
    }
    let answer = call(&mut s);
    Outcome { state: s, answer }
}

// The same of a call that changes a need too, which is lent to it: of what a closure has borrowed, nothing is known after it was passed on.
fn checked_with_need<T, F: FnOnce(&mut Scopes, &mut Need) -> Result<T, Refusal>>(
    mut s: Scopes,
    need: &mut Need,
    call: F,
) -> Outcome<T>
    requires { Whole s → TakesBoth F.FnOnce call s need.old }
    ensures { LeavesBoth F.FnOnce call s need.old (result, need.new) }
{
    if !soundness::is_sound(s) {
        return turned_away(s);
    }
    let answer = call(&mut s, need);
    Outcome { state: s, answer }
}
