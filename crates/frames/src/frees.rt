// 0c free, 0d free without dangling, 0e forget.
ghost use Rattle.std.specs.Prelude.{◌≡◌, ◌≤◌};
ghost use Rattle.rules.specs.Sizes.{HANDLES};
ghost use Rattle.rules.specs.Frames as frame;
ghost use Rattle.needs.specs.Kinds.{kind_of};
ghost use Rattle.handles.specs.Handles.{KnownAs};
ghost use Rattle.frames.specs.Steps.{freeing, free_code, Stands, Frees, Leads, MarksHandles};

use crate::steps::Adds;
use handles::{Handle, Handles};
use needs::AddressKind;
use needs::addresses::goes_back;
use rules::refusal::Refusal;
use scopes::{HandleNumber, Scopes};

// The slot of h, which is known as x, goes back: 14, 12.
fn hand_back(
    scopes: &mut Scopes,
    handles: &mut Handles,
    h: HandleNumber,
    x: Handle,
    dangles: bool,
) -> Result<Adds, Refusal>
    requires { Stands scopes.old handles.old × KnownAs handles.old h.0 x }
    ensures frees { Frees (frame.hand_back dangles h.0) scopes.old handles.old result scopes.new handles.new }
    ensures holders { handles.new.holders ≡ handles.old.holders }
{
    let slot = x.address.slot;
    if !handles.is_held(&scopes.halves, slot, h) {
        return Err(Refusal::NotHeld);
    }
    scopes.give_back(slot, dangles)?;
    handles.set(h, x.forgotten());
    Ok(Adds::Nothing)
}

// The handle h, which is known as x, is freed as an address of that kind: where the slot goes back 14, 12. A need gives its own kind and not the
// handle's, so h, x and kind are no one value.
pub fn free_as(
    scopes: &mut Scopes,
    handles: &mut Handles,
    h: HandleNumber,
    x: Handle,
    kind: AddressKind,
    dangles: bool,
) -> Result<Adds, Refusal>
    requires { Stands scopes.old handles.old × KnownAs handles.old h.0 x }
    ensures frees { Frees (frame.free_as (kind_of kind) dangles h.0) scopes.old handles.old result scopes.new handles.new }
    ensures holders { handles.new.holders ≡ handles.old.holders }
{
    if goes_back(&scopes.number, scopes.top, kind) {
        return hand_back(scopes, handles, h, x, dangles);
    }
    handles.set(h, x.forgotten());
    Ok(Adds::Nothing)
}

// 13, then where the slot goes back 14, 12.
pub fn free(
    scopes: &mut Scopes,
    handles: &mut Handles,
    h: HandleNumber,
    dangles: bool,
) -> Result<Adds, Refusal>
    requires { Stands scopes.old handles.old }
    ensures leads { Leads (freeing dangles h.0) (free_code dangles) scopes.old handles.old result scopes.new handles.new }
    ensures holders { handles.new.holders ≡ handles.old.holders }
{
    let x = handles.unspent(h)?;
    free_as(scopes, handles, h, x, x.address.kind, dangles)
}

// 13.
pub fn forget(handles: &mut Handles, h: HandleNumber) -> Result<Adds, Refusal>
    requires { handles.old.handed ≤ HANDLES }
    ensures leads { MarksHandles (frame.forget h.0) 0x0e handles.old result handles.new }
    ensures holders { handles.new.holders ≡ handles.old.holders }
{
    let x = handles.unspent(h)?;
    handles.set(h, x.forgotten());
    Ok(Adds::Nothing)
}
