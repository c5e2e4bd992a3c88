// 23 allocate need, 25 free need; and 0c, 0d, 0e beside needs: what concerns a handle that belongs to a need.
ghost use Rattle.std.specs.Prelude.{◌≡◌, true, ◌≤◌, ◌<◌, get_or};
ghost use Rattle.rules.specs.Sizes.{HANDLES, NEEDS};
ghost use Rattle.rules.specs.Needs as rule;
ghost use Rattle.rules.specs.Frames as frame;
ghost use Rattle.scopes.specs.View.{id_of};
ghost use Rattle.needs.specs.Kinds.{need_of};
ghost use Rattle.handles.specs.NeedTable.{need_in};
ghost use Rattle.slots.specs.Spots.{placement_of};
ghost use Rattle.frames.specs.Steps.{freeing, free_code, Stands, Frees};
ghost use Rattle.scopes.specs.declared.Scopes.{Scopes};
ghost use Rattle.frames.specs.Needing.{script, StandsWith, LeadsFrom, LeadsWith, LeadsWithBy};

use crate::allots::alloc_in_scope;
use crate::frees;
use crate::steps::{Adds, Script};
use handles::Handles;
use handles::remembered::{GONE, NeedNumber, Needs};
use needs::{AddressKind, Need};
use rules::refusal::Refusal;
use scopes::{HandleNumber, ScopeId, Scopes};
use slots::Place;

// ---- 0c, 0d, 0e beside needs: 13 also where the handle belongs to one

pub fn free_beside(
    scopes: &mut Scopes,
    handles: &mut Handles,
    needs: &Needs,
    h: HandleNumber,
    dangles: bool,
) -> Result<Adds, Refusal>
    requires { StandsWith (script scopes.old handles.old needs.now) }
    ensures leads { LeadsWith (freeing dangles h.0) (free_code dangles) (script scopes.old handles.old needs.now) result (script scopes.new handles.new needs.now) }
    ensures holders { handles.new.holders ≡ handles.old.holders }
{
    if needs.belongs(h) {
        return Err(Refusal::HandleUnknown);
    }
    frees::free(scopes, handles, h, dangles)
}

pub fn forget_beside(handles: &mut Handles, needs: &Needs, h: HandleNumber) -> Result<Adds, Refusal>
    requires { (handles.old.handed ≤ HANDLES) × (needs.now.needed ≤ NEEDS) }
    ensures leads { (s : Scopes) → LeadsFrom (frame.forget h.0) 0x0e (script s handles.old needs.now) result (script s handles.new needs.now) }
    ensures holders { handles.new.holders ≡ handles.old.holders }
{
    if needs.belongs(h) {
        return Err(Refusal::HandleUnknown);
    }
    frees::forget(handles, h)
}

// ---- 23

// The first time, of the need k, which is deferred to the scope id: 4, 16, 7. The next handle becomes the need's, and the need's
// number in the table that handle's. `as` narrows what fits: where a handle was handed out, its number is below HANDLES.
fn first(script: &mut Script, k: NeedNumber, id: ScopeId, place: Place) -> Result<Adds, Refusal>
    requires stands { StandsWith script.old }
    requires defers { (k.0 < script.old.needs.needed) × (need_in (get_or script.old.needs.table k.0 0) ≡ rule.defer (id_of id)) }
    ensures { LeadsWithBy (placement_of place) (frame.alloc_need k.0) 0x23 script.old result script.new }
{
    let next = script.handles.handed;
    let adds = alloc_in_scope(&mut script.scopes, &mut script.handles, id, place)?;
    let b = script.handles.table[next];
    script.needs.set(k, b, HandleNumber(next as u16));
    Ok(adds)
}

// 21; a deferred need is allocated, an address is answered as it is, and `ffff` for an ignored need.
pub fn allocate(script: &mut Script, k: NeedNumber, place: Place) -> Result<Adds, Refusal>
    requires { StandsWith script.old }
    ensures { LeadsWithBy (placement_of place) (frame.alloc_need k.0) 0x23 script.old result script.new }
{
    let need = script.needs.made(k)?;
    match need {
        Need::Defer(id) => first(script, k, id, place),
        Need::Address(a) => Ok(Adds::Slot(a.slot)),
        Need::Ignore => Ok(Adds::NoSlot),
        Need::Freed => Err(Refusal::NeedUnknown),
    }
}

// ---- 25

// The handle h, which the need d remembers, is freed where it belongs to it: 14, 12.
fn free_own(
    scopes: &mut Scopes,
    handles: &mut Handles,
    h: HandleNumber,
    d: Need,
) -> Result<Adds, Refusal>
    requires { Stands scopes.old handles.old × (frame.owns (need_of d) ≡ true → h.0 < handles.old.handed) }
    ensures frees { Frees (λ t. frame.free_own h.0 t (need_of d)) scopes.old handles.old result scopes.new handles.new }
    ensures holders { handles.new.holders ≡ handles.old.holders }
{
    if let Need::Address(a) = d {
        if let AddressKind::Scope(_) = a.kind {
            let x = handles.known(h)?;
            return frees::free_as(scopes, handles, h, x, a.kind, true);
        }
    }
    Ok(Adds::Nothing)
}

// 21, 14, 12. A need that is gone remembers no handle: the number there is 0, as in the rules.
pub fn free_need(script: &mut Script, k: NeedNumber) -> Result<Adds, Refusal>
    requires { StandsWith script.old }
    ensures leads { LeadsWith (frame.drop_need k.0) 0x25 script.old result script.new }
    ensures holders { script.new.handles.holders ≡ script.old.handles.holders }
{
    let d = script.needs.known(k)?;
    let h = HandleNumber(script.needs.remembers[usize::from(k.0)]);
    let adds = free_own(&mut script.scopes, &mut script.handles, h, d)?;
    script.needs.set(k, GONE, HandleNumber(0));
    Ok(adds)
}
