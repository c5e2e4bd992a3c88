// 06 alloc, 07 alloc in, 08 linear: slots and their handles. 3 or 4, then 16, then 7.
ghost use Rattle.rules.specs.Frames as frame;
ghost use Rattle.scopes.specs.View.{id_of};
ghost use Rattle.slots.specs.Spots.{placement_of};
ghost use Rattle.frames.specs.Steps.{Stands, LeadsBy, AllotsOne};

use crate::steps::Adds;
use handles::Handles;
use needs::AddressKind;
use needs::linear::run_kind;
use rules::HANDLES;
use rules::refusal::Refusal;
use scopes::{ScopeId, Scopes};
use slots::Place;

pub fn alloc(scopes: &mut Scopes, handles: &mut Handles, place: Place) -> Result<Adds, Refusal>
    requires { Stands scopes.old handles.old }
    ensures { LeadsBy (placement_of place) frame.alloc 0x06 scopes.old handles.old result scopes.new handles.new }
{
    scopes.top_index()?;
    if HANDLES <= handles.handed {
        return Err(Refusal::HandlesFull);
    }
    let first = scopes.alloc(place)?;
    handles.grant(1, first, AddressKind::Local);
    Ok(Adds::Slot(first))
}

// One slot in the scope of that id, and its handle: 4, 16, 7.
pub fn alloc_in_scope(
    scopes: &mut Scopes,
    handles: &mut Handles,
    id: ScopeId,
    place: Place,
) -> Result<Adds, Refusal>
    requires { Stands scopes.old handles.old }
    ensures { AllotsOne (placement_of place) (id_of id) scopes.old handles.old result scopes.new handles.new }
{
    if scopes.index_of(id).is_none() {
        return Err(Refusal::NotLive);
    }
    if HANDLES <= handles.handed {
        return Err(Refusal::HandlesFull);
    }
    let first = scopes.alloc_in(id, place)?;
    handles.grant(1, first, AddressKind::Scope(id));
    Ok(Adds::Slot(first))
}

pub fn alloc_in(
    scopes: &mut Scopes,
    handles: &mut Handles,
    n: u16,
    place: Place,
) -> Result<Adds, Refusal>
    requires { Stands scopes.old handles.old }
    ensures { LeadsBy (placement_of place) (frame.alloc_in n) 0x07 scopes.old handles.old result scopes.new handles.new }
{
    let id = scopes.numbered(u32::from(n))?;
    alloc_in_scope(scopes, handles, id, place)
}

pub fn linear(
    scopes: &mut Scopes,
    handles: &mut Handles,
    n: u16,
    place: Place,
) -> Result<Adds, Refusal>
    requires { Stands scopes.old handles.old }
    ensures { LeadsBy (placement_of place) (frame.linear n) 0x08 scopes.old handles.old result scopes.new handles.new }
{
    scopes.top_index()?;
    let many = usize::from(n);
    if HANDLES < handles.handed + many {
        return Err(Refusal::HandlesFull);
    }
    match scopes.alloc_run(n, place)? {
        None => Ok(Adds::NoSlot),
        Some(first) => {
            handles.grant(many, first, run_kind(n));
            Ok(Adds::Slot(first))
        }
    }
}
