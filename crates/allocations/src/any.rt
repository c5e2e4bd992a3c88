// A need: allocated, freed; a refusal leaves it as it was.
ghost use Rattle.rules.specs.Refusals.{says};
ghost use Rattle.slots.specs.Spots.{placement_of};
ghost use Rattle.scopes.specs.Steps.{Whole};
ghost use Rattle.needs.specs.Answers.{slot_of, output_of};
ghost use Rattle.allocations.specs.Outcomes.{BothBecome, allocation_by, output_by, freeing_need};

use crate::addresses;
use needs::addresses::allocated;
use needs::{Need, Output};
use rules::Refusal;
use scopes::Scopes;
use slots::{Place, SlotAddress};

// Defer becomes a Scope address, Dangling becomes Local; the slot, or nothing. 4, 7.
pub fn allocate(
    s: &mut Scopes,
    need: &mut Need,
    place: Place,
) -> Result<Option<SlotAddress>, Refusal>
    requires { Whole s.old }
    ensures { BothBecome (s.old, need.old) (s.new, need.new) (says slot_of result) (allocation_by (placement_of place)) }
{
    let a = match *need {
        Need::Defer(id) => addresses::alloc_in(s, id, place)?,
        Need::Address(a) => allocated(a),
        Need::Ignore | Need::Freed => return Ok(None),
    };
    *need = Need::Address(a);
    Ok(Some(a.slot))
}

// As allocate; what has no address is discarded.
pub fn allocate_output(s: &mut Scopes, need: &mut Need, place: Place) -> Result<Output, Refusal>
    requires { Whole s.old }
    ensures { BothBecome (s.old, need.old) (s.new, need.new) (says output_of result) (output_by (placement_of place)) }
{
    let slot = allocate(s, need, place)?;
    Ok(Output::from(slot))
}

// Its address is freed, and the need is Freed, whatever it was. 13, 12.
pub fn free_need(s: &mut Scopes, need: &mut Need) -> Result<(), Refusal>
    requires { Whole s.old }
    ensures { BothBecome (s.old, need.old) (s.new, need.new) (says (λ u. u) result) freeing_need }
{
    if let Need::Address(a) = *need {
        addresses::free(s, a, true)?;
    }
    *need = Need::Freed;
    Ok(())
}
