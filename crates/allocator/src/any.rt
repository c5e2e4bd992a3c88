// A need: allocated, freed; a refusal leaves it as it was. `allocate` and `allocate_output` are edition 1; in those with `_by` the place
// is a value. The calls over a need alone take no state, and are those of crate needs.
ghost use Rattle.slots.specs.Spots.{placement_of};
ghost use Rattle.scopes.specs.View.{view};
ghost use Rattle.needs.specs.Kinds.{need_of};
ghost use Rattle.allocations.specs.Outcomes.{allocation, allocation_by, output_allocation, output_by, freeing_need};
ghost use Rattle.allocator.specs.Entries.{SlotCall, OutputCall, FreeCall};

use crate::{Outcome, checked_with_need};
use allocations::any;
pub use needs::any::{addr, assign_from, into_addr, output, try_as_addr};
use needs::{Need, Output};
use scopes::Scopes;
use slots::{Place, SlotAddress};

// Defer becomes a Scope address, Dangling becomes Local; the slot, or nothing.
#[tactic(auto, unfolding(rules::specs::Slots::placing))]
pub fn allocate(s: Scopes, need: &mut Need) -> Outcome<Option<SlotAddress>>
    ensures { SlotCall s need.old (allocation (need_of need.old) (view s)) (result, need.new) }
{
    allocate_by(s, need, Place::ByHead)
}

// The same, by this place.
pub fn allocate_by(s: Scopes, need: &mut Need, place: Place) -> Outcome<Option<SlotAddress>>
    ensures { SlotCall s need.old (allocation_by (placement_of place) (need_of need.old) (view s)) (result, need.new) }
{
    checked_with_need(s, need, |state, need| any::allocate(state, need, place)) // 29 before 4, 7
}

// As allocate, as output: keep, or discard.
#[tactic(auto, unfolding(rules::specs::Slots::placing))]
pub fn allocate_output(s: Scopes, need: &mut Need) -> Outcome<Output>
    ensures { OutputCall s need.old (output_allocation (need_of need.old) (view s)) (result, need.new) }
{
    allocate_output_by(s, need, Place::ByHead)
}

// The same, by this place.
pub fn allocate_output_by(s: Scopes, need: &mut Need, place: Place) -> Outcome<Output>
    ensures { OutputCall s need.old (output_by (placement_of place) (need_of need.old) (view s)) (result, need.new) }
{
    checked_with_need(
        s,
        need,
        |state, need| any::allocate_output(state, need, place),
    ) // 29 before 4, 7
}

// Its address is freed; the need is Freed.
pub fn free_need(s: Scopes, need: &mut Need) -> Outcome<()>
    ensures { FreeCall s need.old (freeing_need (need_of need.old) (view s)) (result, need.new) }
{
    checked_with_need(s, need, |state, need| any::free_need(state, need)) // 29 before 13, 12
}
