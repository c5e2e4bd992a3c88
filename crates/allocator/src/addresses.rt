// One address: allocated, freed, forgotten. `alloc` and `alloc_in` are edition 1; in those with `_by` the place is a value.
// `allocated` and `forget` take no state, and are those of crate needs.
ghost use Rattle.rules.specs.Sizes.{base};
ghost use Rattle.rules.specs.Slots.{edition1};
ghost use Rattle.rules.specs.Needs as rule;
ghost use Rattle.slots.specs.Spots.{placement_of};
ghost use Rattle.scopes.specs.View.{view, id_of, told};
ghost use Rattle.needs.specs.Kinds.{address_of};
ghost use Rattle.allocator.specs.Entries.{AddressCall};

use crate::{Outcome, checked};
use allocations::addresses;
use needs::Address;
pub use needs::addresses::{allocated, forget};
use scopes::{ScopeId, Scopes};
use slots::Place;

// Local, in the top scope.
#[tactic(auto, unfolding(rules::specs::Slots::placing))]
pub fn alloc(s: Scopes) -> Outcome<Address>
    ensures { AddressCall s (told (λ a. a) (view s) (rule.alloc_address (edition1 base.segments) (view s))) result }
{
    alloc_by(s, Place::ByHead)
}

// The same, by this place.
pub fn alloc_by(s: Scopes, place: Place) -> Outcome<Address>
    ensures { AddressCall s (told (λ a. a) (view s) (rule.alloc_address (placement_of place) (view s))) result }
{
    checked(s, |state| addresses::alloc(state, place)) // 29 before 3, 7
}

// Scope, in the scope that has this id.
#[tactic(auto, unfolding(rules::specs::Slots::placing))]
pub fn alloc_in(s: Scopes, id: ScopeId) -> Outcome<Address>
    ensures { AddressCall s (told (λ a. a) (view s) (rule.alloc_address_in base (edition1 base.segments) (id_of id) (view s))) result }
{
    alloc_in_by(s, id, Place::ByHead)
}

// The same, by this place.
pub fn alloc_in_by(s: Scopes, id: ScopeId, place: Place) -> Outcome<Address>
    ensures { AddressCall s (told (λ a. a) (view s) (rule.alloc_address_in base (placement_of place) (id_of id) (view s))) result }
{
    checked(s, |state| addresses::alloc_in(state, id, place)) // 29 before 4, 7
}

// Freed; the slot goes back as its kind says, and dangles unless freed without dangling.
pub fn free(s: Scopes, a: Address, dangles: bool) -> Outcome<Address>
    ensures { AddressCall s (told (λ b. b) (view s) (rule.free_address dangles (address_of a) (view s))) result }
{
    checked(s, |state| addresses::free(state, a, dangles)) // 29 before 13, 12
}
