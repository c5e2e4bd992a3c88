// One address: allocated, freed.
ghost use Rattle.rules.specs.Refusals.{says};
ghost use Rattle.rules.specs.Sizes.{base};
ghost use Rattle.rules.specs.Needs as rule;
ghost use Rattle.slots.specs.Spots.{placement_of};
ghost use Rattle.scopes.specs.View.{id_of, told};
ghost use Rattle.scopes.specs.Steps.{Whole, Becomes};
ghost use Rattle.needs.specs.Kinds.{address_of};

use needs::addresses::{forget, goes_back, is_freed};
use needs::{Address, AddressKind};
use rules::Refusal;
use scopes::{ScopeId, Scopes};
use slots::Place;

// Local, in the top scope: 3, 7.
pub fn alloc(s: &mut Scopes, place: Place) -> Result<Address, Refusal>
    requires { Whole s.old }
    ensures { Becomes s.old s.new (says address_of result) (λ c. told (λ a. a) c (rule.alloc_address (placement_of place) c)) }
{
    let slot = s.alloc(place)?;
    Ok(Address {
        slot,
        kind: AddressKind::Local,
    })
}

// Scope, in the scope that has this id: 4, 7.
pub fn alloc_in(s: &mut Scopes, id: ScopeId, place: Place) -> Result<Address, Refusal>
    requires { Whole s.old }
    ensures { Becomes s.old s.new (says address_of result) (λ c. told (λ a. a) c (rule.alloc_address_in base (placement_of place) (id_of id) c)) }
{
    let slot = s.alloc_in(id, place)?;
    Ok(Address {
        slot,
        kind: AddressKind::Scope(id),
    })
}

// 13, then where the slot goes back 12.
pub fn free(s: &mut Scopes, a: Address, dangles: bool) -> Result<Address, Refusal>
    requires { Whole s.old }
    ensures { Becomes s.old s.new (says address_of result) (λ c. told (λ b. b) c (rule.free_address dangles (address_of a) c)) }
{
    if is_freed(a.kind) {
        return Err(Refusal::HandleUnknown);
    }
    if goes_back(&s.number, s.top, a.kind) {
        s.give_back(a.slot, dangles)?;
    }
    Ok(forget(a))
}
