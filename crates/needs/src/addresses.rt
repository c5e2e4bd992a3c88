// One address: its kind asked and changed, and whether its slot goes back. No state is asked.
ghost use Rattle.std.specs.Prelude.{◌≡◌};
ghost use Rattle.rules.specs.Needs as rule;
ghost use Rattle.needs.specs.Kinds.{kind_of, address_of};
ghost use Rattle.needs.specs.Inner.{back_from};

use crate::{Address, AddressKind};
use rules::SCOPES;

// ---- allocating

pub fn is_dangling(kind: AddressKind) -> bool
    ensures { result ≡ rule.is_dangling (kind_of kind) }
{
    matches!(kind, AddressKind::Dangling)
}

// Dangling becomes Local.
pub fn allocated(a: Address) -> Address
    ensures { address_of result ≡ rule.address a.slot.0 (rule.allocated_kind (kind_of a.kind)) }
{
    if is_dangling(a.kind) {
        return Address {
            kind: AddressKind::Local,
            ..a
        };
    }
    a
}

// ---- freeing

pub fn is_freed(kind: AddressKind) -> bool
    ensures { result ≡ rule.is_freed (kind_of kind) }
{
    matches!(kind, AddressKind::Freed)
}

// The slot of an address of this kind goes back when it is freed.
pub fn goes_back(number: &[u32; SCOPES], top: usize, kind: AddressKind) -> bool
    ensures { result ≡ back_from number.now top kind }
{
    match kind {
        AddressKind::Local | AddressKind::Dangling => true,
        AddressKind::Assigned | AddressKind::Freed => false, // the slot is another's, or has gone back
        AddressKind::Scope(id) => top < SCOPES
            && top == usize::from(id.index)
            && number[top] == id.number,
    }
}

// The kind becomes Freed; the slot stays with its owner.
#[tactic(auto, unfolding(rules::specs::Needs::forget_address))]
pub fn forget(a: Address) -> Address
    ensures { address_of result ≡ rule.forget_address (address_of a) }
{
    Address {
        kind: AddressKind::Freed, // and nothing goes back
        ..a
    }
}
