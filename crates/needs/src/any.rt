// A need (`Any` in the original): a scope in which an address is still to be allocated, an address, nothing wanted, or freed. No state is asked.
ghost use Rattle.std.specs.Prelude.{◌≡◌};
ghost use Rattle.rules.specs.Refusals.{says};
ghost use Rattle.rules.specs.Needs as rule;
ghost use Rattle.needs.specs.Kinds.{address_of, need_of};
ghost use Rattle.needs.specs.Answers.{output_of, output_from, tried_address, told_need, seen_taken, seen_assigned};

use crate::{Address, AddressKind, Need, Output, addresses};
use rules::Refusal;
use slots::SlotAddress;

// Kept where the need is an address, discarded where nothing is wanted.
#[tactic(auto, unfolding(rules::specs::Needs::output_of))]
pub fn output(need: Need) -> Result<Output, Refusal>
    ensures { says output_of result ≡ rule.output_of (need_of need) }
{
    match need {
        Need::Address(a) => Ok(Output::Keep(a.slot)),
        Need::Ignore => Ok(Output::Discard),
        Need::Defer(_) | Need::Freed => Err(Refusal::NoAddress),
    }
}

#[tactic(auto, unfolding(rules::specs::Needs::addr_of))]
pub fn addr(need: Need) -> Result<Address, Refusal>
    ensures { says address_of result ≡ rule.addr_of (need_of need) }
{
    match need {
        Need::Address(a) => Ok(a),
        Need::Defer(_) | Need::Ignore | Need::Freed => Err(Refusal::NoAddress),
    }
}

// The address leaves the need, which is Freed then; a refusal leaves it as it was.
#[tactic(auto, unfolding(rules::specs::Needs::into_addr))]
pub fn into_addr(need: &mut Need) -> Result<Address, Refusal>
    ensures { seen_taken (need.new, result) ≡ told_need (need_of need.old) (rule.into_addr (need_of need.old)) }
{
    let a = addr(*need)?;
    *need = Need::Freed; // its address has left it
    Ok(a)
}

// The address; nothing where there is none.
#[tactic(auto, unfolding(rules::specs::Needs::try_as_addr))]
pub fn try_as_addr(need: Need) -> Result<Option<Address>, Refusal>
    ensures { says tried_address result ≡ rule.try_as_addr (need_of need) }
{
    match need {
        Need::Address(a) => {
            if addresses::is_dangling(a.kind) {
                Err(Refusal::NotInitialised)
            } else {
                Ok(Some(a))
            }
        }
        Need::Defer(_) | Need::Ignore | Need::Freed => Ok(None),
    }
}

// Defer becomes Assigned x; an address other than x answers that x is to be copied to it.
#[tactic(auto, unfolding(rules::specs::Needs::assign_from))]
pub fn assign_from(need: &mut Need, x: SlotAddress) -> Option<SlotAddress>
    ensures { seen_assigned (need.new, result) ≡ rule.assign_from x.0 (need_of need.old) }
{
    match *need {
        Need::Defer(_) => {
            *need = Need::Address(Address {
                slot: x,
                kind: AddressKind::Assigned,
            });
            None
        }
        Need::Address(a) => { if a.slot == x { None } else { Some(a.slot) } }
        Need::Ignore | Need::Freed => None,
    }
}

impl From<Option<SlotAddress>> for Output {
    // What was allocated, as output.
    fn from(slot: Option<SlotAddress>) -> Output
        ensures { result ≡ output_from slot }
    {
        match slot {
            Some(a) => Output::Keep(a),
            None => Output::Discard,
        }
    }
}
