// Address records and their kinds, runs of addresses, and needs: what the original has in needs.rs and linear.rs, as far as it asks no
// state. `addresses` is one address, `linear` a run of them, `any` what a need answers. An address is a plain record beside the state.
#![tactic(auto)]

pub mod addresses;
pub mod any;
pub mod linear;

use scopes::ScopeId;
use slots::SlotAddress;

#[derive(Clone, Copy)]
pub enum AddressKind {
    Local,
    Dangling,
    Assigned,
    Freed,
    Scope(ScopeId),
}

#[derive(Clone, Copy)]
pub struct Address {
    pub slot: SlotAddress,
    pub kind: AddressKind,
}

// The addresses first, first + 1, .., all of one kind. An empty one that we hand out is (0, 0, Freed).
#[derive(Clone, Copy)]
pub struct Run {
    pub first: SlotAddress,
    pub count: u16,
    pub kind: AddressKind,
}

#[derive(Clone, Copy)]
pub enum Need {
    Defer(ScopeId),
    Address(Address),
    Ignore,
    Freed,
}

// What a need is as output.
#[derive(Clone, Copy)]
pub enum Output {
    Keep(SlotAddress),
    Discard,
}
