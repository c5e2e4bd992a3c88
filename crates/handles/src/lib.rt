// The handles of a script: each in one number of a table, and for each slot the handle that took it last. `remembered` are its needs.
// Where `as` narrows a number, it fits, and the proof says so: `try_from` would bring an error that can't be.
#![tactic(auto)]

pub mod remembered;

ghost use Rattle.std.specs.Prelude.{◌≡◌, ◌+◌, ◌/◌, ◌%◌, ◌≤◌, ◌<◌};
ghost use Rattle.rules.specs.Sizes.{HANDLES, SLOTS};
ghost use Rattle.scopes.specs.View.{id_of};
ghost use Rattle.needs.specs.Kinds.{kind_of};
ghost use Rattle.handles.specs.Handles.{Coded, kind_coded, code_of_kind, id_of_kind, freed_as, slot_in, id_in, unwritten, fresh_handles, Knows, KnowsUnspent, SetsTo, HandsOut, held_by};

use needs::{Address, AddressKind};
use rules::refusal::Refusal;
use rules::{COUNTERS, HALVES, HANDLES, SLOTS, WORD};
use scopes::{HandleNumber, ScopeId};
use slots::{SlotAddress, halves};

// An allocation, as its handle knows it; whether it is held, the slot tells.
#[derive(Clone, Copy)]
pub struct Handle {
    pub address: Address,
    pub written: bool,
}

// ---- a handle in one number. No heap: there is room for 8,192 of them, and as numbers of 8 bytes they take half of what records would.

// From the low end: written 1 bit, kind 3 bits, slot 16, index 8 and number 32 of a Scope kind. What each part is counted in, and below what it is
// where that is no whole width:
pub const KIND_PART: u64 = 2;

pub const KINDS: u64 = 8;

pub const SLOT_PART: u64 = KINDS * KIND_PART;

pub const WIDE_SLOTS: u64 = SLOTS as u64;

pub const INDEX_PART: u64 = WORD * SLOT_PART;

pub const INDEXES: u64 = 256;

pub const NUMBER_PART: u64 = INDEXES * INDEX_PART;

// The code of a kind. Any other is Freed: so a handle that was never handed out, 0, is.
pub const FREED: u64 = 0;

pub const LOCAL: u64 = 1;

pub const DANGLING: u64 = 2;

pub const ASSIGNED: u64 = 3;

pub const SCOPE: u64 = 4;

fn code_of(kind: AddressKind) -> u64
    ensures { result ≡ code_of_kind kind }
{
    match kind {
        AddressKind::Local => LOCAL,
        AddressKind::Dangling => DANGLING,
        AddressKind::Assigned => ASSIGNED,
        AddressKind::Freed => FREED,
        AddressKind::Scope(_) => SCOPE,
    }
}

// Of a kind that has no id it is (0, 0): the place in the number that such a handle leaves 0.
fn id_of(kind: AddressKind) -> ScopeId
    ensures { result ≡ id_of_kind kind }
{
    match kind {
        AddressKind::Scope(id) => id,
        _ => ScopeId {
            index: 0,
            number: 0,
        },
    }
}

fn kind_from(code: u64, id: ScopeId) -> AddressKind
    ensures { kind_of result ≡ kind_coded code (id_of id) }
{
    match code {
        LOCAL => AddressKind::Local,
        DANGLING => AddressKind::Dangling,
        ASSIGNED => AddressKind::Assigned,
        SCOPE => AddressKind::Scope(id),
        _ => AddressKind::Freed,
    }
}

// The parts of a number.
fn code_in(b: u64) -> u64
    ensures { result ≡ b / KIND_PART % KINDS }
{
    b / KIND_PART % KINDS
}

fn slot_in(b: u64) -> SlotAddress
    ensures { result.0 ≡ slot_in b }
{
    SlotAddress((b / SLOT_PART % WIDE_SLOTS) as u16)
}

fn id_in(b: u64) -> ScopeId
    ensures { id_of result ≡ id_in b }
{
    ScopeId {
        index: (b / INDEX_PART % INDEXES) as u8,
        number: (b / NUMBER_PART % COUNTERS) as u32,
    }
}

impl Handle {
    // Of a new allocation, which isn't written.
    pub fn new(slot: SlotAddress, kind: AddressKind) -> Handle
        ensures { result ≡ unwritten slot kind }
    {
        Handle {
            address: Address { slot, kind },
            written: false,
        }
    }

    pub fn packed(self) -> u64
        requires { self.address.slot.0 < SLOTS }
        ensures { Coded result self }
    {
        let kind = self.address.kind;
        let slot = u64::from(self.address.slot.0);
        let id = id_of(kind);
        let place = (u64::from(id.number) * INDEXES + u64::from(id.index)) * WORD + slot;
        (place * KINDS + code_of(kind)) * KIND_PART + u64::from(self.written)
    }

    // No `From<u64>`: not every number is a handle's.
    pub fn unpacked(b: u64) -> Handle
        ensures { Coded b result }
    {
        Handle {
            address: Address {
                slot: slot_in(b),
                kind: kind_from(code_in(b), id_in(b)),
            },
            written: b % 2 == 1,
        }
    }

    // The same handle, with its kind Freed.
    pub fn forgotten(self) -> Handle
        ensures { result ≡ freed_as self }
    {
        Handle {
            address: Address {
                kind: AddressKind::Freed,
                ..self.address
            },
            ..self
        }
    }
}

// ---- the handles of a script

#[derive(Clone, Copy)]
pub struct Handles {
    pub table: [u64; HANDLES], // each handle in one number
    pub holders: [u16; SLOTS], // for each slot the handle that took it last
    pub handed: usize, // how many were handed out: those below it
}

impl Handles {
    pub fn fresh() -> Handles
        ensures { result ≡ fresh_handles }
    {
        Handles {
            table: [0; HANDLES],
            holders: [0; SLOTS],
            handed: 0,
        }
    }

    // 13 of a handle that was never handed out.
    pub fn known(&self, h: HandleNumber) -> Result<Handle, Refusal>
        requires { self.now.handed ≤ HANDLES }
        ensures { Knows self.now h.0 result }
    {
        let i = usize::from(h.0);
        if self.handed <= i {
            return Err(Refusal::HandleUnknown);
        }
        Ok(Handle::unpacked(self.table[i]))
    }

    // 13 of one that is Freed, too.
    pub fn unspent(&self, h: HandleNumber) -> Result<Handle, Refusal>
        requires { self.now.handed ≤ HANDLES }
        ensures { KnowsUnspent self.now h.0 result }
    {
        let x = self.known(h)?;
        match x.address.kind {
            AddressKind::Freed => Err(Refusal::HandleUnknown),
            _ => Ok(x),
        }
    }

    // The slot is occupied, and the handle that took it last is h.
    pub fn is_held(&self, halves: &[u64; HALVES], slot: SlotAddress, h: HandleNumber) -> bool
        requires { slot.0 < SLOTS }
        ensures { result ≡ held_by halves.now self.now.holders slot.0 h.0 }
    {
        let a = usize::from(slot.0);
        halves::occupied(halves, a) && self.holders[a] == h.0
    }

    // The handle h, which was handed out, is x now.
    pub fn set(&mut self, h: HandleNumber, x: Handle)
        requires { (h.0 < HANDLES) × (x.address.slot.0 < SLOTS) }
        ensures { SetsTo self.old h.0 x self.new }
    {
        self.table[usize::from(h.0)] = x.packed();
    }

    // The next n handles go out, for the n slots from `first` on.
    pub fn grant(&mut self, n: usize, first: SlotAddress, kind: AddressKind)
        requires { (self.old.handed + n ≤ HANDLES) × (first.0 + n ≤ SLOTS) }
        ensures { HandsOut self.old n first.0 (kind_of kind) self.new }
    {
        let a = usize::from(first.0);
        for i in 0..n {
            let slot = a + i;
            let h = self.handed + i;
            self.table[h] = Handle::new(SlotAddress(slot as u16), kind).packed();
            self.holders[slot] = h as u16;
        }
        self.handed += n;
    }
}
