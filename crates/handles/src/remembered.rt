// The needs of a script: each in one number of a table, and in another table the handle that it remembers, as a binding does.
ghost use Rattle.std.specs.Prelude.{◌≡◌, false, ℕ, ◌≤◌, ◌<◌, get_or};
ghost use Rattle.rules.specs.Sizes.{SLOTS, NEEDS};
ghost use Rattle.rules.specs.Needs as rule;
ghost use Rattle.rules.specs.Frames as frame;
ghost use Rattle.scopes.specs.View.{id_of};
ghost use Rattle.needs.specs.Kinds.{need_of};
ghost use Rattle.handles.specs.NeedTable.{need_in, belongs_in, fresh_needs, MadeNeed, KnowsNeed, AddsNeed, with_need};

use crate::{ASSIGNED, FREED, Handle, KIND_PART, SCOPE, code_in, id_in, slot_in};
use needs::{Address, AddressKind, Need};
use rules::NEEDS;
use rules::refusal::Refusal;
use scopes::{HandleNumber, ScopeId};
use slots::SlotAddress;

// Needs count from 0 in the order made. A need's number is neither a handle's nor a slot's.
#[derive(Clone, Copy)]
pub struct NeedNumber(pub u16);

// ---- a need in one number, laid out as a handle's is, with two codes more: so the number of a handle of kind Scope is that of its need

pub const DEFER: u64 = 5;

pub const IGNORE: u64 = 6;

// An ignored need; a freed one.
pub const IGNORED: u64 = IGNORE * KIND_PART;

pub const GONE: u64 = FREED * KIND_PART;

// A need that is deferred to a scope.
pub fn deferred(id: ScopeId) -> u64
    ensures { need_in result ≡ rule.defer (id_of id) }
{
    Handle::new(SlotAddress(0), AddressKind::Scope(id)).packed() + (DEFER - SCOPE) * KIND_PART
}

// A need whose address is assigned from elsewhere.
pub fn assigned(slot: SlotAddress) -> u64
    requires { slot.0 < SLOTS }
    ensures { need_in result ≡ rule.at (rule.address slot.0 rule.assigned) }
{
    Handle::new(slot, AddressKind::Assigned).packed()
}

pub fn need_in(b: u64) -> Need
    ensures { need_of result ≡ need_in b }
{
    let slot = slot_in(b);
    match code_in(b) {
        DEFER => Need::Defer(id_in(b)),
        IGNORE => Need::Ignore,
        ASSIGNED => Need::Address(Address {
            slot,
            kind: AddressKind::Assigned,
        }),
        SCOPE => Need::Address(Address {
            slot,
            kind: AddressKind::Scope(id_in(b)),
        }),
        _ => Need::Freed,
    }
}

// ---- whose handle it is

// So many needs are asked one by one.
const FEW: usize = 8;

// Whether h belongs to the need of number b, which remembers r.
fn is_its(b: u64, r: HandleNumber, h: HandleNumber) -> bool
    ensures { result ≡ frame.keeps (record { need = need_in b; handle = r.0 }) h.0 }
{
    code_in(b) == SCOPE && r.0 == h.0
}

// Whether the table of what needs remember has h somewhere. All of it is looked at, so that its numbers are compared side by side.
fn is_remembered(remembers: &[u16; NEEDS], h: HandleNumber) -> bool
    ensures { result ≡ false → (j : ℕ) → j < NEEDS → get_or remembers.now j 0 ≡ h.0 → ⊥ }
{
    let mut hit = false;
    for r in remembers {
        if *r == h.0 {
            hit = true;
        }
    }
    hit
}

// ---- the needs of a script

#[derive(Clone, Copy)]
pub struct Needs {
    pub table: [u64; NEEDS], // each need in one number
    pub remembers: [u16; NEEDS], // for each need the handle that it remembers
    pub needed: usize, // how many were made: those below it
}

impl Needs {
    pub fn fresh() -> Needs
        ensures { result ≡ fresh_needs }
    {
        Needs {
            table: [0; NEEDS],
            remembers: [0; NEEDS],
            needed: 0,
        }
    }

    // 21 of a need that was never made; of a freed one `Need::Freed`.
    pub fn made(&self, n: NeedNumber) -> Result<Need, Refusal>
        requires { self.now.needed ≤ NEEDS }
        ensures { MadeNeed self.now n.0 result }
    {
        let i = usize::from(n.0);
        if self.needed <= i {
            return Err(Refusal::NeedUnknown);
        }
        Ok(need_in(self.table[i]))
    }

    // 21 of a need that was never made, and of a freed one.
    pub fn known(&self, n: NeedNumber) -> Result<Need, Refusal>
        requires { self.now.needed ≤ NEEDS }
        ensures { KnowsNeed self.now n.0 result }
    {
        match self.made(n)? {
            Need::Freed => Err(Refusal::NeedUnknown),
            d => Ok(d),
        }
    }

    // Whether h belongs to a need.
    pub fn belongs(&self, h: HandleNumber) -> bool
        requires { self.now.needed ≤ NEEDS }
        ensures { result ≡ belongs_in self.now h.0 }
    {
        if FEW < self.needed && !is_remembered(&self.remembers, h) {
            return false;
        }
        for i in 0..self.needed {
            let b = self.table[i];
            let r = self.remembers[i];
            if is_its(b, HandleNumber(r), h) {
                return true;
            }
        }
        false
    }

    // The need n is of number b now, and remembers h.
    pub fn set(&mut self, n: NeedNumber, b: u64, h: HandleNumber)
        requires { n.0 < NEEDS }
        ensures { self.new ≡ with_need self.old n.0 b h.0 }
    {
        let i = usize::from(n.0);
        self.table[i] = b;
        self.remembers[i] = h.0;
    }

    // One more need, of number b, that remembers h: 22.
    pub fn add(&mut self, b: u64, h: HandleNumber) -> Result<NeedNumber, Refusal>
        requires { self.old.needed ≤ NEEDS }
        ensures { AddsNeed (record { need = need_in b; handle = h.0 }) self.old result self.new }
    {
        if NEEDS <= self.needed {
            return Err(Refusal::NeedsFull);
        }
        let n = NeedNumber(self.needed as u16);
        self.set(n, b, h);
        self.needed += 1;
        Ok(n)
    }
}
