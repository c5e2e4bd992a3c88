// Names are bound in the top scope, and looked for from there up to root.
ghost use Rattle.std.specs.Prelude.{◌≡◌, ℕ, ◌+◌, ◌<◌, ◌≤◌, false, length};
ghost use Rattle.rules.specs.Refusals.{says};
ghost use Rattle.rules.specs.Sizes.{base, BINDINGS, SCOPES};
ghost use Rattle.rules.specs.Scopes as rule;
ghost use Rattle.scopes.specs.View.{view, binding, bound_to, target, told, told_only, replied};
ghost use Rattle.scopes.specs.Steps.{Whole, Becomes};
ghost use Rattle.scopes.specs.Leaves.{binds, Spots, Placed, place_in, NotesFrom, Nearest, Readable, Unbinds, ClearsFrom};

use crate::{Bound, HandleNumber, Scopes};
use rules::refusal::Refusal;
use rules::{BINDINGS, SCOPES, WORD};
use slots::SlotAddress;

// ---- a binding in one number

// From the low end: moved 1 bit, then handle, address and name, 16 bits each, then the scope. What each part is counted in:
pub const HANDLE_PART: u64 = 2;

pub const ADDRESS_PART: u64 = WORD * HANDLE_PART;

pub const NAME_PART: u64 = WORD * ADDRESS_PART;

pub const SCOPE_PART: u64 = WORD * NAME_PART;

// A binding in one number, not moved.
fn packed(i: usize, name: u16, address: SlotAddress, handle: HandleNumber) -> u64
    requires { i < SCOPES }
    ensures { binding result ≡ record { scope = i; name = name; address = address.0; handle = handle.0; moved = false } }
{
    let key = (i as u64) * WORD + u64::from(name);
    let place = u64::from(address.0) * ADDRESS_PART + u64::from(handle.0) * HANDLE_PART;
    key * NAME_PART + place
}

// What a binding says.
fn bound_of(b: u64) -> Bound
    ensures { bound_to result ≡ target (binding b) }
{
    Bound {
        address: SlotAddress((b / ADDRESS_PART % WORD) as u16),
        handle: HandleNumber((b / HANDLE_PART % WORD) as u16),
    }
}

// ---- where a name is bound

// No place among the bindings, in a table of places. They stay numbers of 16 bits, so that a look-up fills a short table and tests it fast.
const NO_PLACE: u16 = BINDINGS as u16;

// What such a table has for a scope.
fn noted_place(j: u16) -> Option<usize>
    ensures { result ≡ place_in j }
{
    if j < NO_PLACE {
        return Some(usize::from(j));
    }
    None
}

// The place of the binding of `name` in scope i.
fn find(bindings: &[u64; BINDINGS], count: usize, i: usize, name: u16) -> Option<usize>
    requires { (count ≤ BINDINGS) × (i < SCOPES) × (length bindings.now ≡ BINDINGS) }
    ensures { Spots bindings.now count i name result }
{
    let key = (i as u64) * WORD + u64::from(name);
    for j in 0..count {
        if bindings[j] / NAME_PART == key {
            return Some(j);
        }
    }
    None
}

// Whether one of the eight bindings from `from` on is of `name`, in whatever scope: so that `lookup` may pass over eight at a time.
// All eight are looked at, so that they are compared side by side.
fn named(bindings: &[u64; BINDINGS], from: usize, name: u16) -> bool
    requires { (from + 8 ≤ BINDINGS) × (length bindings.now ≡ BINDINGS) }
    ensures { result ≡ false → (i j : ℕ) → from ≤ j → j < from + 8 → binds bindings.now name i j ≡ false }
{
    let key = u64::from(name);
    let mut hit = false;
    for k in 0..8 {
        hit = hit | (bindings[from + k] / NAME_PART % WORD == key);
    }
    hit
}

// Looks through the bindings from `from` up to `to` for `name`, and puts into `places`, at the index of each scope that binds it, where that is.
// The last comes first, so that of two bindings in one scope the first one's place stays.
fn note(places: &mut [u16; SCOPES], bindings: &[u64; BINDINGS], from: usize, to: usize, name: u16)
    requires { (from ≤ to) × (to ≤ BINDINGS) × (length bindings.now ≡ BINDINGS) × (length places.old ≡ SCOPES) }
    ensures { NotesFrom places bindings from to name }
{
    let key = u64::from(name);
    for j in (from..to).rev() {
        let b = bindings[j];
        let i = (b / SCOPE_PART) as usize;
        if b / NAME_PART % WORD == key && i < SCOPES {
            places[i] = j as u16;
        }
    }
}

impl Scopes {
    // Where `places` has the nearest binding of `name`: at scope i, else at its parent, and so on, over `left` scopes at most; NO_PLACE where
    // none of them has it. It stays a number, which `lookup` makes the Option of: calls that hand on an Option aren't compiled to a loop.
    fn climb(&self, places: &[u16; SCOPES], i: usize, left: usize) -> u16
        ensures { (name : ℕ) → Placed self.now.bindings self.now.count name places.now → Nearest self.now name i left (place_in result) }
    {
        // `left` last: asked first, each scope took a quarter more time on one of two processors
        if SCOPES <= i || !self.live[i] || left == 0 {
            return NO_PLACE;
        }
        let j = places[i];
        if j < NO_PLACE {
            return j;
        }
        self.climb(places, usize::from(self.parent[i]), left - 1)
    }

    // The place of the nearest binding of `name`. One walk over the bindings notes the places for all scopes; then the parents are climbed.
    fn lookup(&self, name: u16) -> Option<usize>
        requires { Whole self.now }
        ensures { Nearest self.now name self.now.top SCOPES result }
    {
        let mut places = [NO_PLACE; SCOPES];
        // Eights from the end on: those from the start on were slower by a twentieth.
        let eights = self.count / 8;
        for e in 0..eights {
            let from = self.count - 8 * e - 8;
            if named(&self.bindings, from, name) {
                note(&mut places, &self.bindings, from, from + 8, name);
            }
        }
        note(
            &mut places,
            &self.bindings,
            0,
            self.count - 8 * eights,
            name,
        );
        noted_place(self.climb(&places, self.top, SCOPES))
    }

    // The place of the binding that get and take mean. 3, 10, 11.
    fn readable(&self, name: u16) -> Result<usize, Refusal>
        requires { Whole self.now }
        ensures { Readable self.now name result }
    {
        self.top_index()?;
        let Some(j) = self.lookup(name) else {
            return Err(Refusal::NameMissing);
        };
        if self.bindings[j] % 2 == 1 {
            return Err(Refusal::NameMoved);
        }
        Ok(j)
    }

    // get: the nearest binding of the name, from the top up to root. 3, 10, 11.
    pub fn get(&self, name: u16) -> Result<Bound, Refusal>
        requires { Whole self.now }
        ensures { says bound_to result ≡ replied target (rule.get_name base name (view self.now)) }
    {
        let j = self.readable(name)?;
        Ok(bound_of(self.bindings[j]))
    }

    // take: the same, and the binding is marked moved where it stands. 3, 10, 11.
    pub fn take(&mut self, name: u16) -> Result<Bound, Refusal>
        requires { Whole self.old }
        ensures { Becomes self.old self.new (says bound_to result) (λ c. told target c (rule.take_name base name c)) }
    {
        let j = self.readable(name)?;
        let b = self.bindings[j];
        self.bindings[j] = b + 1;
        Ok(bound_of(b))
    }

    // define: binds in the top, replacing an equal name there and its moved mark. 3, 9.
    pub fn define(
        &mut self,
        name: u16,
        address: SlotAddress,
        handle: HandleNumber,
    ) -> Result<(), Refusal>
        requires { Whole self.old }
        ensures { Becomes self.old self.new (says (λ u. u) result) (λ c. told_only c (rule.define_name base name address.0 handle.0 c)) }
    {
        let top = self.top_index()?;
        let b = packed(top, name, address, handle);
        if let Some(j) = find(&self.bindings, self.count, top, name) {
            self.bindings[j] = b;
            return Ok(());
        }
        if self.count == BINDINGS {
            return Err(Refusal::BindingsFull);
        }
        self.bindings[self.count] = b;
        self.count += 1;
        Ok(())
    }
}

// ---- the bindings of a scope that is closed

// The bindings of scope i go; the others keep their order, and 0 stands behind them. How many are left.
pub fn forget_names(bindings: &mut [u64; BINDINGS], count: usize, i: usize) -> usize
    requires { (count ≤ BINDINGS) × (length bindings.old ≡ BINDINGS) }
    ensures unbinds { Unbinds bindings count i result }
    ensures clears_from { ClearsFrom bindings count result }
{
    let mut w = 0;
    for j in 0..count {
        let b = bindings[j];
        if b / SCOPE_PART != i as u64 {
            bindings[w] = b;
            w += 1;
        }
    }
    bindings[w..count].fill(0);
    w
}
