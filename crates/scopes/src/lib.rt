// The allocator state: scopes, their slots and their names. Beside the original's scopes.rs.
// Its operations are methods: `open` opens, dangles and restores scopes, `place` gives slots and takes them back, `close` pops, `names`
// binds and finds names, `drain` hands out the dangling list. They change the state where it stands, and leave it as it was on a refusal.
// A number that is proved to fit goes to a narrower type by `as`: `try_from` would bring an error that can't be.

#![tactic(auto)]

pub mod close;
pub mod drain;
pub mod names;
pub mod open;
pub mod place;

ghost use Rattle.std.specs.Prelude.{◌≡◌};
ghost use Rattle.rules.specs.Scopes.{fresh_scopes};
ghost use Rattle.scopes.specs.View.{blank, view};
ghost use Rattle.scopes.specs.Sound.{Sound};
ghost use Rattle.scopes.specs.Steps.{Whole};

use rules::{BINDINGS, DANGLING, HALVES, LINKS, LISTS, SCOPES, SLOTS};
use slots::SlotAddress;

// Whose a slot is that no scope owns.
pub const OF_DANGLING: u8 = DANGLING as u8;

pub const OF_NOBODY: u8 = LISTS as u8;

pub const NO_PARENT: u8 = SCOPES as u8;

#[derive(Clone, Copy)]
pub struct HandleNumber(pub u16);

// An id is an index and a counter number.
#[derive(Clone, Copy)]
pub struct ScopeId {
    pub index: u8,
    pub number: u32,
}

// Fixed memory, no heap: arrays of the rules' sizes. What is told of a scope stands in arrays side by side, so that one test of all scopes compares
// many at once; `specs/View` and the crate `soundness` read the fields, and so a field says by a number beyond its range that there is none.
// `links` and `owner`, which aren't 0 at first, come first: so the 0s of a blank state are written behind them alone, and each byte once.
#[derive(Clone, Copy)]
pub struct Scopes {
    pub links: [u16; LINKS], // the lists of the scopes, and at DANGLING the dangling list
    pub owner: [u8; SLOTS], // the scope that owns the slot; OF_DANGLING: it is dangling, OF_NOBODY: neither
    pub halves: [u64; HALVES], // slots: bit a % 64 of half a / 64
    pub live: [bool; SCOPES],
    pub dangled: [bool; SCOPES],
    pub parent: [u8; SCOPES], // or NO_PARENT
    pub number: [u32; SCOPES],
    pub bindings: [u64; BINDINGS], // in order of definition, each in one number: scope, name, address, handle, moved
    pub count: usize, // of bindings
    pub segments: usize, // L
    pub head: usize, // H
    pub top: usize, // SCOPES: no top
    pub counter: u32,
    pub size: usize,
}

// What a name is bound to.
#[derive(Clone, Copy)]
pub struct Bound {
    pub address: SlotAddress,
    pub handle: HandleNumber,
}

// A state that is returned is copied. One that is to stand where it was made is made blank, each number 0, and begun there.
impl Scopes {
    pub fn blank() -> Scopes
        ensures { result ≡ blank }
    {
        Scopes {
            halves: [0; HALVES],
            links: [0; LINKS],
            owner: [0; SLOTS],
            live: [false; SCOPES],
            dangled: [false; SCOPES],
            parent: [0; SCOPES],
            number: [0; SCOPES],
            bindings: [0; BINDINGS],
            count: 0,
            segments: 0,
            head: 0,
            top: 0,
            counter: 0,
            size: 0,
        }
    }

    // Root alone is live, and is the top.
    pub fn begin(&mut self)
        requires { self.old ≡ blank }
        ensures { (view self.new ≡ fresh_scopes) × Whole self.new }
    {
        links::clear(&mut self.links);
        self.owner = [OF_NOBODY; SLOTS];
        self.parent = [NO_PARENT; SCOPES];
        self.live[0] = true;
        self.counter = 1;
    }
}

// A state that has begun, by value.
pub fn fresh() -> Scopes
    ensures { (view result ≡ fresh_scopes) × Sound result }
{
    let mut s = Scopes::blank();
    s.begin();
    s
}
