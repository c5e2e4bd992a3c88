// Address sets (`Dangling` in the original's scopes.rs) through link cells: LISTS lists over SLOTS addresses, in one array that is lent.
// Cell k of `next` is at k, cell k of `prev` at CELLS + k; cells SLOTS + i are the ends of list i; NOWHERE marks an address on no list.
// The array is lent beside others, and a cell is two bytes (fixed memory): so an address on no list has a mark, and not an Option. A cell's
// number is cast to them, since it fits: try_from would answer for what the proof rules out.
#![tactic(auto)]

ghost use Rattle.std.specs.Prelude.{◌≡◌, List, [], ◌∷◌, ℕ, ◌+◌, ◌<◌, length};
ghost use Rattle.rules.specs.Sizes.{LINKS, LISTS, SLOTS};
ghost use Rattle.links.specs.Links.{Held, On, Off, leaves, gains, next_in};
ghost use Rattle.links.specs.Follow.{Ahead, first_of};

use rules::{CELLS, LINKS, LISTS, SLOTS};

// No cell has this number.
pub const NOWHERE: u16 = u16::MAX;

// All lists are empty.
pub fn fresh() -> [u16; LINKS]
    ensures { Held SLOTS LISTS result (λ i. []) }
{
    let mut t = [0; LINKS];
    clear(&mut t);
    t
}

// All lists are empty then, where they stand.
pub fn clear(t: &mut [u16; LINKS])
    ensures { Held SLOTS LISTS t.new (λ i. []) }
{
    *t = [NOWHERE; LINKS];
    for i in 0..LISTS {
        let e = SLOTS + i;
        t[e] = e as u16;
        t[CELLS + e] = e as u16;
    }
}

// List i gains a, which is on no list.
pub fn append(t: &mut [u16; LINKS], i: usize, a: usize)
    requires bounds { (i < LISTS) × (a < SLOTS) }
    requires held { (xs : ℕ → List ℕ) × Held SLOTS LISTS t.old xs × Off LISTS xs a }
    ensures appended { (xs : ℕ → List ℕ) → Held SLOTS LISTS t.old xs → Off LISTS xs a → Held SLOTS LISTS t.new (gains i a xs) }
    ensures long { length t.new ≡ LINKS }
{
    let e = SLOTS + i;
    let last = t[CELLS + e];
    t[usize::from(last)] = a as u16;
    t[a] = e as u16;
    t[CELLS + a] = last;
    t[CELLS + e] = a as u16;
}

// a leaves the list that it is on.
pub fn unlink(t: &mut [u16; LINKS], a: usize)
    requires bounds { a < SLOTS }
    requires held { (xs : ℕ → List ℕ) × Held SLOTS LISTS t.old xs × On LISTS xs a }
    ensures unlinked { (xs : ℕ → List ℕ) → Held SLOTS LISTS t.old xs → On LISTS xs a → Held SLOTS LISTS t.new (leaves a xs) }
    ensures long { length t.new ≡ LINKS }
{
    let before = t[CELLS + a];
    let after = t[a];
    t[usize::from(before)] = after;
    t[a] = NOWHERE;
    t[CELLS + usize::from(after)] = before;
    t[CELLS + a] = NOWHERE;
}

// a leaves the list that it is on, if it is on one.
pub fn leave(t: &mut [u16; LINKS], a: usize)
    requires bounds { a < SLOTS }
    requires held { (xs : ℕ → List ℕ) × Held SLOTS LISTS t.old xs }
    ensures left { (xs : ℕ → List ℕ) → Held SLOTS LISTS t.old xs → Held SLOTS LISTS t.new (leaves a xs) }
    ensures long { length t.new ≡ LINKS }
{
    if t[a] != NOWHERE {
        unlink(t, a);
    }
}

// a leaves the list that it is on, if it is on one, and list i gains it: "a removed and reinserted address goes to the end".
pub fn place(t: &mut [u16; LINKS], i: usize, a: usize)
    requires bounds { (i < LISTS) × (a < SLOTS) }
    requires held { (xs : ℕ → List ℕ) × Held SLOTS LISTS t.old xs }
    ensures placed { (xs : ℕ → List ℕ) → Held SLOTS LISTS t.old xs → Held SLOTS LISTS t.new (gains i a (leaves a xs)) }
    ensures long { length t.new ≡ LINKS }
{
    leave(t, a);
    append(t, i, a);
}

// The first address of list i, if it has one.
pub fn first(t: &[u16; LINKS], i: usize) -> Option<usize>
    requires { i < LISTS }
    ensures { (xs : ℕ → List ℕ) → Held SLOTS LISTS t.now xs → result ≡ first_of (xs i) }
{
    let a = usize::from(t[SLOTS + i]);
    if a < SLOTS { Some(a) } else { None }
}

// Where a walk goes on from the address a: the one after it, or the end e, a cell: what next promises holds of any end, so this is no Option.
pub fn next(t: &[u16; LINKS], a: usize) -> usize
    requires { a < SLOTS }
    ensures { (xs : List ℕ) (e : ℕ) → Ahead (next_in t.now) a (a ∷ xs) e → Ahead (next_in t.now) result xs e }
{
    usize::from(t[a])
}
