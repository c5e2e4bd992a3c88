// The cells hold the lists, and each address is on the one that its owner says: of any content, so each walk has a bound on its steps.
ghost use Rattle.std.specs.Prelude.{◌≡◌, true, ◌<◌, length, get_or};
ghost use Rattle.rules.specs.Sizes.{LISTS, SLOTS};
ghost use Rattle.rules.specs.Tells.{Tells};
ghost use Rattle.links.specs.Follow.{lists};
ghost use Rattle.scopes.specs.Sound.{Ringed};
ghost use Rattle.soundness.specs.Parts.{Below, round, mark, last_of, Marks, MarkedAt};

use links::NOWHERE;
use rules::{CELLS, LISTS, SLOTS};
use scopes::{OF_NOBODY, Scopes};

// More steps than a list can take.
const WALK: usize = SLOTS + 1;

// List i goes round, over addresses of owner i alone; they are marked.
pub fn ring(s: &Scopes, marks: &mut [u8; SLOTS], i: usize) -> bool
    requires { i < LISTS }
    ensures value { result ≡ round SLOTS LISTS s.now.links s.now.owner i }
    ensures marked { result ≡ true → marks.new ≡ mark (lists SLOTS s.now.links i) i marks.old }
{
    let end = SLOTS + i;
    let mut before = end;
    let mut cell = usize::from(s.links[end]);
    for _step in 0..WALK {
        if SLOTS <= cell {
            return cell == end && usize::from(s.links[CELLS + end]) == before;
        }
        if usize::from(s.links[CELLS + cell]) != before || usize::from(s.owner[cell]) != i {
            return false;
        }
        // Proved exact: no `From` goes from usize to u8, and `try_from` would need an arm that nothing reaches.
        marks[cell] = i as u8;
        before = cell;
        cell = usize::from(s.links[cell]);
    }
    false
}

// The mark of a is its owner; where that is none, both cells say so.
pub fn marked_at(s: &Scopes, marks: &[u8; SLOTS], a: usize) -> bool
    requires { (a < SLOTS) × (get_or marks.now a 0 ≡ last_of (lists SLOTS s.now.links) LISTS LISTS a) }
    ensures { Tells result (MarkedAt SLOTS LISTS s.now.links s.now.owner a) }
{
    let owner = s.owner[a];
    if marks[a] != owner {
        return false;
    }
    owner != OF_NOBODY || (s.links[a] == NOWHERE && s.links[CELLS + a] == NOWHERE)
}

// All lists go round; their marks, from OF_NOBODY at each address.
pub fn rounds(s: &Scopes, marks: &mut [u8; SLOTS]) -> bool
    requires { Marks SLOTS LISTS s.now.links 0 marks.old }
    ensures tells { Tells result (Below LISTS (λ i. round SLOTS LISTS s.now.links s.now.owner i ≡ true)) }
    ensures marked { result ≡ true → Marks SLOTS LISTS s.now.links LISTS marks.new }
{
    for i in 0..LISTS {
        if !ring(s, marks, i) {
            return false;
        }
    }
    true
}

pub fn ringed(s: &Scopes) -> bool
    ensures { Tells result (Ringed s.now.links s.now.owner) }
{
    let mut marks = [OF_NOBODY; SLOTS];
    rounds(s, &mut marks) && (0..SLOTS).all(|a| marked_at(s, &marks, a))
}
