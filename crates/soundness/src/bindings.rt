// "no scope binds a name twice": one walk over the bindings, with a table that has for each name a place that stands for it.
ghost use Rattle.std.specs.Prelude.{◌≡◌, ℕ, ◌<◌, ◌≤◌, get_or};
ghost use Rattle.rules.specs.Sizes.{BINDINGS, SCOPES};
ghost use Rattle.rules.specs.Tells.{Tells};
ghost use Rattle.scopes.specs.View.{binding};
ghost use Rattle.scopes.specs.Sound.{Named};
ghost use Rattle.soundness.specs.Parts.{Below, scope_of, LiveAt, Distinct, Place};

use rules::{BINDINGS, WORD};
use scopes::Scopes;
use scopes::names::{NAME_PART, SCOPE_PART};
use slots::half;

// `as` here and below is proved exact. No `From` goes from u64 to usize or from usize to u8, and `try_from` would need an arm that nothing reaches.
const NAMES: usize = WORD as usize;

// The name in a binding.
fn name(packed: u64) -> usize
    ensures { result ≡ (binding packed).name }
{
    (packed / NAME_PART % WORD) as usize
}

// The scopes of all bindings are live.
pub fn scopes_live(s: &Scopes) -> bool
    requires { s.now.count ≤ BINDINGS }
    ensures { Tells result (Below s.now.count (LiveAt s.now.bindings s.now.live)) }
{
    s.bindings[..s.count]
        .iter()
        .all(|b| s.live.get((*b / SCOPE_PART) as usize) == Some(&true))
}

// The place that stands for the name of binding j: the one that was handed in if it has the name, and j itself if not.
pub fn place(bindings: &[u64; BINDINGS], told: u8, j: usize) -> usize
    requires { j < BINDINGS }
    ensures { Place bindings.now told j result }
{
    let k = usize::from(told);
    if name(bindings[k]) == name(bindings[j]) {
        k
    } else {
        j
    }
}

// No two of the first `count` bindings have one scope and one name. `places` has for each name that was met a place with that name, and
// `scopes` at that place, as bits, the scopes that bound it; what `places` has for other names does not matter.
pub fn distinct(s: &Scopes) -> bool
    requires { (s.now.count ≤ BINDINGS) × Below s.now.count (λ j. scope_of s.now.bindings j < SCOPES) }
    ensures { Tells result (Distinct s.now.bindings s.now.count) }
{
    if s.count == 0 {
        return true; // no table is cleared
    }
    let mut places = [0u8; NAMES];
    let mut scopes = [0u64; BINDINGS];
    for j in 0..s.count {
        let binding = s.bindings[j];
        let scope = binding / SCOPE_PART;
        let name = name(binding);
        let k = place(&s.bindings, places[name], j);
        let met = scopes[k];
        if half::test_bit(met, scope) {
            return false;
        }
        places[name] = k as u8;
        scopes[k] = half::set_bit(met, scope);
    }
    true
}

// Places from `count` on hold 0.
pub fn clear_from(s: &Scopes) -> bool
    ensures { Tells result ((j : ℕ) → s.now.count ≤ j → get_or s.now.bindings j 0 ≡ 0) }
{
    (s.count..BINDINGS).all(|j| s.bindings[j] == 0)
}

pub fn named(s: &Scopes) -> bool
    ensures { Tells result (Named s.now.bindings s.now.live s.now.count) }
{
    s.count <= BINDINGS && clear_from(s) && scopes_live(s) && distinct(s)
}
