// "top is live, or nothing is; every live scope's parents are live and lead to root": of any content, so the climb has a bound on its steps.
ghost use Rattle.std.specs.Prelude.{◌<◌};
ghost use Rattle.rules.specs.Sizes.{SCOPES};
ghost use Rattle.rules.specs.Tells.{Tells};
ghost use Rattle.scopes.specs.Sound.{Rooted, LeadsToRoot};
ghost use Rattle.soundness.specs.Parts.{Known, RootedAt, Topped};

use rules::SCOPES;
use scopes::{NO_PARENT, Scopes};

// Parents lead from i to root, or to a scope of which that is known.
pub fn leads(s: &Scopes, known: &[bool; SCOPES], i: usize) -> bool
    requires { Known s.now.live s.now.parent known.now }
    ensures { Tells result (LeadsToRoot s.now.live s.now.parent i) }
{
    let mut k = i;
    for _step in 0..SCOPES {
        if SCOPES <= k {
            return false;
        }
        if known[k] {
            return true;
        }
        if !s.live[k] {
            return false;
        }
        let parent = s.parent[k];
        if k == 0 {
            return parent == NO_PARENT;
        }
        k = usize::from(parent);
    }
    false
}

// It is known of i, and of the scopes from there up to the first of which it was known: so no climb passes a scope again.
pub fn learn(s: &Scopes, known: &mut [bool; SCOPES], i: usize)
    requires { Known s.now.live s.now.parent known.old × LeadsToRoot s.now.live s.now.parent i }
    ensures { Known s.now.live s.now.parent known.new }
{
    let mut k = i;
    for _step in 0..SCOPES {
        if known[k] {
            return;
        }
        known[k] = true;
        if k == 0 {
            return;
        }
        k = usize::from(s.parent[k]);
    }
}

// A live scope's parents lead to root, which is known from then on; the record of a closed one is blank.
pub fn rooted_at(s: &Scopes, known: &mut [bool; SCOPES], i: usize) -> bool
    requires { (i < SCOPES) × Known s.now.live s.now.parent known.old }
    ensures tells { Tells result (RootedAt s.now.live s.now.dangled s.now.parent s.now.number i) }
    ensures known { Known s.now.live s.now.parent known.new }
{
    if !s.live[i] {
        return !s.dangled[i] && s.parent[i] == NO_PARENT && s.number[i] == 0;
    }
    if !leads(s, known, i) {
        return false;
    }
    learn(s, known, i);
    true
}

pub fn topped(s: &Scopes) -> bool
    ensures { Tells result (Topped s.now.live s.now.top) }
{
    match s.live.get(s.top) {
        Some(live) => *live,
        None => s.top == SCOPES && !s.live.contains(&true),
    }
}

pub fn rooted(s: &Scopes) -> bool
    ensures { Tells result (Rooted s.now.live s.now.dangled s.now.parent s.now.number s.now.top) }
{
    if !topped(s) || s.number[0] != 0 {
        return false;
    }
    let mut known = [false; SCOPES];
    for i in 0..SCOPES {
        if !rooted_at(s, &mut known, i) {
            return false;
        }
    }
    true
}
