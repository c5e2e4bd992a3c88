// "A state handed in is sound (an entry checks what its state has) if ..": told of any content, in the order slots, lists, owners,
// scopes, bindings. `rings` looks at the lists, `owners` at the owner table, `parents` at the scopes, `bindings` at the names.
#![tactic(auto)]

pub mod bindings;
pub mod owners;
pub mod parents;
pub mod rings;

ghost use Rattle.rules.specs.Tells.{Tells};
ghost use Rattle.scopes.specs.Sound.{Sound};
ghost use Rattle.soundness.specs.Canonical.{Good};

use scopes::Scopes;

// Yes exactly where 01's test says so of what the rules see, and the record is written in the one way that it can be.
pub fn is_sound(s: Scopes) -> bool
    ensures tells { Tells result (Sound s) }
    ensures tells_2 { Tells result (Good s) }
{
    slots::halves::are_sound(&s.halves, s.segments, s.head)
        && rings::ringed(&s)
        && owners::owned(&s)
        && parents::rooted(&s)
        && bindings::named(&s)
}
