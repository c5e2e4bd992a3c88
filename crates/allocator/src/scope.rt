// Scopes: opened, dangled, restored, popped; and the names that they bind.
ghost use Rattle.rules.specs.Notation.{refuse◌unless◌};
ghost use Rattle.rules.specs.Sizes.{base};
ghost use Rattle.rules.specs.Scopes as rule;
ghost use Rattle.scopes.specs.View.{view, id_of, bound_to, target, told, told_only, replied};
ghost use Rattle.allocator.specs.Entries.{Call, Asked};

use crate::{Outcome, checked};
use rules::Refusal;
use scopes::{Bound, HandleNumber, ScopeId, Scopes};
use slots::SlotAddress;

// Parent is the top; becomes top.
pub fn child(s: Scopes) -> Outcome<ScopeId>
    ensures { Call id_of s (told (λ i. i) (view s) (rule.open_child base (view s))) result }
{
    checked(s, |state| state.child()) // 29 before child's 3, 8
}

// Marks it, top becomes its parent.
pub fn dangle(s: Scopes, id: ScopeId) -> Outcome<()>
    ensures { Call (λ u. u) s (told_only (view s) (rule.dangle_scope (rule.by_id base (view s) (id_of id)) (view s))) result }
{
    checked(s, |state| state.dangle(id)) // 29 before dangle's 4, 5
}

// Unmarks it, top becomes the scope.
pub fn restore(s: Scopes, id: ScopeId) -> Outcome<()>
    ensures { Call (λ u. u) s (told_only (view s) (rule.restore_scope (rule.by_id base (view s) (id_of id)) (view s))) result }
{
    checked(s, |state| state.restore(id)) // 29 before restore's 4, 5
}

// Its slots dangle, its bindings go, top becomes its parent.
pub fn pop(s: Scopes, id: ScopeId) -> Outcome<()>
    ensures { Call (λ u. u) s (told_only (view s) (rule.pop_scope base (rule.by_id base (view s) (id_of id)) (view s))) result }
{
    checked(s, |state| state.pop(id)) // 29 before pop's 4, 5, 6
}

// The same of root; then there is no top.
pub fn pop_last(s: Scopes) -> Outcome<()>
    ensures { Call (λ u. u) s (told_only (view s) (rule.pop_last_scope base (view s))) result }
{
    checked(s, |state| state.pop_last()) // 29 before pop last's 3, 6
}

// The id of the live scope with this number, the lower index of two.
pub fn numbered(s: Scopes, n: u32) -> Result<ScopeId, Refusal>
    ensures { Asked id_of s (replied rule.id_of (refuse 4 unless (rule.by_number base (view s) n))) result }
{
    // A question copies no state, so it isn't handed to `checked`; nor is `get`.
    if !soundness::is_sound(s) {
        return Err(Refusal::NotSound); // before 4
    }
    s.numbered(n)
}

// ---- names

// Binds in the top, replacing an equal name there and its moved mark.
pub fn define(s: Scopes, name: u16, address: SlotAddress) -> Outcome<()>
    ensures { Call (λ u. u) s (told_only (view s) (rule.define_name base name address.0 0 (view s))) result }
{
    checked(s, |state| state.define(name, address, HandleNumber(0))) // 29 before define's 3, 9
}

// The nearest binding, from the top up to root.
pub fn get(s: Scopes, name: u16) -> Result<Bound, Refusal>
    ensures { Asked bound_to s (replied target (rule.get_name base name (view s))) result }
{
    if !soundness::is_sound(s) {
        return Err(Refusal::NotSound); // before 3, 10, 11
    }
    s.get(name)
}

// The same, and marks it moved.
pub fn take(s: Scopes, name: u16) -> Outcome<Bound>
    ensures { Call bound_to s (told target (view s) (rule.take_name base name (view s))) result }
{
    checked(s, |state| state.take(name)) // 29 before take's 3, 10, 11
}
