// Scopes are closed: by id, and root at the end.
ghost use Rattle.std.specs.Prelude.{◌≡◌, ◌<◌};
ghost use Rattle.rules.specs.Refusals.{says};
ghost use Rattle.rules.specs.Sizes.{base, SCOPES};
ghost use Rattle.rules.specs.Scopes as rule;
ghost use Rattle.scopes.specs.View.{view, id_of, found_at, told_only};
ghost use Rattle.scopes.specs.Steps.{Whole, Lives, Empties, shut, Becomes};

use crate::{NO_PARENT, OF_DANGLING, ScopeId, Scopes, names};
use rules::refusal::Refusal;
use rules::{DANGLING, SCOPES};
use slots::halves as bits;

impl Scopes {
    // Whether a live scope has i as its parent; all are looked at, so that they are compared side by side.
    fn has_child(&self, i: usize) -> bool
        requires { i < SCOPES }
        ensures { result ≡ rule.has_child base (view self.now) i }
    {
        let up = i as u8;
        let mut hit = false;
        for j in 0..SCOPES {
            hit = hit | (self.live[j] & (self.parent[j] == up));
        }
        hit
    }

    // The addresses of scope i, which is live, go to the dangling list in order.
    fn empty(&mut self, i: usize)
        requires { Whole self.old × Lives self.old i }
        ensures { Empties self.old i self.new }
    {
        // Each turn takes the first of the list away, so this is no count.
        while let Some(a) = links::first(&self.links, i) {
            bits::vacate(&mut self.halves, a);
            links::place(&mut self.links, DANGLING, a);
            self.owner[a] = OF_DANGLING;
            self.head = a / 128;
        }
    }

    // Scope i, which is live, is closed: its addresses dangle, its bindings go, top becomes its parent. 6.
    fn close(&mut self, i: usize) -> Result<(), Refusal>
        requires { Whole self.old × Lives self.old i }
        ensures { Becomes self.old self.new (says (λ u. u) result) (λ c. told_only c (shut (found_at self.old i) c)) }
    {
        if self.has_child(i) {
            return Err(Refusal::HasChild);
        }
        self.empty(i);
        self.count = names::forget_names(&mut self.bindings, self.count, i);
        self.top = usize::from(self.parent[i]);
        self.live[i] = false;
        self.dangled[i] = false;
        self.parent[i] = NO_PARENT;
        self.number[i] = 0;
        Ok(())
    }

    // pop s: 4, 5 and 6 are looked at first.
    pub fn pop(&mut self, id: ScopeId) -> Result<(), Refusal>
        requires { Whole self.old }
        ensures { Becomes self.old self.new (says (λ u. u) result) (λ c. told_only c (rule.pop_scope base (rule.by_id base c (id_of id)) c)) }
    {
        let i = self.admitted(id, false)?;
        self.close(i)
    }

    // pop last: root is closed; then there is no top. 3, 6.
    pub fn pop_last(&mut self) -> Result<(), Refusal>
        requires { Whole self.old }
        ensures { Becomes self.old self.new (says (λ u. u) result) (λ c. told_only c (rule.pop_last_scope base c)) }
    {
        self.top_index()?;
        self.close(0)
    }
}
