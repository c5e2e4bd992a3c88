// Scopes are opened, dangled and restored, and looked up by id or by number.
ghost use Rattle.std.specs.Prelude.{◌≡◌, ◌-◌, ◌<◌, IfSome};
ghost use Rattle.rules.specs.Notation.{first, refuse◌unless◌};
ghost use Rattle.rules.specs.Options.{option_of};
ghost use Rattle.rules.specs.Refusals.{says};
ghost use Rattle.rules.specs.Sizes.{base, SCOPES};
ghost use Rattle.rules.specs.Scopes as rule;
ghost use Rattle.scopes.specs.View.{view, id_of, told, told_only, replied};
ghost use Rattle.scopes.specs.Steps.{Whole, Becomes};
ghost use Rattle.scopes.specs.Leaves.{is_free, Means, Admits, Tops};

use crate::{ScopeId, Scopes};
use rules::SCOPES;
use rules::refusal::Refusal;

impl Scopes {
    // The index of the top. 3.
    pub fn top_index(&self) -> Result<usize, Refusal>
        requires { Whole self.now }
        ensures { Tops self.now result }
    {
        if self.top == SCOPES {
            return Err(Refusal::NoTop);
        }
        Ok(self.top)
    }

    // The lowest index from 1 on at which no scope is live.
    fn free_index(&self) -> Option<usize>
        ensures is { option_of (λ i. i) result ≡ first (is_free self.now.live) 1 (SCOPES - 1) }
        ensures below { IfSome result (λ i. i < SCOPES) }
    {
        for i in 1..SCOPES {
            if !self.live[i] {
                return Some(i);
            }
        }
        None
    }

    // The lowest index of a live scope with this number.
    pub fn with_number(&self, n: u32) -> Option<usize>
        ensures { Means self.now (rule.by_number base (view self.now) n) result }
    {
        for i in 0..SCOPES {
            if self.live[i] && self.number[i] == n {
                return Some(i);
            }
        }
        None
    }

    // The index of the live scope with this id.
    pub fn index_of(&self, id: ScopeId) -> Option<usize>
        ensures { Means self.now (rule.by_id base (view self.now) (id_of id)) result }
    {
        let i = usize::from(id.index);
        if i < SCOPES && self.live[i] && self.number[i] == id.number {
            return Some(i);
        }
        None
    }

    // The index of the scope that pop and dangle (`mark` false) or restore (`mark` true) mean. 4, 5.
    pub(crate) fn admitted(&self, id: ScopeId, mark: bool) -> Result<usize, Refusal>
        ensures { Admits self.now mark (rule.by_id base (view self.now) (id_of id)) result }
    {
        let Some(i) = self.index_of(id) else {
            return Err(Refusal::NotLive);
        };
        if i == 0 || self.dangled[i] != mark {
            return Err(Refusal::DangledOrRoot);
        }
        Ok(i)
    }

    // child: the parent is the top; the new scope becomes the top. 3, 8.
    pub fn child(&mut self) -> Result<ScopeId, Refusal>
        requires { Whole self.old }
        ensures { Becomes self.old self.new (says id_of result) (λ c. told (λ i. i) c (rule.open_child base c)) }
    {
        self.top_index()?;
        let Some(i) = self.free_index() else {
            return Err(Refusal::ScopesFull);
        };
        let id = ScopeId {
            index: i as u8,
            number: self.counter,
        };
        self.live[i] = true;
        self.parent[i] = self.top as u8;
        self.number[i] = id.number;
        self.top = i;
        self.counter = id.number.wrapping_add(1);
        Ok(id)
    }

    // dangle s: marks it; top becomes its parent. 4, 5.
    pub fn dangle(&mut self, id: ScopeId) -> Result<(), Refusal>
        requires { Whole self.old }
        ensures { Becomes self.old self.new (says (λ u. u) result) (λ c. told_only c (rule.dangle_scope (rule.by_id base c (id_of id)) c)) }
    {
        let i = self.admitted(id, false)?;
        self.dangled[i] = true;
        self.top = usize::from(self.parent[i]);
        Ok(())
    }

    // restore s: unmarks it; top becomes s. 4, 5.
    pub fn restore(&mut self, id: ScopeId) -> Result<(), Refusal>
        requires { Whole self.old }
        ensures { Becomes self.old self.new (says (λ u. u) result) (λ c. told_only c (rule.restore_scope (rule.by_id base c (id_of id)) c)) }
    {
        let i = self.admitted(id, true)?;
        self.dangled[i] = false;
        self.top = i;
        Ok(())
    }

    // A script names a scope by its number: the id of the one that is meant. 4.
    pub fn numbered(&self, n: u32) -> Result<ScopeId, Refusal>
        ensures { says id_of result ≡ replied rule.id_of (refuse 4 unless (rule.by_number base (view self.now) n)) }
    {
        let Some(i) = self.with_number(n) else {
            return Err(Refusal::NotLive);
        };
        Ok(ScopeId {
            index: i as u8,
            number: self.number[i],
        })
    }
}
