// Slots are given to scopes, and go back.
ghost use Rattle.std.specs.Prelude.{◌<◌};
ghost use Rattle.rules.specs.Options.{option_of};
ghost use Rattle.rules.specs.Refusals.{says};
ghost use Rattle.rules.specs.Sizes.{base};
ghost use Rattle.rules.specs.Scopes as rule;
ghost use Rattle.rules.specs.Needs.{give_back};
ghost use Rattle.slots.specs.Halves.{occ};
ghost use Rattle.slots.specs.Spots.{placement_of, Vacant};
ghost use Rattle.scopes.specs.View.{view, id_of, found_at, address_of, told, told_only};
ghost use Rattle.scopes.specs.Steps.{Whole, Lives, Takes, TopOwns, Becomes};
ghost use Rattle.rules.specs.Notation.{given};

use crate::{OF_DANGLING, OF_NOBODY, ScopeId, Scopes};
use rules::refusal::Refusal;
use rules::{DANGLING, SCOPES, SLOTS};
use slots::{Place, SlotAddress, halves as bits, spots};

impl Scopes {
    // The slots from a on, `many` of them, which are clear, go to scope k, one after another. L, H and size stay.
    fn take_run(&mut self, k: usize, a: usize, many: usize)
        requires { Whole self.old × Lives self.old k × Vacant (occ self.old.halves) a many }
        ensures { Takes self.old k a many self.new }
    {
        for b in a..a + many {
            bits::occupy(&mut self.halves, b);
            links::place(&mut self.links, k, b);
            self.owner[b] = k as u8;
        }
    }

    // `many` slots for scope k, which is live. 7.
    fn alloc_at(&mut self, k: usize, many: usize, place: Place) -> Result<SlotAddress, Refusal>
        requires { Whole self.old × Lives self.old k × (0 < many) × (many < 65536) }
        ensures { Becomes self.old self.new (says address_of result) (λ c. told (λ a. a) c (rule.allocate (placement_of place) (found_at self.old k) many c)) }
    {
        let Some(spot) = spots::choose(&self.halves, self.segments, self.head, place, many) else {
            return Err(Refusal::NoSlot);
        };
        let a = spot.address;
        let size = self.size.max(a + many);
        self.take_run(k, a, many);
        self.segments = spot.segments;
        self.head = spot.head;
        self.size = size;
        Ok(SlotAddress(a as u16))
    }

    // alloc: a slot for the top. 3, 7.
    pub fn alloc(&mut self, place: Place) -> Result<SlotAddress, Refusal>
        requires { Whole self.old }
        ensures { Becomes self.old self.new (says address_of result) (λ c. told (λ a. a) c (rule.alloc_top (placement_of place) c)) }
    {
        let top = self.top_index()?;
        self.alloc_at(top, 1, place)
    }

    // alloc in s: a slot for the scope with this id. 4, 7.
    pub fn alloc_in(&mut self, id: ScopeId, place: Place) -> Result<SlotAddress, Refusal>
        requires { Whole self.old }
        ensures { Becomes self.old self.new (says address_of result) (λ c. told (λ a. a) c (rule.alloc_in (placement_of place) (rule.by_id base c (id_of id)) c)) }
    {
        let Some(i) = self.index_of(id) else {
            return Err(Refusal::NotLive);
        };
        self.alloc_at(i, 1, place)
    }

    // linear: 0 gives an empty run; whether 1 is another case than more is the placement's. 3, 7.
    pub fn alloc_run(&mut self, many: u16, place: Place) -> Result<Option<SlotAddress>, Refusal>
        requires { Whole self.old }
        ensures { Becomes self.old self.new (says (option_of address_of) result) (λ c. told (λ a. a) c (rule.alloc_run (placement_of place) many c)) }
    {
        let top = self.top_index()?;
        if many == 0 {
            return Ok(None);
        }
        let a = self.alloc_at(top, usize::from(many), place)?;
        Ok(Some(a))
    }

    // The slot a, which the top owns, is clear then, and dangles or not.
    fn release(&mut self, a: usize, dangles: bool)
        requires { Whole self.old × TopOwns self.old a }
        ensures { Becomes self.old self.new (given tt) (λ c. told_only c (give_back dangles a c)) }
    {
        self.head = a / 128;
        bits::vacate(&mut self.halves, a);
        if dangles {
            links::place(&mut self.links, DANGLING, a);
            self.owner[a] = OF_DANGLING;
            return;
        }
        links::unlink(&mut self.links, a);
        self.owner[a] = OF_NOBODY;
    }

    // The slot a goes back, if top owns it; where it `dangles`, it is put on the dangling list. 12.
    pub fn give_back(&mut self, a: SlotAddress, dangles: bool) -> Result<(), Refusal>
        requires { Whole self.old }
        ensures { Becomes self.old self.new (says (λ u. u) result) (λ c. told_only c (give_back dangles a.0 c)) }
    {
        let x = usize::from(a.0);
        if self.top == SCOPES || SLOTS <= x || usize::from(self.owner[x]) != self.top {
            return Err(Refusal::NotOwned);
        }
        self.release(x, dangles);
        Ok(())
    }
}
