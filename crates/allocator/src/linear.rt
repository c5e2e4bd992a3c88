// A run of addresses: allocated in one piece, freed last address first. `linear` is edition 1; in `linear_by` the place is a value.
// `forget_run` takes no state, and is that of crate needs.
ghost use Rattle.rules.specs.Sizes.{base};
ghost use Rattle.rules.specs.Slots.{edition1};
ghost use Rattle.rules.specs.Needs as rule;
ghost use Rattle.slots.specs.Spots.{placement_of};
ghost use Rattle.scopes.specs.View.{view, told};
ghost use Rattle.needs.specs.Kinds.{run_of};
ghost use Rattle.allocator.specs.Entries.{RunCall};

use crate::{Outcome, checked};
use allocations::linear;
use needs::Run;
pub use needs::linear::forget_run;
use scopes::Scopes;
use slots::Place;

// n addresses in a row for the top: Dangling, one is Local, none for 0.
#[tactic(auto, unfolding(rules::specs::Slots::placing))]
pub fn linear(s: Scopes, n: u16) -> Outcome<Run>
    ensures { RunCall s (told (λ l. l) (view s) (rule.alloc_addresses (edition1 base.segments) n (view s))) result }
{
    linear_by(s, n, Place::ByHead)
}

// The same, by this place.
pub fn linear_by(s: Scopes, n: u16, place: Place) -> Outcome<Run>
    ensures { RunCall s (told (λ l. l) (view s) (rule.alloc_addresses (placement_of place) n (view s))) result }
{
    checked(s, |state| linear::linear(state, n, place)) // 29 before 3, 7
}

// Each is freed, the last first; a refusal of any leaves all.
pub fn free_run(s: Scopes, run: Run, dangles: bool) -> Outcome<Run>
    ensures { RunCall s (told (λ l. l) (view s) (rule.free_run dangles (run_of run) (view s))) result }
{
    checked(s, |state| linear::free_run(state, run, dangles)) // 29 before 13, 12
}
