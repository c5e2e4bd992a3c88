// A run of addresses: allocated in one piece, freed last address first.
ghost use Rattle.std.specs.Prelude.{◌≡◌};
ghost use Rattle.rules.specs.Refusals.{says};
ghost use Rattle.rules.specs.Needs as rule;
ghost use Rattle.slots.specs.Spots.{placement_of};
ghost use Rattle.scopes.specs.View.{told, told_only};
ghost use Rattle.scopes.specs.Steps.{Whole, Becomes};
ghost use Rattle.needs.specs.Kinds.{run_of};
ghost use Rattle.needs.specs.Answers.{PlainRun};
ghost use Rattle.allocations.specs.Inner.{down_from, back_each};

use needs::Run;
use needs::addresses::{goes_back, is_freed};
use needs::linear::{empty, forget_run, run_kind};
use rules::{Refusal, WORD};
use scopes::Scopes;
use slots::{Place, SlotAddress};

// n addresses: 3, 7.
pub fn linear(s: &mut Scopes, n: u16, place: Place) -> Result<Run, Refusal>
    requires { Whole s.old }
    ensures becomes { Becomes s.old s.new (says run_of result) (λ c. told (λ l. l) c (rule.alloc_addresses (placement_of place) n c)) }
    ensures plain { PlainRun result }
{
    match s.alloc_run(n, place)? {
        Some(first) => Ok(Run {
            first,
            count: n,
            kind: run_kind(n),
        }),
        None => Ok(empty()),
    }
}

// A slot's address has 16 bits.
const ADDRESSES: usize = WORD as usize;

// The slots go back, the last one first: where that one is past 65,535 it is no slot. On a refusal the state is the one that came in.
fn give_back_run(
    s: &mut Scopes,
    first: SlotAddress,
    count: u16,
    dangles: bool,
) -> Result<(), Refusal>
    requires { Whole s.old }
    ensures { Becomes s.old s.new (says (λ u. u) result) (λ c. told_only c (back_each dangles (down_from first.0 count) c)) }
{
    let from = usize::from(first.0);
    let end = from + usize::from(count);
    if ADDRESSES < end {
        return Err(Refusal::NotOwned);
    }
    let mut t = *s;
    for a in (from..end).rev() {
        t.give_back(SlotAddress(a as u16), dangles)?;
    }
    *s = t; // all are back
    Ok(())
}

// 13, then where the slots go back 12.
pub fn free_run(s: &mut Scopes, run: Run, dangles: bool) -> Result<Run, Refusal>
    requires { Whole s.old }
    ensures becomes { Becomes s.old s.new (says run_of result) (λ c. told (λ l. l) c (rule.free_run dangles (run_of run) c)) }
    ensures plain { PlainRun result }
{
    let freed = forget_run(run);
    if run.count == 0 {
        return Ok(freed);
    }
    if is_freed(run.kind) {
        return Err(Refusal::HandleUnknown);
    }
    if goes_back(&s.number, s.top, run.kind) {
        give_back_run(s, run.first, run.count, dangles)?;
    }
    Ok(freed)
}
