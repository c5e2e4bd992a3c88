// The dangling list is handed out into numbers that the caller lends.
ghost use Rattle.scopes.specs.View.{view};
ghost use Rattle.allocator.specs.Drained.{DrainCall, drained};

use crate::{Outcome, turned_away};
use rules::{Refusal, SLOTS};
use scopes::Scopes;

// The dangling list in order at the front of `out`, and how many; it is empty then. 17 comes last: too few numbers are lent.
pub fn drain(s: Scopes, out: &mut [u16]) -> Outcome<usize>
    ensures { DrainCall s out.old (drained (view s) out.old) (result, out.new) }
{
    // Not by `checked`: after the call, a proof knows nothing of a list that a closure has borrowed.
    if !soundness::is_sound(s) {
        return turned_away(s);
    }
    let mut state = s;
    let mut page = [0u16; SLOTS];
    let n = state.drain(&mut page);
    if out.len() < n {
        return Outcome {
            state: s,
            answer: Err(Refusal::MemoryTooShort),
        };
    }
    out[..n].copy_from_slice(&page[..n]);
    let answer = Ok(n);
    Outcome { state, answer }
}
