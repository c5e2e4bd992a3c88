// A run of calls from fresh slots, by value: after each one its answer, L and H are written, a row of three numbers.
ghost use Rattle.std.specs.Prelude.{◌≡◌, ◌+◌, ◌*◌, ◌/◌, ◌≤◌, min, length};
ghost use Rattle.rules.specs.Slots.{fresh_slots};
ghost use Rattle.bare.specs.Bare.{shown_call, call_row, rows};

use crate::calls::{Shown, call};
use slots::fresh;

// Row i. The language has no From from usize to u64, so L and H are cast.
fn write_row(shown: &mut [u64], i: usize, r: &Shown)
    requires { 3 * i + 3 ≤ length shown.old }
    ensures { shown.new ≡ call_row shown.old i (shown_call r.now) }
{
    let w = 3 * i;
    shown[w] = r.says;
    shown[w + 1] = r.state.segments as u64;
    shown[w + 2] = r.state.head as u64;
}

// It answers how many calls were made: all, or as many as there are rows for.
#[unsafe(no_mangle)]
pub extern "C" fn bare_calls(calls: &[u16], shown: &mut [u64]) -> usize
    ensures made { result ≡ min (length calls.now) (length shown.old / 3) }
    ensures left { shown.new ≡ rows calls.now result 0 fresh_slots shown.old }
{
    let n = calls.len().min(shown.len() / 3);
    let mut s = fresh();
    for i in 0..n {
        let r = call(s, calls[i]);
        write_row(shown, i, &r);
        s = r.state;
    }
    n
}
