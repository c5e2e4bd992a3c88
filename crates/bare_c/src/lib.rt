// What comparisons and figures link: the exports of the archive libbare.a, each a function of `bare` or `checks` with the library's clauses.
// `host/archive --bare` writes the archive. No product links it.
#![tactic(auto)]

ghost use Rattle.std.specs.Prelude.{◌≡◌, ◌/◌, min, length};
ghost use Rattle.rules.specs.Slots.{fresh_slots};
ghost use Rattle.bare.specs.Bare.{rows, pairs_sum};

// A run of calls from fresh slots. It answers how many calls were made.
#[unsafe(no_mangle)]
pub extern "C" fn bare_calls(calls: &[u16], shown: &mut [u64]) -> usize
    ensures made { result ≡ min (length calls.now) (length shown.old / 3) }
    ensures left { shown.new ≡ rows calls.now result 0 fresh_slots shown.old }
{
    bare::bare_calls(calls, shown)
}

// The sum of the addresses given by n pairs, each operation a call of the public entry.
#[unsafe(no_mangle)]
pub extern "C" fn bare_pairs_by_value(n: usize, stride: u16) -> u64
    ensures { result ≡ pairs_sum stride n }
{
    bare::bare_pairs_by_value(n, stride)
}

// The same sum, the halves lent.
#[unsafe(no_mangle)]
pub extern "C" fn bare_pairs_lent(n: usize, stride: u16) -> u64
    ensures { result ≡ pairs_sum stride n }
{
    bare::bare_pairs_lent(n, stride)
}

// How many of n checks of the full state say yes, up to the first that does not: all do.
#[unsafe(no_mangle)]
pub extern "C" fn full_checks(n: usize) -> usize
    ensures { result ≡ n }
{
    checks::full_checks(n)
}

// How many pairs of calls with a small state are answered, up to the first that is refused: all are.
#[unsafe(no_mangle)]
pub extern "C" fn entry_pairs(pairs: usize) -> usize
    ensures { result ≡ pairs }
{
    checks::entry_pairs(pairs)
}
