// A run of addresses: empty, its kind, forgotten. No state is asked.
ghost use Rattle.std.specs.Prelude.{◌≡◌};
ghost use Rattle.rules.specs.Needs as rule;
ghost use Rattle.needs.specs.Kinds.{kind_of, run_of, empty_run, Plain};
ghost use Rattle.needs.specs.Inner.{kind_for};

use crate::{AddressKind, Run};
use slots::SlotAddress;

// The empty run that is handed out.
pub fn empty() -> Run
    ensures { result ≡ empty_run }
{
    Run {
        first: SlotAddress(0),
        count: 0,
        kind: AddressKind::Freed,
    }
}

// A run of 1 is Local, one of 2 or more Dangling.
pub fn run_kind(n: u16) -> AddressKind
    ensures { (result ≡ kind_for n) × (kind_of result ≡ rule.run_kind n) }
{
    if n == 1 {
        AddressKind::Local
    } else {
        AddressKind::Dangling
    }
}

// The kind of each becomes Freed; the slots stay with their owners.
pub fn forget_run(run: Run) -> Run
    ensures { (run_of result ≡ rule.forget_run (run_of run)) × Plain result }
{
    if run.count == 0 {
        return empty();
    }
    Run {
        kind: AddressKind::Freed,
        ..run
    }
}
