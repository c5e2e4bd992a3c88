// Where a script stands, and what a step adds to the list.
ghost use Rattle.std.specs.Prelude.{◌≡◌};
ghost use Rattle.scopes.specs.View.{blank};
ghost use Rattle.handles.specs.Handles.{fresh_handles};
ghost use Rattle.handles.specs.NeedTable.{fresh_needs};

use handles::Handles;
use handles::remembered::Needs;
use scopes::Scopes;
use slots::SlotAddress;

// The state, and the script's handles and needs.
#[derive(Clone, Copy)]
pub struct Script {
    pub scopes: Scopes,
    pub handles: Handles,
    pub needs: Needs,
}

impl Script {
    // Every number is 0: a script begins where its state stands, since one that is returned whole would be copied. There are no handles and no
    // needs; no scope is live yet.
    pub fn blank() -> Script
        ensures { (result.scopes ≡ blank) × (result.handles ≡ fresh_handles) × (result.needs ≡ fresh_needs) }
    {
        Script {
            scopes: Scopes::blank(),
            handles: Handles::fresh(),
            needs: Needs::fresh(),
        }
    }
}

// What a write stores: 10 has it in the frame, 14 takes the next sample.
#[derive(Clone, Copy)]
pub enum Source {
    Constant(u16),
    NextSample,
}

// What a frame's line has besides its opcode.
#[derive(Clone, Copy)]
pub enum Adds {
    Nothing,
    Slot(SlotAddress),
    NoSlot, // shown as `ffff`
    Number(u16), // of a scope or of a need
    Store(SlotAddress, Source),
    Load(SlotAddress),
    Drained(usize), // the count; the addresses stand in the table of drained slots
}
