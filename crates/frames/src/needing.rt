// 20 defer, 21 assigned, 22 ignore, 24 output of need: frames that make a need or ask one, and leave all else alone.
ghost use Rattle.std.specs.Prelude.{◌≤◌};
ghost use Rattle.rules.specs.Sizes.{HANDLES, NEEDS};
ghost use Rattle.rules.specs.Frames as frame;
ghost use Rattle.scopes.specs.declared.Scopes.{Scopes};
ghost use Rattle.handles.specs.declared.Handles.{Handles};
ghost use Rattle.frames.specs.Needing.{script, LeadsFrom};

use crate::steps::{Adds, Script};
use handles::remembered::{NeedNumber, Needs};
use handles::{Handles, remembered};
use needs::{Output, any};
use rules::refusal::Refusal;
use scopes::{HandleNumber, Scopes};

// ---- 20, 21, 22

// 4, 22. The need remembers no handle: the number there is 0, as in the rules.
pub fn defer(scopes: &Scopes, needs: &mut Needs, n: u16) -> Result<Adds, Refusal>
    requires { needs.old.needed ≤ NEEDS }
    ensures { (handles : Handles) → LeadsFrom (frame.new_defer n) 0x20 (script scopes.now handles needs.old) result (script scopes.now handles needs.new) }
{
    let id = scopes.numbered(u32::from(n))?;
    let k = needs.add(remembered::deferred(id), HandleNumber(0))?;
    Ok(Adds::Number(k.0))
}

// 13, 22.
pub fn assigned(handles: &Handles, needs: &mut Needs, h: HandleNumber) -> Result<Adds, Refusal>
    requires { (handles.now.handed ≤ HANDLES) × (needs.old.needed ≤ NEEDS) }
    ensures { (s : Scopes) → LeadsFrom (frame.new_assigned h.0) 0x21 (script s handles.now needs.old) result (script s handles.now needs.new) }
{
    let x = handles.known(h)?;
    let k = needs.add(remembered::assigned(x.address.slot), h)?;
    Ok(Adds::Number(k.0))
}

// 22. No handle is remembered either.
pub fn ignore(needs: &mut Needs) -> Result<Adds, Refusal>
    requires { needs.old.needed ≤ NEEDS }
    ensures { (s : Scopes) (handles : Handles) → LeadsFrom frame.new_ignore 0x22 (script s handles needs.old) result (script s handles needs.new) }
{
    let k = needs.add(remembered::IGNORED, HandleNumber(0))?;
    Ok(Adds::Number(k.0))
}

// ---- 24

// 21, 18.
pub fn output(script: &Script, k: NeedNumber) -> Result<Adds, Refusal>
    requires { script.now.needs.needed ≤ NEEDS }
    ensures { LeadsFrom (frame.output_need k.0) 0x24 script.now result script.now }
{
    let d = script.needs.known(k)?;
    match any::output(d)? {
        Output::Keep(a) => Ok(Adds::Slot(a)),
        Output::Discard => Ok(Adds::NoSlot),
    }
}
