// 09 define, 0a get, 0b take.
ghost use Rattle.rules.specs.Frames as frame;
ghost use Rattle.scopes.specs.Steps.{Whole};
ghost use Rattle.frames.specs.Steps.{Stands, Leads, LeadsAlone};

use crate::steps::Adds;
use handles::Handles;
use rules::refusal::Refusal;
use scopes::{HandleNumber, Scopes};

// 3, 13, 9.
pub fn define(
    scopes: &mut Scopes,
    handles: &Handles,
    name: u16,
    h: HandleNumber,
) -> Result<Adds, Refusal>
    requires { Stands scopes.old handles.now }
    ensures { Leads (frame.define name h.0) 0x09 scopes.old handles.now result scopes.new handles.now }
{
    scopes.top_index()?;
    let x = handles.unspent(h)?;
    scopes.define(name, x.address.slot, h)?;
    Ok(Adds::Nothing)
}

// 3, 10, 11.
pub fn get(scopes: &Scopes, name: u16) -> Result<Adds, Refusal>
    requires { Whole scopes.now }
    ensures { LeadsAlone (frame.get name) 0x0a scopes.now result scopes.now }
{
    let b = scopes.get(name)?;
    Ok(Adds::Slot(b.address))
}

// 3, 10, 11.
pub fn take(scopes: &mut Scopes, name: u16) -> Result<Adds, Refusal>
    requires { Whole scopes.old }
    ensures { LeadsAlone (frame.take_from name) 0x0b scopes.old result scopes.new }
{
    let b = scopes.take(name)?;
    Ok(Adds::Slot(b.address))
}
