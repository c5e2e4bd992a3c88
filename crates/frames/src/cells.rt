// 10 and 14 write, 11 read, 12 read name: frames that leave the state alone.
ghost use Rattle.std.specs.Prelude.{◌≡◌, ℕ};
ghost use Rattle.rules.specs.Frames as frame;
ghost use Rattle.handles.specs.Handles.{KnownAs};
ghost use Rattle.frames.specs.Steps.{source_of, Stands, Leads, LoadsOn};

use crate::steps::{Adds, Source};
use handles::{Handle, Handles};
use needs::addresses::allocated;
use rules::refusal::Refusal;
use scopes::{HandleNumber, Scopes};

// 13, 14. A write makes a Dangling handle Local.
pub fn write(
    scopes: &Scopes,
    handles: &mut Handles,
    h: HandleNumber,
    x: Source,
) -> Result<Adds, Refusal>
    requires { Stands scopes.now handles.old }
    ensures leads { (o : ℕ) → Leads (frame.write h.0 (source_of x)) o scopes.now handles.old result scopes.now handles.new }
    ensures holders { handles.new.holders ≡ handles.old.holders }
{
    let known = handles.known(h)?;
    let slot = known.address.slot;
    if !handles.is_held(&scopes.halves, slot, h) {
        return Err(Refusal::NotHeld);
    }
    let written = Handle {
        address: allocated(known.address),
        written: true,
    };
    handles.set(h, written);
    Ok(Adds::Store(slot, x))
}

// The load of handle h, which is known as x: 14, 15.
fn load(scopes: &Scopes, handles: &Handles, h: HandleNumber, x: Handle) -> Result<Adds, Refusal>
    requires { Stands scopes.now handles.now × KnownAs handles.now h.0 x }
    ensures { LoadsOn scopes.now handles.now h.0 result }
{
    let slot = x.address.slot;
    if !handles.is_held(&scopes.halves, slot, h) {
        return Err(Refusal::NotHeld);
    }
    if x.written {
        return Ok(Adds::Load(slot));
    }
    Err(Refusal::NeverWritten)
}

// 13, 14, 15.
pub fn read(scopes: &Scopes, handles: &Handles, h: HandleNumber) -> Result<Adds, Refusal>
    requires { Stands scopes.now handles.now }
    ensures { Leads (frame.read h.0) 0x11 scopes.now handles.now result scopes.now handles.now }
{
    let x = handles.known(h)?;
    load(scopes, handles, h, x)
}

// 3, 10, 11, 14, 15.
pub fn read_name(scopes: &Scopes, handles: &Handles, name: u16) -> Result<Adds, Refusal>
    requires { Stands scopes.now handles.now }
    ensures { Leads (frame.read_name name) 0x12 scopes.now handles.now result scopes.now handles.now }
{
    let b = scopes.get(name)?;
    let x = handles.known(b.handle)?; // a binding's handle was handed out
    load(scopes, handles, b.handle, x)
}
