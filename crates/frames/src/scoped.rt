// 01 child, 02 pop, 03 dangle, 04 restore, 05 pop last: frames that leave the handles alone. A handle is held while its slot is occupied
// and no later handle took it, so closing a scope touches no handle.
ghost use Rattle.rules.specs.Frames as frame;
ghost use Rattle.scopes.specs.Steps.{Whole};
ghost use Rattle.frames.specs.Steps.{LeadsAlone};

use crate::steps::Adds;
use rules::WORD;
use rules::refusal::Refusal;
use scopes::Scopes;

// 3, 8.
pub fn child(scopes: &mut Scopes) -> Result<Adds, Refusal>
    requires { Whole scopes.old }
    ensures { LeadsAlone frame.child 0x01 scopes.old result scopes.new }
{
    let id = scopes.child()?;
    Ok(Adds::Number((u64::from(id.number) % WORD) as u16)) // a script's numbers are below that
}

// 4, 5, 6.
pub fn pop(scopes: &mut Scopes, n: u16) -> Result<Adds, Refusal>
    requires { Whole scopes.old }
    ensures { LeadsAlone (frame.pop n) 0x02 scopes.old result scopes.new }
{
    let id = scopes.numbered(u32::from(n))?;
    scopes.pop(id)?;
    Ok(Adds::Nothing)
}

// 4, 5.
pub fn dangle(scopes: &mut Scopes, n: u16) -> Result<Adds, Refusal>
    requires { Whole scopes.old }
    ensures { LeadsAlone (frame.dangle n) 0x03 scopes.old result scopes.new }
{
    let id = scopes.numbered(u32::from(n))?;
    scopes.dangle(id)?;
    Ok(Adds::Nothing)
}

// 4, 5.
pub fn restore(scopes: &mut Scopes, n: u16) -> Result<Adds, Refusal>
    requires { Whole scopes.old }
    ensures { LeadsAlone (frame.restore n) 0x04 scopes.old result scopes.new }
{
    let id = scopes.numbered(u32::from(n))?;
    scopes.restore(id)?;
    Ok(Adds::Nothing)
}

// 3, 6.
pub fn pop_last(scopes: &mut Scopes) -> Result<Adds, Refusal>
    requires { Whole scopes.old }
    ensures { LeadsAlone frame.pop_last 0x05 scopes.old result scopes.new }
{
    scopes.pop_last()?;
    Ok(Adds::Nothing)
}
