// "each occupied slot is once on one live scope's list and no other slot is on any"; "size is above every occupied slot and at most 1,024", with W-206 4,096:
// address by address, by the owner table.
ghost use Rattle.std.specs.Prelude.{◌<◌};
ghost use Rattle.rules.specs.Sizes.{SLOTS};
ghost use Rattle.rules.specs.Tells.{Tells};
ghost use Rattle.scopes.specs.Sound.{Owned};
ghost use Rattle.soundness.specs.Parts.{OwnedAt};

use rules::SLOTS;
use scopes::Scopes;

pub fn owned_at(s: &Scopes, a: usize) -> bool
    requires { a < SLOTS }
    ensures { Tells result (OwnedAt s.now.halves s.now.owner s.now.live s.now.size a) }
{
    let taken = slots::halves::occupied(&s.halves, a);
    match s.live.get(usize::from(s.owner[a])) {
        None => !taken,
        Some(live) => taken && *live && a < s.size,
    }
}

pub fn owned(s: &Scopes) -> bool
    ensures { Tells result (Owned s.now.halves s.now.owner s.now.live s.now.size) }
{
    s.size <= SLOTS && (0..SLOTS).all(|a| owned_at(s, a))
}
