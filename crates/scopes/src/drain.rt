// The dangling list is handed out.
ghost use Rattle.std.specs.Prelude.{◌≡◌, length};
ghost use Rattle.rules.specs.Sizes.{SLOTS};
ghost use Rattle.scopes.specs.Steps.{Whole, Drains, KeepsFrom};

use crate::{OF_NOBODY, Scopes};
use rules::{DANGLING, SLOTS};

impl Scopes {
    // The dangling list goes into `out`, in order, and is empty then; `out` stays as it was from there on. How many there were.
    pub fn drain(&mut self, out: &mut [u16; SLOTS]) -> usize
        requires { Whole self.old × (length out.old ≡ SLOTS) }
        ensures drains { Drains self.old self.new result out.new }
        ensures keeps_from { KeepsFrom out result }
    {
        let mut n = 0;
        // Each turn takes the first of the list away, so this is no count.
        while let Some(a) = links::first(&self.links, DANGLING) {
            out[n] = a as u16;
            n += 1;
            links::unlink(&mut self.links, a);
            self.owner[a] = OF_NOBODY;
        }
        n
    }
}
