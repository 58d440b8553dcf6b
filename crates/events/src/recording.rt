// One more use in the use table.
ghost use Rattle.std.specs.Prelude.{[], ◌∷◌};
ghost use Rattle.narrow.specs.Views.{view};
ghost use Rattle.events.specs.Events.{puts, Ran};

use crate::recorder::Recorder;
use place::uses::Use;
use scale::modes::Mode;
use scene::faults::WalkFault;

impl<W, I> Recorder<'_, '_, W, I> {
    // A use in the next row.
    pub fn push(&mut self, used: Use<Mode>) -> Result<(), WalkFault>
        ensures { Ran (puts (view used) ∷ []) self.old self.new result }
    {
        if self.len == self.uses.len() {
            return Err(WalkFault::NoRow);
        }
        self.uses[self.len] = used;
        self.len += 1;
        Ok(())
    }
}
