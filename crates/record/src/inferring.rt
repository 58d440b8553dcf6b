// Every closure is analysed. These calls are not public before the theorem over any list of calls stands with them.
ghost use Rattle.std.specs.Prelude.{length};
ghost use Rattle.record.specs.History.{Inferred, Called};
ghost use Rattle.record.specs.Steps.{Stays, GoesOn};
ghost use Rattle.record.specs.Views.{grounds};

use crate::calls::Call;
use crate::faults::RecordFault;
use crate::records::Record;
use closures::requests::Request;
use place::uses::Use;
use scale::modes::Mode;
use world::worlds::World;

impl<'a, 't, W: World> Record<'a, 't, W> {
    // Analyses the lowest closure that waits on none left, until all are analysed or an analysis is refused.
    pub(crate) fn infer_all(&mut self, uses: &mut [Use<Mode>]) -> Result<(), RecordFault>
        ensures answers { GoesOn (λ h m. Inferred (grounds W.World.means self.old (length uses.old)) h result m) self.old self.new }
        ensures stays { Stays self.old self.new }
    {
        while let Some(c) = self.closures.next_ready() {
            self.request(Request::Analyse(c as u16), uses)?;
        }
        Ok(())
    }

    pub(crate) fn call(&mut self, call: Call, uses: &mut [Use<Mode>]) -> Result<(), RecordFault>
        ensures answers { GoesOn (λ h m. Called (grounds W.World.means self.old (length uses.old)) h call result m) self.old self.new }
        ensures stays { Stays self.old self.new }
    {
        match call {
            Call::One(request) => self.request(request, uses),
            Call::InferAll => self.infer_all(uses),
        }
    }
}
