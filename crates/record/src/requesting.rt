// What becomes of a call about one closure.
ghost use Rattle.std.specs.Prelude.{length};
ghost use Rattle.closures.specs.declared.requests.Request.TheVariants.{Depend, Preset, Analyse};
ghost use Rattle.record.specs.Steps.{Carried};

use crate::faults::RecordFault;
use crate::records::Record;
use closures::requests::Request;
use place::uses::Use;
use scale::modes::{Kind, Mode};
use world::worlds::World;

impl<'a, 't, W: World> Record<'a, 't, W> {
    // Grants a request, or refuses it and changes nothing. An analysis uses the use table.
    pub fn request(&mut self, request: Request, uses: &mut [Use<Mode>]) -> Result<(), RecordFault>
        ensures { Carried W.World.means (length uses.old) request self.old self.new result }
    {
        match self.closures.decide(request)? {
            Some(task) => self.analyse_as(task, uses),
            None => Ok(()),
        }
    }

    // The first closure waits on the second.
    pub fn depend(&mut self, c: u16, d: u16) -> Result<(), RecordFault>
        ensures { Carried W.World.means 0 (Depend c d) self.old self.new result }
    {
        self.request(Request::Depend(c, d), &mut [])
    }

    // The analysis of the closure is to report the kind.
    pub fn preset(&mut self, c: u16, kind: Kind) -> Result<(), RecordFault>
        ensures { Carried W.World.means 0 (Preset c kind) self.old self.new result }
    {
        self.request(Request::Preset(c, kind), &mut [])
    }

    pub fn analyse(&mut self, c: u16, uses: &mut [Use<Mode>]) -> Result<(), RecordFault>
        ensures { Carried W.World.means (length uses.old) (Analyse c) self.old self.new result }
    {
        self.request(Request::Analyse(c), uses)
    }
}
