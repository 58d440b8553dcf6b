// The analysis of a closure, entered in the record.
ghost use Rattle.std.specs.Prelude.{◌≡◌, true, false, map, length};
ghost use Rattle.body.specs.Bodies.{body_of};
ghost use Rattle.cover.specs.Views.{used};
ghost use Rattle.mode_cover.specs.Modes.{captures_by_mode};
ghost use Rattle.closures.specs.Ledger.{is_analysed, is_closure, preset_in};
ghost use Rattle.closures.specs.Views.{count_of};
ghost use Rattle.record.specs.History.{types_in, analysis_of};
ghost use Rattle.record.specs.Steps.{Stays, Found, Laid, Enters, Unwritten};
ghost use Rattle.record.specs.Views.{view, grounds, setting};

use crate::faults::RecordFault;
use crate::known::Known;
use crate::records::{Record, Store};
use analysis::closures::analyse;
use analysis::findings::Findings;
use analysis::types::BodyTypes;
use body::bodies::Body;
use closures::requests::Task;
use mode_cover::by_mode::cover_by_mode;
use place::uses::{Capture, Use};
use scale::modes::Mode;
use scene::scenes::Scene;
use world::worlds::World;

impl<'t> Store<'t> {
    // Writes the captures of a closure's narrowed uses behind the filled rows: how many there are.
    fn write<'b, W: World>(
        &mut self,
        world: &'b W,
        body: &'b Body<'b>,
        closure: u8,
        uses: &[Use<Mode>],
        filled: usize,
    ) -> Result<usize, RecordFault>
        ensures { Laid (captures_by_mode (W.World.means world.now) (types_in (W.World.means world.now) (body_of body.now)) (map used uses.now)) filled closure self.old self.new result }
    {
        let types = BodyTypes { world, body };
        let written = cover_by_mode(world, &types, uses, self.rows, filled);
        written.map_err(|_| RecordFault::Full { closure })
    }
}

impl<'a, 't, W: World> Record<'a, 't, W> {
    // What an analysis of a closure finds, by what the record keeps of the others.
    fn find(&self, task: Task, uses: &mut [Use<Mode>]) -> Result<Findings, RecordFault>
        ensures { Found (setting W.World.means self.now task.closure) task.preset uses.old uses.new result }
    {
        let closure = task.closure;
        let known = Known {
            closures: &self.closures,
            table: &*self.table.rows,
        };
        let scene = Scene {
            world: self.world,
            body: self.body,
            closure,
            inner: &known,
        };
        let found = analyse(&scene, task.preset, uses);
        found.map_err(|fault| RecordFault::Walk { closure, fault })
    }

    // Analyses a closure that is not analysed, and enters what is found; a refusal changes nothing.
    pub(crate) fn analyse_as(
        &mut self,
        task: Task,
        uses: &mut [Use<Mode>],
    ) -> Result<(), RecordFault>
        requires named { is_closure (count_of self.old.closures) task.closure ≡ true }
        requires left { is_analysed ((view self.old).stage task.closure) ≡ false }
        requires preset { task.preset ≡ preset_in ((view self.old).stage task.closure) }
        ensures enters { Enters task.closure (analysis_of (grounds W.World.means self.old (length uses.old)) (view self.old) task.closure) (view self.old) (view self.new) result }
        ensures stays { Stays self.old self.new }
        ensures unwritten { Unwritten self.old self.new result }
    {
        // the captures lie within a table whose length is a usize, so that the rows behind them can be counted
        let _rows = self.table.rows.len();
        let closure = task.closure;
        let found = self.find(task, uses)?;
        let narrowed = &uses[..found.uses];
        let filled = self.closures.filled();
        let count = self
            .table
            .write(self.world, self.body, closure, narrowed, filled)?;
        self.closures
            .enter(closure, found.kind, count, found.copies);
        Ok(())
    }
}
