// What holds of every record.
ghost use Rattle.record.specs.History.{History};
ghost use Rattle.record.specs.Views.{Agrees};

use crate::records::Record;

impl<'a, 't, W> Record<'a, 't, W> {
    // It agrees with some history: so what a call promises of each history that it agrees with is promised of one.
    pub fn history_stands(&self)
        ensures { (h : History) × Agrees self.now h }
    {}
}
