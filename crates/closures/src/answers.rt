// Questions about a closure.
ghost use Rattle.std.specs.Prelude.{◌≡◌, ◌+◌, ◌≤◌, IfSome};
ghost use Rattle.closures.specs.Keeping.{total};
ghost use Rattle.closures.specs.Ledger.{analysis_in};
ghost use Rattle.closures.specs.Requests.{found_in, waits_of};
ghost use Rattle.closures.specs.Views.{ledger, count_of, filled_of, rows_at};

use crate::faults::ClosureFault;
use crate::states::Analysis;
use crate::table::Closures;

impl Closures {
    // How many closures there are.
    pub fn count(&self) -> u8
        ensures { result ≡ count_of self.now }
    {
        self.count
    }

    // How many rows of the capture table the captures fill.
    pub fn filled(&self) -> usize
        ensures is { result ≡ filled_of self.now }
        ensures sums { result ≡ total (λ c. rows_at ((ledger self.now).stage c)) (count_of self.now) }
    {
        self.filled
    }

    // What was found of a closure.
    pub fn analysis(&self, c: u16) -> Result<Analysis, ClosureFault>
        ensures { result ≡ found_in self.now.count (ledger self.now) c }
    {
        let at = self.slot(c)?;
        self.states[at.0 as usize]
            .analysis()
            .ok_or(ClosureFault::NotAnalysed(c))
    }

    // What was found of a closure, if it is analysed; its captures stand within the filled rows.
    pub fn found(&self, c: u8) -> Option<Analysis>
        ensures is { result ≡ analysis_in ((ledger self.now).stage c) }
        ensures within { IfSome result (λ a. a.from + a.count ≤ filled_of self.now) }
    {
        let at = c.checked_sub(1)?;
        self.states.get(at as usize)?.analysis()
    }

    // How many distinct closures a closure waits on.
    pub fn waits(&self, c: u16) -> Result<u32, ClosureFault>
        ensures { result ≡ waits_of self.now.count (ledger self.now) c }
    {
        Ok(self.waits.of(self.slot(c)?).len())
    }
}
