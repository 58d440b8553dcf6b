// What the record tells an analysis of the other closures.
ghost use Rattle.std.specs.Prelude.{◌≡◌, ◌≤◌, length, map};
ghost use Rattle.closures.specs.Ledger.{kept_by};
ghost use Rattle.closures.specs.Views.{ledger, filled_of};
ghost use Rattle.record.specs.History.{told};
ghost use Rattle.record.specs.Reads.{read};
ghost use Rattle.scene.specs.Inner.{held};

use closures::table::Closures;
use place::uses::Capture;
use scale::modes::Mode;
use scene::inner::Inner;

// The closures, and the capture table with what was found of them.
#[derive(Drop)]
pub struct Known<'a> {
    pub closures: &'a Closures,
    pub table: &'a [Capture<Mode>],
    ghost fits: { filled_of closures.now ≤ length table.now },
}

impl Known<'_> {
    // The captures of a closure, which stand in the table; none where it is not analysed.
    fn captures(&self, closure: u8) -> &[Capture<Mode>]
        ensures { map held result.now ≡ (told (kept_by (read self.now.table.now) (ledger self.now.closures.now))).captured closure }
    {
        match self.closures.found(closure) {
            Some(found) => &self.table[found.from..found.from + found.count],
            None => &[],
        }
    }
}

impl Inner for Known<'_> {
    ghost tells = { λ k. told (kept_by (read k.table.now) (ledger k.closures.now)) };

    fn count(&self, closure: u8) -> usize {
        self.captures(closure).len()
    }

    fn capture(&self, closure: u8, at: usize) -> Capture<Mode> {
        self.captures(closure)[at]
    }

    fn copies(&self, closure: u8) -> Option<bool> {
        self.closures.found(closure).map(|found| found.copies)
    }
}
