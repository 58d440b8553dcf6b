// A new table of closures, and what an analysis enters in it.
ghost use Rattle.std.specs.Prelude.{◌≡◌, ◌+◌, ◌^◌, ◌<◌, ◌≤◌, true, false};
ghost use Rattle.closures.specs.Ledger.{fresh, analysed, is_analysed, is_closure, with_stage};
ghost use Rattle.closures.specs.Views.{ledger};

use crate::states::{Analysis, State};
use crate::table::Closures;
use scale::modes::Kind;
use scale::sited::Sited;
use waits::table::Waits;

impl Closures {
    // So many closures, every one open, and none waiting.
    pub fn new(count: u8) -> Closures
        requires { count ≤ 64 }
        ensures ledger { ledger result ≡ record { stage = λ _. fresh; waits = λ _ _. false } }
        ensures count { result.count ≡ count }
        ensures filled { result.filled ≡ 0 }
    {
        Closures {
            count,
            filled: 0,
            states: [State::Open; 64],
            waits: Waits::new(),
        }
    }

    // Enters what an analysis found, with its captures in the next rows of the capture table.
    pub fn enter(&mut self, closure: u8, kind: Sited<Kind>, count: usize, copies: bool)
        requires named { is_closure self.old.count closure ≡ true }
        requires left { is_analysed ((ledger self.old).stage closure) ≡ false }
        requires fits { self.old.filled + count < 2 ^ 64 }
        ensures ledger { ledger self.new ≡ with_stage (ledger self.old) closure (analysed (record { kind = kind; from = self.old.filled; count = count; copies = copies })) }
        ensures count { self.new.count ≡ self.old.count }
        ensures filled { self.new.filled ≡ self.old.filled + count }
    {
        let from = self.filled;
        self.states[closure as usize - 1] = State::Analysed(Analysis {
            kind,
            from,
            count,
            copies,
        });
        self.filled = from + count;
    }
}
