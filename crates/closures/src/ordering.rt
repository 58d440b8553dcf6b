// Which closure can be analysed next.
ghost use Rattle.std.specs.Prelude.{◌≡◌, ℕ, true, None};
ghost use Rattle.closures.specs.Ledger.{is_analysed, is_closure, left_of, first_left, is_ready, next_ready};
ghost use Rattle.closures.specs.Views.{ledger};

use crate::states::State;
use crate::table::Closures;
use waits::slots::Slot;

impl Closures {
    fn is_done(&self, c: Slot) -> bool
        ensures { result ≡ is_analysed ((ledger self.now).stage c) }
    {
        matches!(self.states[c.0 as usize], State::Analysed(_))
    }

    // Whether the one waits on the other, which is not analysed.
    fn is_left(&self, c: Slot, d: Slot) -> bool
        ensures { result ≡ left_of (ledger self.now) c d }
    {
        self.waits.of(c).contains(d) && !self.is_done(d)
    }

    // The lowest closure that one waits on and that is not analysed.
    pub(crate) fn first_left(&self, c: Slot) -> Option<u8>
        ensures { result ≡ first_left self.now.count (ledger self.now) c }
    {
        for j in 0..self.count {
            if self.is_left(c, Slot(j)) {
                return Some(j + 1);
            }
        }
        None
    }

    // Whether a closure is not analysed, and waits on none left.
    fn is_ready(&self, c: Slot) -> bool
        ensures { result ≡ is_ready self.now.count (ledger self.now) c }
    {
        !self.is_done(c) && self.first_left(c).is_none()
    }

    // The lowest closure that is not analysed and waits on none left. Since no closure waits on itself, there is one until
    // all are analysed.
    pub fn next_ready(&self) -> Option<u8>
        ensures is { result ≡ next_ready self.now.count (ledger self.now) }
        ensures all { result ≡ None → (c : ℕ) → is_closure self.now.count c ≡ true → is_analysed ((ledger self.now).stage c) ≡ true }
    {
        for i in 0..self.count {
            if self.is_ready(Slot(i)) {
                return Some(i + 1);
            }
        }
        None
    }
}
