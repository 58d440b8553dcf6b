// The place of a closure in a table of 64.
ghost use Rattle.std.specs.Prelude.{ℕ, suc, ◌-◌, ◌<◌};

use std::marker::Model;

// Closure k stands at place k - 1. In a clause a slot is the number of its closure.
#[derive(Clone, Copy, Debug, PartialEq, Eq)]
pub struct Slot(pub u8);

impl Model for Slot {
    ghost Value = { ℕ };

    ghost view = { λ s. suc s.0 };

    ghost invariant = { λ s. s.0 < 64 };

    ghost inverse = { λ c. record { 0 = c - 1 } };
}
