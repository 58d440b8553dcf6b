// A set of closures.
ghost use Rattle.std.specs.Prelude.{◌≡◌, ℕ, ◌||◌, ◌==◌, ◌≤◌};
ghost use Rattle.waits.specs.Words.{has, how_many};

use crate::slots::Slot;
use std::marker::Model;

// Closure k stands at bit k - 1. In a clause a set is its word.
#[derive(Clone, Copy, Debug, PartialEq, Eq)]
pub struct Set {
    word: u64,
}

impl Model for Set {
    ghost Value = { ℕ };

    ghost view = { λ s. s.word };

    ghost inverse = { λ w. record { word = w } };
}

// Any word is a set.
impl From<u64> for Set {
    ghost from_gives = { λ word set. set ≡ word };

    fn from(word: u64) -> Set {
        Set { word }
    }
}

impl From<Set> for u64 {
    ghost from_gives = { λ set word. word ≡ set };

    fn from(set: Set) -> u64 {
        set.word
    }
}

impl Set {
    pub(crate) fn empty() -> Set
        ensures { result ≡ 0 }
    {
        Set { word: 0 }
    }

    pub fn contains(self, c: Slot) -> bool
        ensures { result ≡ has self c }
    {
        self.word >> c.0 & 1 == 1
    }

    // The set with one more closure.
    pub fn with(self, c: Slot) -> Set
        ensures { (d : ℕ) → has result d ≡ (has self d || d == c) }
    {
        Set {
            word: self.word | 1 << c.0,
        }
    }

    // The set with the closures of another.
    pub(crate) fn union(self, other: Set) -> Set
        ensures rises { self ≤ result }
        ensures both { (d : ℕ) → has result d ≡ (has self d || has other d) }
    {
        Set {
            word: self.word | other.word,
        }
    }

    // How many closures the set has.
    pub fn len(self) -> u32
        ensures { result ≡ how_many (has self) 64 }
    {
        self.word.count_ones()
    }
}
