// Which closures one waits on, through others too.
ghost use Rattle.std.specs.Prelude.{◌≡◌, ℕ, ◌≤◌, true, false, ◌⊎◌};
ghost use Rattle.waits.specs.Words.{has};
ghost use Rattle.waits.specs.Reach.{Waiting, Waits as WaitsOf, Reach};
ghost use Rattle.waits.specs.Table.{waits_by, Added};

use crate::sets::Set;
use crate::slots::Slot;
use crate::table::Waits;

// A wait would close a circle.
#[derive(Clone, Copy, Debug, PartialEq, Eq)]
pub struct Circle;

// The set with all that its closures wait on.
fn grow(sets: &[Set; 64], seen: Set) -> Set
    ensures rises { seen ≤ result }
    ensures sound { (d : ℕ) → has result d ≡ true → (has seen d ≡ true) ⊎ ((c : ℕ) × (has seen c ≡ true) × WaitsOf sets.now c d) }
    ensures keeps { (d : ℕ) → has seen d ≡ true → has result d ≡ true }
    ensures grows { (c d : ℕ) → has seen c ≡ true → WaitsOf sets.now c d → has result d ≡ true }
{
    let mut all = seen;
    for (i, set) in sets.iter().enumerate() {
        if seen.contains(Slot(i as u8)) {
            all = all.union(*set);
        }
    }
    all
}

// The closures that one reaches by waits, itself too. Of any sets: there may be circles among them.
pub fn reached(sets: &[Set; 64], from: Slot) -> Set
    ensures sound { (d : ℕ) → has result d ≡ true → Reach (WaitsOf sets.now) from d }
    ensures whole { (d : ℕ) → Reach (WaitsOf sets.now) from d → has result d ≡ true }
{
    let mut seen = Set::empty().with(from);
    loop {
        let next = grow(sets, seen);
        if next == seen {
            return seen;
        }
        seen = next;
    }
}

impl Waits {
    // No closure waits.
    pub fn new() -> Waits
        ensures { waits_by result ≡ (λ _ _. false) }
    {
        Waits {
            sets: [Set::empty(); 64],
        }
    }

    // The closures that one waits on.
    pub fn of(&self, c: Slot) -> Set
        ensures { (d : ℕ) → has result d ≡ waits_by self.now c d }
    {
        self.sets[c.0 as usize]
    }

    // The closures that one reaches by waits, itself too.
    pub fn reached(&self, from: Slot) -> Set
        ensures sound { (d : ℕ) → has result d ≡ true → Reach (Waiting (waits_by self.now)) from d }
        ensures whole { (d : ℕ) → Reach (Waiting (waits_by self.now)) from d → has result d ≡ true }
    {
        reached(&self.sets, from)
    }

    // The first closure waits on the second too, unless that closes a circle.
    pub fn add(&mut self, c: Slot, d: Slot) -> Result<(), Circle>
        ensures { Added self.old c d result self.new }
    {
        if self.reached(d).contains(c) {
            return Err(Circle);
        }
        let at = c.0 as usize;
        self.sets[at] = self.sets[at].with(d);
        Ok(())
    }
}
