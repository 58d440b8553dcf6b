// A table of waits.
ghost use Rattle.waits.specs.Words.{waits_in};
ghost use Rattle.waits.specs.Reach.{Waiting, Acyclic};

use crate::sets::Set;

// For each closure the set of those that it waits on. No closure waits on itself, even through others.
#[derive(Clone, Copy)]
pub struct Waits {
    pub(crate) sets: [Set; 64],
    ghost acyclic: { Acyclic (Waiting (waits_in sets)) },
}
