// How many records of each sort a reader has passed, and how many there may be.
ghost use Rattle.std.specs.Prelude.{◌≡◌};
ghost use Rattle.reader.specs.Counting.{one_more};

use crate::payload::Item;

// None of each by default.
#[derive(Clone, Copy, PartialEq, Eq, Debug, Default)]
pub struct Counts {
    pub types: u16,
    pub bindings: u16,
    pub nodes: u16,
    pub closures: u8,
}

pub const MOST_TYPES: u16 = 1024;

pub const MOST_BINDINGS: u16 = 512;

pub const MOST_NODES: u16 = 2048;

pub const MOST_CLOSURES: u8 = 64;

impl Counts {
    // The counts with one more of an item; none where that is one too many.
    pub fn one_more(mut self, item: Item) -> Option<Counts>
        ensures { result ≡ one_more self item }
    {
        match item {
            Item::Type if self.types < MOST_TYPES => self.types += 1,
            Item::Binding if self.bindings < MOST_BINDINGS => self.bindings += 1,
            Item::Node if self.nodes < MOST_NODES => self.nodes += 1,
            Item::Closure if self.nodes < MOST_NODES && self.closures < MOST_CLOSURES => {
                self.nodes += 1;
                self.closures += 1;
            }
            _ => return None,
        }
        Some(self)
    }
}
