// A place: a binding with a path.
ghost use Rattle.std.specs.Prelude.{◌≡◌, [], Decides};
ghost use Rattle.std.specs.Option.{option_map};
ghost use Rattle.place.specs.declared.path.Path.{Path as PathOf};
ghost use Rattle.place.specs.Places.{Forest, steps_of, spot, spot_extended, lies_under, same_spot, is_ancestor};

use crate::path::{EMPTY, Path};

#[derive(Clone, Copy, PartialEq, Eq, Debug)]
pub struct Place {
    pub binding: u16,
    pub path: Path,
}

impl Place {
    // The place of a binding itself.
    pub fn whole(binding: u16) -> Place
        ensures { spot result ≡ record { binding = binding; path = [] } }
    {
        Place {
            binding,
            path: EMPTY,
        }
    }

    // The place one step on; none where the path has 16 steps.
    pub fn extend(&self, step: u16) -> Option<Place>
        ensures { option_map spot result ≡ spot_extended (spot self.now) step }
    {
        let path = self.path.extend(step)?;
        Some(Place {
            binding: self.binding,
            path,
        })
    }

    // Whether this place is the other or lies below it.
    pub fn lies_under(&self, other: &Place) -> bool
        ensures { result ≡ lies_under (spot self.now) (spot other.now) }
    {
        self.binding == other.binding && other.path.is_prefix_of(&self.path)
    }

    // Whether this place is the other.
    pub fn is_same(&self, other: &Place) -> bool
        ensures is { result ≡ same_spot (spot self.now) (spot other.now) }
        ensures one { Decides result (self.now ≡ other.now) }
    {
        self == other
    }

    // Whether this place is a proper ancestor of the other.
    pub fn is_ancestor_of(&self, other: &Place) -> bool
        ensures { result ≡ is_ancestor (spot self.now) (spot other.now) }
    {
        other.lies_under(self) && !self.lies_under(other)
    }
}

// Of every three places: lying under is an order, and the places that one lies under form a chain.
pub fn ancestry_stands()
    ensures { Forest lies_under }
{}

// Paths with the same steps are one value, so that what is shown of steps holds of the paths.
pub fn views_stand()
    ensures { (p q : PathOf) → steps_of p ≡ steps_of q → p ≡ q }
{}
