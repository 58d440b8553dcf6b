// Rows for tests.
use place::places::Place;
use place::uses::{Capture, Use};
use scale::sited::Sited;

// More than 16 steps.
#[derive(Clone, Copy, Debug)]
pub struct TooLong {}

// The place of a binding with steps.
pub fn at(binding: u16, steps: &[u16]) -> Result<Place, TooLong> {
    steps.iter().try_fold(
        Place::whole(binding),
        |place, step| place.extend(*step).ok_or(TooLong {}),
    )
}

pub fn asks<S>(place: Place, value: S, site: u16) -> Use<S> {
    Use {
        place,
        mode: Sited { value, site },
    }
}

pub fn gives<S>(place: Place, value: S, site: u16, first: u16) -> Capture<S> {
    Capture {
        place,
        mode: Sited { value, site },
        first,
    }
}
