// What is said of a place: a use of it, and a capture. The mode may be of any scale.
use crate::places::Place;
use scale::sited::Sited;

// A use, or a claim, of a place: how it is used, and the site that uses it.
#[derive(Clone, Copy, PartialEq, Eq, Debug)]
pub struct Use<S> {
    pub place: Place,
    pub mode: Sited<S>,
}

// A captured place: the mode with the site that set it, and the site of the first use under the place.
#[derive(Clone, Copy, PartialEq, Eq, Debug)]
pub struct Capture<S> {
    pub place: Place,
    pub mode: Sited<S>,
    pub first: u16,
}
