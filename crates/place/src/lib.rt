// Places: a binding with a path of steps, and what is said of a place.

#![tactic(auto)]

pub mod path;
pub mod places;
pub mod uses;
