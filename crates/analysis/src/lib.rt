// The analysis of one closure: its narrowed uses, its kind, and whether its type is Copy.

#![tactic(auto)]

pub mod closures;
mod copying;
pub mod findings;
mod reaching;
pub mod types;
