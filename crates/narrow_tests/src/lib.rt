// Tests of type worlds, places and narrowing, with a small type world to test in.

#![tactic(auto)]

#[cfg(test)]
mod narrowing;
#[cfg(test)]
mod paths;
pub mod sample;
#[cfg(test)]
mod spelling;
