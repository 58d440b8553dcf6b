// Tests of the cover: a small scale whose values no cut changes, and capture modes in the spelled world.

#![tactic(auto)]

mod rights;
#[cfg(test)]
mod rows;
#[cfg(test)]
mod tests;
