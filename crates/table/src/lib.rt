// The table world: the types of a body file, by their records.

#![tactic(auto)]

pub mod answers;
pub mod tables;
