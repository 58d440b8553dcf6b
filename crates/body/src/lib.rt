// An opened body: a file whose records fit together, with an index table over them.

#![tactic(auto)]

pub mod answers;
pub mod bodies;
pub mod open;
