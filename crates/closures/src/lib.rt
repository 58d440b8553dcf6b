// The closures of a body as the record keeps them: the state of each, and which it waits on.

#![tactic(auto)]

pub mod answers;
pub mod deciding;
pub mod entering;
pub mod faults;
pub mod ordering;
pub mod requests;
pub mod states;
pub mod table;
