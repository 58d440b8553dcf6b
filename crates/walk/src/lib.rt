// The walk of a closure's body: which uses of places it records, in which order.

#![tactic(auto)]

pub mod exprs;
pub mod marks;
pub mod uses;
