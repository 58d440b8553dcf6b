// The record of a body's closures: what calls make of them, and what it answers.

#![tactic(auto)]

pub mod answers;
pub mod calls;
pub mod entering;
pub mod faults;
pub mod inferring;
mod known;
pub mod laws;
pub mod records;
pub mod requesting;
