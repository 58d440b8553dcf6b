// Scales: total orders with a lowest value, and the highest value of a list with its site.

#![tactic(auto)]

pub mod highest;
pub mod modes;
pub mod order;
pub mod sited;
