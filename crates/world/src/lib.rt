// Type worlds: what a world says of types by their numbers, and the spelled world.

#![tactic(auto)]

pub mod shapes;
pub mod spelled;
pub mod worlds;
