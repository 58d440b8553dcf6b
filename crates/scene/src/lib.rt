// What a walk of a closure's body looks at: the scene, its nodes, and the places of its expressions.

#![tactic(auto)]

pub mod faults;
pub mod inner;
pub mod nodes;
pub mod places;
pub mod scenes;
