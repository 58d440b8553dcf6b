// The cover by capture modes, in any type world: the first instance of the cover.

#![tactic(auto)]

pub mod bindings;
pub mod by_mode;
pub mod lent;
pub mod one_type;
