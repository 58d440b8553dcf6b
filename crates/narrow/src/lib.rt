// Narrowing: how far the path of a use is kept, and with which mode, before the captures are formed.

#![tactic(auto)]

pub mod kinds;
pub mod laws;
pub mod rules;
pub mod walks;
