// The nodes of a body as typed values: expressions and patterns, with their operands.

#![tactic(auto)]

pub mod decode;
pub mod lists;
pub mod nodes;
