// Which closure waits on which: a set of closures is a word, and a table of waits has a set for each closure.

#![tactic(auto)]

pub mod reach;
pub mod sets;
pub mod slots;
pub mod table;
