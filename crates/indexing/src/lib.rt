// The one pass over a file that opens it, and its index table: a row a record.

#![tactic(auto)]

pub mod check;
pub mod faults;
pub mod index;
pub mod rows;
