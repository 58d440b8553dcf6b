// The records of a body file: how a file falls into records, what a record may hold, and the
// refusals that one record can meet by itself. A reader steps from record to record.

#![tactic(auto)]

pub mod class;
pub mod counts;
pub mod entries;
pub mod faults;
pub mod numbers;
pub mod operands;
pub mod payload;
pub mod pieces;
pub mod reader;
pub mod records;
pub mod types;
