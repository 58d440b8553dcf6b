// The uses that a walk records of one place, or of what a match looks at.

#![tactic(auto)]

pub mod captures;
pub mod matches;
pub mod recorder;
pub mod recording;
