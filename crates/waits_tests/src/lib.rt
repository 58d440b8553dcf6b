// Tests of waits: a table may hold any sets, with circles among them.

#![tactic(auto)]

#[cfg(test)]
mod circles;
