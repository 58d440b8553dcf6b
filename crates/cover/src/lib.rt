// The cover: the captures of a list of uses, over any scale with a cutting rule.

#![tactic(auto)]

pub mod captures;
mod covering;
pub mod cutting;
pub mod full;
mod roots;
mod telling;
