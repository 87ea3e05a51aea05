// The table of entries: what they await, and when they are well-formed.
#![tactic(auto)]

pub mod chain;
pub mod check;
pub mod entries;
pub mod waits;
