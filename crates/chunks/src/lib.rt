// Runs of a function by columns, where every entry that they work out again is a member that runs no function: a chunk of readings at a time,
// entry by entry.
#![tactic(auto)]

pub mod body;
pub mod fitting;
pub mod rows;
pub mod running;
