// Working out one entry: its packed value from the values of those below it.
#![tactic(auto)]

pub mod frames;
pub mod reach;
pub mod working;
