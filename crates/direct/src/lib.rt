// A single answer without a cache (02, T-07): what a part of a text shows over a recording.
#![tactic(auto)]

pub mod evaluate;
pub mod show;
