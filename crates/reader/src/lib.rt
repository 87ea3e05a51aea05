// Reads a text into records, or refuses it at a place. What each function gives is defined in specs/ and in the crate descent.
#![tactic(auto)]

pub mod answer;
pub mod parser;
