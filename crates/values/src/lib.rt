// The code of the members' rules, and values as cells of memory and as plain numbers. The rules are defined in the crate rules.
#![tactic(auto)]

pub mod apply;
pub mod numbers;
pub mod packing;
pub mod runs;
pub mod shown;
pub mod stretches;
pub mod windows;
