// The language of formulas: its limits, its names and its refusals. What a text and a formula are is defined in specs/.
#![tactic(auto)]

pub mod limits;
pub mod names;
pub mod refusals;
