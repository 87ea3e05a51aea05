// The calls by their answers. What each call answers and leaves in the lent memory is defined in specs/.
#![tactic(auto)]

pub mod answers;
