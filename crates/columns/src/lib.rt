// Members on cells: one at a time, and a column at a time, from the columns and constants that it is made from.
#![tactic(auto)]

pub mod calling;
pub mod column;
pub mod leaves;
pub mod loops;
