// Print: the text of an entry's let-free form, written to the lent bytes.
#![tactic(auto)]

pub mod judge;
pub mod print;
