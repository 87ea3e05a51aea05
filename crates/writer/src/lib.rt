// The text of an entry's let-free form, written from right to left onto a page.
#![tactic(auto)]

pub mod page;
pub mod put;
mod whole;
pub mod write;
