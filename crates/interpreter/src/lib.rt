// What a part of a text comes to (02, T-07), by recursion over the records that the text is read to and over what its variables stand for. No cache:
// what is worked out on the way is forgotten when the answer is given.
#![tactic(auto)]

pub mod bindings;
pub mod memo;
pub mod names;
pub mod orders;
pub mod walk;
