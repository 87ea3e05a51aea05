// How a text's records are bound to the entries of a table: found or appended in the call's own frame, and then written.
#![tactic(auto)]

pub mod bind;
pub mod commit;
