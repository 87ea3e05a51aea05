// The calls: open, edit, preview and fetch.
#![tactic(auto)]

pub mod edit;
pub mod fetch;
pub mod lent;
pub mod open;
pub mod preview;
