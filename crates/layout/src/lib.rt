// The arrangement of the cache's memory: an entry's cells by name, and nodes, which are what entries are.
#![tactic(auto)]

pub mod cells;
pub mod nodes;
