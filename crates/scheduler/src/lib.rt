// The work of one preview: which entries are worked out, in what order and up to what allowance, what is kept, and what an entry shows.
#![tactic(auto)]

pub mod works;
