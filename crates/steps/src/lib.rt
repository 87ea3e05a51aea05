// The steps of the parser: the cursor over a text, what is refused at a token, and the records that are written. What each function gives is
// defined in the crate descent.
#![tactic(auto)]

pub mod cursor;
pub mod scratch;
