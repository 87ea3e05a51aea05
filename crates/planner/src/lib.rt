// What an edit comes to before any lent cell is written: the text is read and bound in the call's own frame.
#![tactic(auto)]

pub mod plan;
