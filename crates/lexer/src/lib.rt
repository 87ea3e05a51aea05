// The tokens of a text, from the lent bytes at a place. What a token is stands in the crate grammar.
#![tactic(auto)]

pub mod tokens;
