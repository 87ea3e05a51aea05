// What a let-free form comes to by recursion over it and what its variables stand for, by level (02, T-07): see specs/. Its code is in the crate
// interpreter.
#![tactic(auto)]
