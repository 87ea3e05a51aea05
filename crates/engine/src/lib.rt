// The engine for programs in C: open, edit, preview and print under names of their own, with the answers as plain numbers.
#![tactic(auto)]

pub mod exports;
