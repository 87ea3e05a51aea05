// What the engine promises over every run of calls: definitions and theorems alone.
#![tactic(auto)]
