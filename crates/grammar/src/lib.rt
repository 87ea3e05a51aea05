// Tokens, the grammar and its limits, and a reader on the level of definitions: see specs/.
#![tactic(auto)]
