// The definition that the reader's code equals, and that it reads what the grammar says: see specs/.
#![tactic(auto)]
