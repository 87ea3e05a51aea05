// The table of entries and the records of a text stand for let-free forms: see specs/.
#![tactic(auto)]
