// The records that a text is read to, in the arrays of a call's frame: see specs/.
#![tactic(auto)]
