// The records that a text is read to: see specs/.
#![tactic(auto)]
