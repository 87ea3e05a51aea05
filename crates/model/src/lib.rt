// The reference model of the papers and demand 3 over it: all of it is antt, in specs/.
#![tactic(auto)]
