// The language of formulas as the reference model takes it, and the sample previews of 01 proved of it: see specs/.
#![tactic(auto)]
