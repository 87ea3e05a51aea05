// The engine does what the reference model does, over every list of calls: see specs/.
#![tactic(auto)]
