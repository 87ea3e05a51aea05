// The text that a form is printed as: see specs/.
#![tactic(auto)]
