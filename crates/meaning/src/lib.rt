// Let-free forms, let elimination, and what a form shows over a recording: see specs/.
#![tactic(auto)]
