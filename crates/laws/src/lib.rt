// laws.
#![tactic(auto)]
