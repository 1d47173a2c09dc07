// prepared.
#![tactic(auto)]
