// cutting.
#![tactic(auto)]
