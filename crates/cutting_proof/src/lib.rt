// cutting_proof.
#![tactic(auto)]
