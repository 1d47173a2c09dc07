// Theorems only: specs/.
#![tactic(auto)]
