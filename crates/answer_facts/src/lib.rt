// Theorems about the definition's answers: they can be read back, they fit, what merging leaves, and the order of the stages.
#![tactic(auto)]
