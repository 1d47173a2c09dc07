// The definition of a run, document 01 in antt: specs/ is all of it, and all that a reader must believe.
#![tactic(auto)]
