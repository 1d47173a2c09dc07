// A run (document 01) in one way: admission; the starting value; every component read once and kept as it is; stages 3, 4 and 5 over what
// is kept. Modules are the Rust's files, and document 01's answer and run.
#![tactic(auto)]

mod admission;
mod answer;
mod component;
mod concatenation;
pub mod in_force;
mod ranges;
pub mod run;
mod token_tree;
