// A prepared image: its words and tables, the check (document 01, numbers 2 to 7), and the writer of images (document 02).
#![tactic(auto)]

pub mod check;
mod record_rules;
pub mod token_tree;
mod words;
pub mod writer;
