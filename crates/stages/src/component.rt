// A component (src/component.rs): stages 1 and 2, and the starting value.
mod parse;
mod read;
mod simplify;
mod start;
mod tests;
mod types;
mod walk;

pub(crate) use start::{Start, starting_value};
pub use types::{Bits, Component, ComponentType};
pub(crate) use walk::stage2;
