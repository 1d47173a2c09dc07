// A concatenation (src/concatenation.rs): stages 3 and 4 over the kept components.
pub(crate) mod alignment;
mod check;
mod overall;
mod position;
mod running_check;
mod stage3;
mod stage4;
mod width;

pub(crate) use overall::Overall;
pub(crate) use running_check::Running;
pub(crate) use stage3::{Concatenation, stage3};
pub(crate) use stage4::stage4;
