// FillerAlign (src/concatenation.rs).
mod align;

pub use align::FillerAlign;
pub(crate) use align::{align_number, filler_align, is_opposite, join_align};
