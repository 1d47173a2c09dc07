// Ranges and bounds (src/ranges.rs).
mod bound;
mod literal;
mod number;
mod range;
mod scan;
mod sides;
mod signs;
mod types;
mod usb;
mod usbr;

pub(crate) use range::{parse_range, single_bit};
pub(crate) use types::{Simplified, Usb, Usbr};
pub(crate) use usbr::end_val;
