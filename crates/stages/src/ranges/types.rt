// Bounds and ranges as values.
use crate::token_tree::Part;
use numbers::I128;

// A text plus a number.
#[derive(Clone, Copy)]
pub struct Usb {
    pub s: Part,
    pub x: I128,
}

// A start, and an end if there is one. An empty start is 0.
#[derive(Clone, Copy)]
pub struct Usbr {
    pub start: Usb,
    pub end: Option<Usb>,
}

// A range as stage 2 leaves it, with its static width.
#[derive(Clone, Copy)]
pub struct Simplified {
    pub range: Usbr,
    pub width: Option<I128>,
}
