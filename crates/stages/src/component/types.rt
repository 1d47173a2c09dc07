// A component as a value.
use crate::ranges::{Usb, Usbr};
use crate::token_tree::{PText, Part};
use numbers::I128;

// Bits from .. to of the literal that stands at byte `at` of the image.
#[derive(Clone, Copy)]
pub struct Bits {
    pub at: u32,
    pub from: u32,
    pub to: u32,
}

#[derive(Clone, Copy)]
pub enum ComponentType {
    Literal(Bits),
    Variable(Part),
    Filler,
}

// `width` is what static_width gives once the component is simplified; none before.
#[derive(Clone, Copy)]
pub struct Component {
    pub c_type: ComponentType,
    pub range: Usbr,
    pub width: Option<I128>,
}

impl Component {
    // What stands in a place that keeps none yet: all zeros, so that clearing many is one memset.
    pub const NONE: Component = Component {
        c_type: ComponentType::Literal(Bits {
            at: 0,
            from: 0,
            to: 0,
        }),
        range: Usbr {
            start: Usb {
                s: Part {
                    at: PText(0),
                    len: 0,
                },
                x: I128::ZERO,
            },
            end: None,
        },
        width: None,
    };
}

// A run keeps up to 256 of them on its stack.
const _: () = prove!(size_of::<Component>() == 96);
