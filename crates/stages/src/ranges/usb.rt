// Usb: a text plus a number.
ghost use Rattle.std.specs.Prelude.{◌≡◌, ℕ, ◌≤◌, List, length};
ghost use Rattle.definition.specs.Ranges.{static_val};
ghost use Rattle.definition.specs.Component.{is_zero, simplify_usb};
ghost use Rattle.numbers.specs.Value.{value_of, option_of};
ghost use Rattle.stages.specs.ranges.Values.{Tree as TreeIn, zero_by, new_by, val_by, usb_of, UsbFits, UsbReads};
ghost use Rattle.stages.specs.ranges.Sides.{moved_text, raised_one};

use super::number::number_in;
use super::types::Usb;
use crate::token_tree::{Part, Tree, no_text};
use errors::Reason;
use numbers::I128;

impl Usb {
    pub(crate) fn zero() -> Self
        ensures { result ≡ zero_by }
    {
        Usb::val(I128::ZERO)
    }

    pub(crate) fn new_s(s: Part) -> Self
        ensures { result ≡ new_by s }
    {
        Usb { s, x: I128::ZERO }
    }

    pub(crate) fn val(x: I128) -> Self
        ensures { result ≡ val_by x }
    {
        Usb { s: no_text(), x }
    }

    // A text that is a number is added to x and emptied: 20.
    pub(crate) fn simplify(self, image: &[u8], tree: Tree) -> Result<Usb, Reason>
        requires { (base : ℕ) × UsbFits image.now tree base self }
        ensures { (base : ℕ) → UsbFits image.now tree base self
            → UsbReads image.now tree base result (simplify_usb (usb_of image.now tree base self)) }
    {
        let s = self.s;
        let len = s.len as usize;
        if len == 0 {
            return Ok(self);
        }
        match number_in(image, tree.text + (s.at.0 as usize), len) {
            Some(v) => self.moved(v),
            None => Ok(self),
        }
    }

    // The text, whose number is v, emptied: 20.
    fn moved(self, v: I128) -> Result<Usb, Reason>
        ensures { (image : List ℕ) (t : TreeIn) (base : ℕ) → t.text ≤ length image → UsbReads image t base result (moved_text (value_of self.x) (value_of v)) }
    {
        let x = self.x.checked_add(v).ok_or(Reason::Overflow)?;
        Ok(Usb::val(x))
    }

    // The end of `..=`: 16.
    pub(crate) fn raised(self) -> Result<Usb, Reason>
        ensures { (image : List ℕ) (t : TreeIn) (base : ℕ) → UsbFits image t base self
            → UsbReads image t base result (raised_one (usb_of image t base self)) }
    {
        let x = self.x.checked_add(I128::ONE).ok_or(Reason::BoundOverflow)?;
        Ok(Usb { x, ..self })
    }

    // The number of a bound without a text.
    pub(crate) fn static_val(self) -> Option<I128>
        ensures { (image : List ℕ) (t : TreeIn) (base : ℕ) → option_of result ≡ static_val (usb_of image t base self) }
    {
        (self.s.len == 0).then_some(self.x)
    }

    pub(crate) fn is_guaranteed_zero(self) -> bool
        ensures { (image : List ℕ) (t : TreeIn) (base : ℕ) → result ≡ is_zero (usb_of image t base self) }
    {
        self.s.len == 0 && self.x.is_zero()
    }
}
