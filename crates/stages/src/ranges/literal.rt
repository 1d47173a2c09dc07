// Stage 2 of the range of a literal and of a filler.
ghost use Rattle.std.specs.Prelude.{◌≡◌, ℕ, ◌≤◌, true, false, not, List, pos, int_le};
ghost use Rattle.std.specs.Int.Signed.{non_neg};
ghost use Rattle.numbers.specs.Value.{option_of};
ghost use Rattle.stages.specs.ranges.Values.{Tree as TreeIn, usb_of, end_of, usbr_of, UsbFits, Measured, SimplifiedReads};
ghost use Rattle.stages.specs.ranges.Checks.{passes, ends_in_zero, Positive, end_checked, to_width, literal_range, filler_range};

use super::types::{Simplified, Usb, Usbr};
use super::usbr::end_val;
use crate::token_tree::Tree;
use errors::Reason;
use numbers::I128;

// A number above w.
fn above(n: Option<I128>, w: u32) -> bool
    ensures { result ≡ not (passes (λ x. int_le x (pos w)) (option_of n)) }
{
    n.is_some_and(|x| I128::from(w as u64) < x)
}

// An end that is 0.
fn end_zero(end: Option<Usb>) -> bool
    ensures { (image : List ℕ) (t : TreeIn) (base : ℕ) → result ≡ ends_in_zero (end_of image t base «end») }
{
    end.is_some_and(Usb::is_guaranteed_zero)
}

// 25 to 27, of a range that has an end.
fn end_checked(range: Usbr, w: u32, width: Option<I128>) -> Result<Simplified, Reason>
    ensures { (image : List ℕ) (t : TreeIn) (base : ℕ) → Measured image t base range width → Positive (usbr_of image t base range)
        → SimplifiedReads image t base result (end_checked w (usbr_of image t base range)) }
{
    if above(end_val(range.end), w) {
        return Err(Reason::EndAboveWidth);
    }
    if above(width, w) {
        return Err(Reason::RangeAboveWidth);
    }
    if end_zero(range.end) {
        return Err(Reason::EndZero);
    }
    Ok(Simplified { range, width })
}

// "A literal without an end ends at its width"
fn to_width(image: &[u8], tree: Tree, start: Usb, w: u32) -> Simplified
    requires { (base : ℕ) × UsbFits image.now tree base start }
    ensures { (base : ℕ) → UsbFits image.now tree base start
        → SimplifiedReads image.now tree base (Ok result) (to_width w (usb_of image.now tree base start)) }
{
    let range = Usbr {
        start,
        end: Some(Usb::val(I128::from(w as u64))),
    };
    Simplified {
        range,
        width: range.static_width(image, tree),
    }
}

impl Usbr {
    // Of a literal of w bits, its static width known: 24 to 27.
    pub(crate) fn simplify_literal(
        self,
        image: &[u8],
        tree: Tree,
        w: u32,
        width: Option<I128>,
    ) -> Result<Simplified, Reason>
        requires { (1 ≤ w) × ((base : ℕ) × Measured image.now tree base self width × Positive (usbr_of image.now tree base self)) }
        ensures { (base : ℕ) → Measured image.now tree base self width → Positive (usbr_of image.now tree base self)
            → SimplifiedReads image.now tree base result (literal_range w (usbr_of image.now tree base self)) }
    {
        if above(self.start.static_val(), w - 1) {
            return Err(Reason::StartAboveWidth);
        }
        match self.end {
            Some(_) => end_checked(self, w, width),
            None => Ok(to_width(image, tree, self.start, w)),
        }
    }

    // 28.
    pub(crate) fn simplify_filler(self, width: Option<I128>) -> Result<Simplified, Reason>
        ensures { (image : List ℕ) (t : TreeIn) (base : ℕ) → Measured image t base self width
            → SimplifiedReads image t base result (filler_range (usbr_of image t base self)) }
    {
        if self.end.is_some() | self.start.is_guaranteed_zero() {
            Ok(Simplified { range: self, width })
        } else {
            Err(Reason::OpenStart)
        }
    }
}
