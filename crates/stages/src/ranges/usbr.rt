// Usbr: a range, its static width, and stage 2 of it up to 23.
ghost use Rattle.std.specs.Prelude.{◌≡◌, ℕ, not, List};
ghost use Rattle.std.specs.Int.Signed.{non_neg};
ghost use Rattle.definition.specs.Ranges.{static_val, static_width};
ghost use Rattle.definition.specs.Component.{simplify_end, simplify_range};
ghost use Rattle.errors.specs.Reasoned.{reasoned};
ghost use Rattle.numbers.specs.Value.{option_of};
ghost use Rattle.stages.specs.ranges.Values.{Tree as TreeIn, unbounded_by, usb_of, end_of, usbr_of, EndFits, UsbrFits, EndReads, UsbrReads, SimplifiedReads};
ghost use Rattle.stages.specs.ranges.Checks.{passes, end_val, both_of, range_of, width_checked, checked_range, both_simple};

use super::types::{Simplified, Usb, Usbr};
use crate::token_tree::{Tree, same_text};
use errors::Reason;
use numbers::I128;

// A number below 0.
fn below_zero(n: Option<I128>) -> bool
    ensures { result ≡ not (passes non_neg (option_of n)) }
{
    n.is_some_and(I128::is_negative)
}

// 22, 23.
fn width_checked(x: Option<I128>) -> Result<(), Reason>
    ensures { reasoned result ≡ width_checked (option_of x) }
{
    let Some(w) = x else {
        return Ok(());
    };
    if w.is_negative() {
        return Err(Reason::Reversed);
    }
    if w.is_zero() {
        return Err(Reason::ZeroWidth);
    }
    Ok(())
}

// The end's number, where it is one.
pub(crate) fn end_val(end: Option<Usb>) -> Option<I128>
    ensures { (image : List ℕ) (t : TreeIn) (base : ℕ) → option_of result ≡ end_val (end_of image t base «end») }
{
    end?.static_val()
}

// A match: `map` and `transpose` would need a closure over image and tree, and be no plainer.
fn simplified_end(image: &[u8], tree: Tree, end: Option<Usb>) -> Result<Option<Usb>, Reason>
    requires { (base : ℕ) × EndFits image.now tree base «end» }
    ensures { (base : ℕ) → EndFits image.now tree base «end»
        → EndReads image.now tree base result (simplify_end (end_of image.now tree base «end»)) }
{
    match end {
        Some(u) => Ok(Some(u.simplify(image, tree)?)),
        None => Ok(None),
    }
}

impl Usbr {
    pub(crate) fn unbounded() -> Self
        ensures { result ≡ unbounded_by }
    {
        Usbr {
            start: Usb::zero(),
            end: None,
        }
    }

    // Both bounds' numbers, where both are numbers.
    pub(crate) fn static_range(self) -> Option<(I128, I128)>
        ensures { (image : List ℕ) (t : TreeIn) (base : ℕ)
            → range_of result ≡ both_of (static_val (usb_of image t base self.start)) (end_val (end_of image t base self.«end»)) }
    {
        self.start.static_val().zip(end_val(self.end))
    }

    pub(crate) fn static_width(self, image: &[u8], tree: Tree) -> Option<I128>
        requires { (base : ℕ) × UsbrFits image.now tree base self }
        ensures { (base : ℕ) → option_of result ≡ static_width (usbr_of image.now tree base self) }
    {
        let end = self.end?;
        if !same_text(image, tree, self.start.s, end.s) {
            return None;
        }
        end.x.checked_sub(self.start.x)
    }

    // 20: the bounds' texts.
    fn numbers(self, image: &[u8], tree: Tree) -> Result<Usbr, Reason>
        requires { (base : ℕ) × UsbrFits image.now tree base self }
        ensures { (base : ℕ) → UsbrFits image.now tree base self
            → UsbrReads image.now tree base result (both_simple (usbr_of image.now tree base self)) }
    {
        let start = self.start.simplify(image, tree)?;
        let end = simplified_end(image, tree, self.end)?;
        Ok(Usbr { start, end })
    }

    // 21, 22, 23.
    fn checked(self, image: &[u8], tree: Tree) -> Result<Simplified, Reason>
        requires { (base : ℕ) × UsbrFits image.now tree base self }
        ensures { (base : ℕ) → UsbrFits image.now tree base self
            → SimplifiedReads image.now tree base result (checked_range (usbr_of image.now tree base self)) }
    {
        if below_zero(self.start.static_val()) | below_zero(end_val(self.end)) {
            return Err(Reason::NegativeBound);
        }
        let width = self.static_width(image, tree);
        width_checked(width)?;
        Ok(Simplified { range: self, width })
    }

    // 20 to 23.
    pub(crate) fn simplify(self, image: &[u8], tree: Tree) -> Result<Simplified, Reason>
        requires { (base : ℕ) × UsbrFits image.now tree base self }
        ensures { (base : ℕ) → UsbrFits image.now tree base self
            → SimplifiedReads image.now tree base result (simplify_range (usbr_of image.now tree base self)) }
    {
        self.numbers(image, tree)?.checked(image, tree)
    }
}
