// The two sides of a bound's sign: "A number on the right is added to x, or after `-` taken from it. A number on the left moves into x,
// the text keeping its `-`. Two non-numbers: kept as written."
ghost use Rattle.std.specs.Prelude.{◌≡◌, ℕ, ◌+◌, ◌^◌, ◌<◌, ◌≤◌, List, length, if◌then◌else◌};
ghost use Rattle.definition.specs.Numbers.{narrow};
ghost use Rattle.definition.specs.Ranges.{number_in, side as side_of};
ghost use Rattle.numbers.specs.Value.{value_of, option_of};
ghost use Rattle.stages.specs.token_tree.Parts.{part_of, PartFits};
ghost use Rattle.stages.specs.ranges.Values.{Tree as TreeIn, UsbReads};
ghost use Rattle.stages.specs.ranges.Sides.{summed, bound_of, moved_by, text_kept, text_in, sides_in, Between};

use super::number::number_in;
use super::types::Usb;
use crate::token_tree::{PText, Part, Tree, byte_at, no_text, part_of};
use errors::Reason;
use numbers::I128;

// The number of a side, 0 of an empty one.
fn side(image: &[u8], tree: Tree, s: PText, t: PText) -> Option<I128>
    requires { (s.0 ≤ t.0) × (tree.text + t.0 ≤ length image.now) }
    ensures { (base : ℕ) → option_of result ≡ number_in (text_in image.now tree base s.0 t.0) }
{
    if s == t {
        return Some(I128::ZERO);
    }
    number_in(image, tree.text + (s.0 as usize), (t.0 - s.0) as usize)
}

// `negative` is what the sign's byte says, here and below: each way is one line, so no step is handed in.
fn joined(negative: bool, l: I128, r: I128) -> Option<I128>
    ensures { option_of result ≡ narrow (summed negative (value_of l) (value_of r)) }
{
    if negative {
        l.checked_sub(r)
    } else {
        l.checked_add(r)
    }
}

// 16.
fn with_x(s: Part, n: Option<I128>) -> Result<Usb, Reason>
    ensures { (image : List ℕ) (t : TreeIn) (base : ℕ) → PartFits image t base s
        → UsbReads image t base result (bound_of (part_of image t base s) (option_of n)) }
{
    let x = n.ok_or(Reason::BoundOverflow)?;
    Ok(Usb { s, x })
}

// With a number on the right; l is the left side's, whose text is from s to p.
fn number_right(negative: bool, p: PText, s: PText, l: Option<I128>, r: I128) -> Result<Usb, Reason>
    requires { s.0 ≤ p.0 }
    ensures { (image : List ℕ) (t : TreeIn) (base : ℕ) → Between image t base s.0 p.0
        → option_of l ≡ number_in (text_in image t base s.0 p.0)
        → UsbReads image t base result (moved_by (side_of (text_in image t base s.0 p.0)) negative (value_of r)) }
{
    match l {
        Some(x) => with_x(no_text(), joined(negative, x, r)),
        None => with_x(part_of(s, p), joined(negative, I128::ZERO, r)),
    }
}

// With none: the whole text is from s to t, the sign at p.
fn text_right(negative: bool, p: PText, s: PText, t: PText, l: Option<I128>) -> Usb
    requires { (s.0 ≤ p.0) × (p.0 < t.0) }
    ensures { (image : List ℕ) (tree : TreeIn) (base : ℕ) → Between image tree base s.0 t.0
        → option_of l ≡ number_in (text_in image tree base s.0 p.0)
        → UsbReads image tree base (Ok result) (text_kept (text_in image tree base s.0 t.0) (text_in image tree base s.0 p.0)
        (if negative then text_in image tree base p.0 t.0 else text_in image tree base (p.0 + 1) t.0)) }
{
    match l {
        Some(x) => Usb {
            s: part_of(if negative { p } else { PText(p.0 + 1) }, t),
            x,
        },
        None => Usb::new_s(part_of(s, t)),
    }
}

// Cut at the sign at p: the left side's text from s to p, the right side's from p + 1 to t.
pub(crate) fn sides(image: &[u8], tree: Tree, p: PText, s: PText, t: PText) -> Result<Usb, Reason>
    requires { (s.0 ≤ p.0) × (p.0 < t.0) × (tree.text + t.0 ≤ length image.now) }
    ensures { (base : ℕ) → base ≤ s.0 → UsbReads image.now tree base result (sides_in image.now tree base p.0 s.0 t.0) }
{
    let negative = byte_at(image, tree, p) == b'-';
    let l = side(image, tree, s, p);
    match side(image, tree, PText(p.0 + 1), t) {
        Some(r) => number_right(negative, p, s, l, r),
        None => Ok(text_right(negative, p, s, t, l)),
    }
}
