// Stage 2 of a component: 20 to 28.
ghost use Rattle.std.specs.Prelude.{◌≡◌, ℕ, ◌≤◌, List};
ghost use Rattle.definition.specs.Basics.{ok};
ghost use Rattle.definition.specs.Image.{bits_at};
ghost use Rattle.definition.specs.Component.{cut_literal, simplify as simplify_of};
ghost use Rattle.stages.specs.ranges.Values.{Tree as TreeIn, usbr_of, Measured};
ghost use Rattle.stages.specs.ranges.Checks.{Positive};
ghost use Rattle.stages.specs.component.Values.{type_of, component_of, TypeParsed, ComponentParsed, StagedReads, Whole};
ghost use Rattle.stages.specs.component.Stage2.{Within, CutFits, cut_both_by, by_type};

use super::types::{Bits, Component, ComponentType};
use crate::ranges::{Simplified, Usb, Usbr, end_val};
use crate::token_tree::Tree;
use errors::Reason;
use numbers::I128;

// Both bounds are numbers, their high halves 0: the bits between them, with the range from 0.
fn cut_both(literal: Bits, x: I128, y: I128, width: Option<I128>) -> Component
    requires { CutFits x y }
    ensures { result ≡ cut_both_by literal.at x y width }
{
    Component {
        c_type: ComponentType::Literal(Bits {
            from: x.low as u32,
            to: y.low as u32,
            ..literal
        }),
        range: Usbr {
            start: Usb::zero(),
            end: Some(Usb::val(I128 {
                high: 0,
                low: y.low - x.low,
            })),
        },
        width,
    }
}

// "with a number end it is cut there, and with a number start too it loses the bits below and starts at 0": what is left of a whole
// literal, whose range is tested.
fn cut(literal: Bits, m: Simplified) -> Component
    requires { (literal.to ≤ 4096) × ((image : List ℕ) × (t : TreeIn) × (base : ℕ) × Within literal.to (usbr_of image t base m.range)) }
    ensures { (image : List ℕ) (t : TreeIn) (base : ℕ) → Whole image literal → Within literal.to (usbr_of image t base m.range)
        → Measured image t base m.range m.width
        → StagedReads image t base (Ok result) (ok (cut_literal (bits_at image literal.at literal.to) (usbr_of image t base m.range))) }
{
    if let Some((x, y)) = m.range.static_range() {
        return cut_both(literal, x, y, m.width);
    }
    let to = match end_val(m.range.end) {
        Some(y) => y.low as u32,
        None => literal.to,
    };
    Component {
        c_type: ComponentType::Literal(Bits {
            from: 0,
            to,
            ..literal
        }),
        range: m.range,
        width: m.width,
    }
}

// By type, of a range that is simplified.
fn by_type(
    image: &[u8],
    tree: Tree,
    c_type: ComponentType,
    m: Simplified,
) -> Result<Component, Reason>
    requires { (base : ℕ) × TypeParsed image.now tree base c_type × Measured image.now tree base m.range m.width
        × Positive (usbr_of image.now tree base m.range) }
    ensures { (base : ℕ) → TypeParsed image.now tree base c_type → Measured image.now tree base m.range m.width
        → Positive (usbr_of image.now tree base m.range)
        → StagedReads image.now tree base result (by_type (type_of image.now tree base c_type) (usbr_of image.now tree base m.range)) }
{
    let m = match c_type {
        ComponentType::Literal(b) => {
            let m = m.range.simplify_literal(image, tree, b.to, m.width)?;
            return Ok(cut(b, m));
        }
        ComponentType::Variable(_) => m,
        ComponentType::Filler => m.range.simplify_filler(m.width)?,
    };
    Ok(Component {
        c_type,
        range: m.range,
        width: m.width,
    })
}

impl Component {
    // 20 to 28, of a component as stage 1 leaves it.
    pub(crate) fn simplify(self, image: &[u8], tree: Tree) -> Result<Component, Reason>
        requires { (base : ℕ) × ComponentParsed image.now tree base self }
        ensures { (base : ℕ) → ComponentParsed image.now tree base self
            → StagedReads image.now tree base result (simplify_of (component_of image.now tree base self)) }
    {
        let m = self.range.simplify(image, tree)?;
        by_type(image, tree, self.c_type, m)
    }
}
