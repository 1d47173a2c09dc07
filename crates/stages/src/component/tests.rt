// Tests of a component that later stages make.
ghost use Rattle.std.specs.Prelude.{◌≡◌, ℕ, List};
ghost use Rattle.definition.specs.Concatenation.{is_static_literal, has_full_range, is_unbounded_filler};
ghost use Rattle.definition.specs.Overall.{is_filler};
ghost use Rattle.stages.specs.ranges.Values.{Tree as TreeIn};
ghost use Rattle.stages.specs.component.Values.{component_of, Ordered};
ghost use Rattle.stages.specs.component.Kept.{EndGiven};
ghost use Rattle.stages.specs.component.Tests.{EndsAt};

use super::types::{Component, ComponentType};
use crate::ranges::Usb;

// No end, or one at w: by halves, as document 01 has numbers of 128 bits.
fn ends_at(end: Option<Usb>, w: u32) -> bool
    ensures { EndsAt «end» w result }
{
    match end {
        Some(u) => u.s.len == 0 && u.x.high == 0 && u.x.low == w as u64,
        None => true,
    }
}

impl Component {
    pub(crate) fn is_static_literal(self) -> bool
        ensures { (image : List ℕ) (t : TreeIn) (base : ℕ) → result ≡ is_static_literal (component_of image t base self) }
    {
        matches!(self.c_type, ComponentType::Literal(_)) && self.range.static_range().is_some()
    }

    pub(crate) fn is_filler(self) -> bool
        ensures { (image : List ℕ) (t : TreeIn) (base : ℕ) → result ≡ is_filler (component_of image t base self) }
    {
        matches!(self.c_type, ComponentType::Filler)
    }

    pub(crate) fn is_unbounded_filler(self) -> bool
        ensures { (image : List ℕ) (t : TreeIn) (base : ℕ) → result ≡ is_unbounded_filler (component_of image t base self) }
    {
        self.is_filler() && self.range.end.is_none()
    }

    // "Unbounded fillers return false". Of an end that is no number below 0.
    pub(crate) fn has_full_range(self) -> bool
        requires { Ordered self.c_type }
        ensures { (image : List ℕ) (t : TreeIn) (base : ℕ) → EndGiven image t base self
            → result ≡ has_full_range (component_of image t base self) }
    {
        if !self.range.start.is_guaranteed_zero() {
            return false;
        }
        match self.c_type {
            ComponentType::Literal(b) => ends_at(self.range.end, b.to - b.from),
            ComponentType::Variable(_) => self.range.end.is_none(),
            ComponentType::Filler => self.range.end.is_some(),
        }
    }
}
