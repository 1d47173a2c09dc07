// Stage 3's running check of a concatenation (Concatenation::check): lent, and altered component by component.
ghost use Rattle.std.specs.Prelude.{◌≡◌, ℕ, not, List, ◌==◌};
ghost use Rattle.definition.specs.Basics.{with_places};
ghost use Rattle.definition.specs.Image.{Placed};
ghost use Rattle.definition.specs.Component as Def;
ghost use Rattle.definition.specs.Concatenation.{check_type};
ghost use Rattle.errors.specs.Refused.{result_of};
ghost use Rattle.numbers.specs.Value.{option_of};
ghost use Rattle.stages.specs.ranges.Values.{Tree as TreeIn};
ghost use Rattle.stages.specs.component.Values.{Ordered};
ghost use Rattle.stages.specs.component.Kept.{Is};
ghost use Rattle.stages.specs.concatenation.running_check.Running.{running_by, running_of, stepped_of, finish_of, add_as, check_open, step_of, advanced_as};

use super::alignment::{FillerAlign, filler_align};
use super::width::sum;
use crate::component::{Component, ComponentType};
use errors::{Reason, Refusal};
use numbers::I128;

// The sum of widths while all so far are known, and what was found so far.
#[derive(Clone, Copy)]
pub struct Running {
    pub width: Option<usize>,
    pub align: FillerAlign,
    pub deterministic: bool,
    pub nonzero: bool,
}

impl Running {
    pub(crate) fn new() -> Self
        ensures { result ≡ running_by }
    {
        Running {
            width: Some(0),
            align: FillerAlign::None,
            deterministic: true,
            nonzero: false,
        }
    }

    // 34 has the places i and 0.
    fn add_width(self, i: u32, width: Option<I128>) -> Result<Running, Refusal>
        ensures { stepped_of result ≡ with_places i 0 (add_as (option_of width) (running_of self)) }
    {
        let Some(x) = width else {
            return Ok(Running {
                width: None,
                ..self
            });
        };
        let Some(n) = self.width else {
            return Ok(Running {
                nonzero: true,
                ..self
            });
        };
        let width = sum(n, x).ok_or(Reason::SumOverflow.at(i, 0))?;
        Ok(Running {
            width: Some(width),
            nonzero: true,
            ..self
        })
    }

    // An unbounded filler: 31, then 32.
    fn check_open(self, i: u32, k: u32, first: bool, last: bool) -> Result<Running, Refusal>
        ensures { stepped_of result ≡ with_places i k (check_open (not (i == 0)) first last (running_of self)) }
    {
        if (i != 0) & first & last {
            return Err(Reason::LoneFillerSink.at(i, k));
        }
        if self.align != FillerAlign::None {
            return Err(Reason::SecondFiller.at(i, k));
        }
        Ok(Running {
            align: filler_align(first, last),
            deterministic: false,
            ..self
        })
    }

    fn check_type(
        self,
        i: u32,
        k: u32,
        first: bool,
        last: bool,
        c: Component,
    ) -> Result<Running, Refusal>
        requires { Ordered c.c_type }
        ensures { (image : List ℕ) (t : TreeIn) (p : Placed Def.Component) → Is image t c p
            → stepped_of result ≡ with_places i k (check_type (not (i == 0)) first last p.value (running_of self)) }
    {
        match c.c_type {
            ComponentType::Literal(_) => {
                if i != 0 {
                    return Err(Reason::LiteralInSink.at(i, k));
                }
                Ok(self)
            }
            ComponentType::Variable(_) => Ok(Running {
                nonzero: self.nonzero | c.has_full_range(),
                ..self
            }),
            ComponentType::Filler => {
                if c.range.end.is_some() {
                    return Ok(self);
                }
                self.check_open(i, k, first, last)
            }
        }
    }

    // One component: 34, 30, 31, 32.
    fn step(self, i: u32, k: u32, first: bool, last: bool, c: Component) -> Result<Running, Refusal>
        requires { Ordered c.c_type }
        ensures { (image : List ℕ) (t : TreeIn) (p : Placed Def.Component) → Is image t c p
            → stepped_of result ≡ step_of i k first last p.value (running_of self) }
    {
        self.add_width(i, c.width)?.check_type(i, k, first, last, c)
    }

    // The check is altered by one component, and stays as it was where that is refused.
    pub(crate) fn advance(
        &mut self,
        i: u32,
        k: u32,
        first: bool,
        last: bool,
        c: Component,
    ) -> Result<(), Refusal>
        requires { Ordered c.c_type }
        ensures { (image : List ℕ) (t : TreeIn) (p : Placed Def.Component) → Is image t c p
            → (running_of self.new, result_of result) ≡ advanced_as i k first last p.value (running_of self.old) }
    {
        *self = (*self).step(i, k, first, last, c)?;
        Ok(())
    }

    // After the last component: 33.
    pub(crate) fn finish(self, i: u32) -> Result<(), Refusal>
        ensures { result_of result ≡ finish_of i (running_of self) }
    {
        match self.width {
            Some(0) => Err(Reason::ZeroTotalWidth.at(i, 0)),
            _ => Ok(()),
        }
    }
}
