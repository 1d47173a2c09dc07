// Stages 1 and 2 of one component.
ghost use Rattle.std.specs.Prelude.{◌≡◌, ℕ, ◌<◌, List};
ghost use Rattle.definition.specs.Image.{bits_at};
ghost use Rattle.definition.specs.Text.{Item};
ghost use Rattle.stages.specs.token_tree.Laid.{Laid, Runs};
ghost use Rattle.stages.specs.component.Values.{Whole};
ghost use Rattle.stages.specs.component.Parse.{parse_items};
ghost use Rattle.stages.specs.component.Read.{ReadIs, without_by};

use super::parse::parse_component;
use super::start::Start;
use super::types::{Bits, Component};
use crate::token_tree::{Run, Tree};
use errors::Reason;

// Which stage refuses a component, and why.
#[derive(Clone, Copy)]
pub enum Unread {
    First(Reason),
    Second(Reason),
}

// Stage 1, then stage 2.
pub(crate) fn read(image: &[u8], tree: Tree, run: Run, literal: Bits) -> Result<Component, Unread>
    requires { Whole image.now literal × (run.r.0 < run.stop.0)
        × ((s : ℕ) × Runs image.now tree run.stop.0 run.«end».0 run.r.0 s) }
    ensures { (base s : ℕ) (is : List Item) → Laid image.now tree base run.stop.0 run.«end».0 run.r.0 s is
        → ReadIs image.now tree base result (parse_items is (bits_at image.now literal.at literal.to)) }
{
    let c = parse_component(image, tree, run, literal).map_err(Unread::First)?;
    c.simplify(image, tree).map_err(Unread::Second)
}

// A component's run without its starting value, where that is its own.
pub(crate) fn without_start(run: Run, start: Option<Start>) -> Run
    ensures { result ≡ without_by run start }
{
    match start {
        Some(s) if run.r < s.after && s.after < run.stop => Run { r: s.after, ..run },
        _ => run,
    }
}
