// The run: admission (1, 2 to 7, 8), the starting value (10), stages 1 and 2 in one loop, then stages 3, 4 and 5 over what is kept. The
// area is written only when nothing can refuse any more.
ghost use Rattle.std.specs.Prelude.{◌≡◌, ◌*◌, ◌≤◌, length};
ghost use Rattle.definition.specs.Image.{counts};
ghost use Rattle.definition.specs.Run.{with_default, run as run_of, ran_on};
ghost use Rattle.errors.specs.Refused.{result_of};
ghost use Rattle.stages.specs.in_force.InForce.{part_in, place_in};
ghost use Rattle.stages.specs.run.Run.{RunFits, AnsweredAs, StagesAs, ReadFits, ReadAs, JudgedFits, JudgedAs};

use crate::admission::admitted;
use crate::answer::stage5;
use crate::component::{Component, Start, stage2, starting_value};
use crate::concatenation::{Concatenation, stage3, stage4};
use crate::in_force::{InForce, told_by};
use crate::token_tree::{number_at, tables_of};
use errors::Refusal;

// What the stages are told of a call's choices: the mode, and whether it has a default that is not empty. No stage looks at its bytes.
// The mode stays the number of the C interface: the definition's 40 and 42 compare it so.
#[derive(Clone, Copy)]
struct Choices {
    mode: u32,
    held: bool,
}

// What a run came to, the answer's length or a refusal, and where the starting value in force stands.
#[derive(Clone, Copy)]
pub struct Ran {
    pub outcome: Result<usize, Refusal>,
    pub start: InForce,
}

// Below, (area, image, how) stay three parameters: the area is lent for writing and the image for reading, and a struct of them, which each
// step would lend on to a stage part by part, is no plainer.

// Stages 4 and 5, of concatenations that stage 3 accepted.
fn judged(
    area: &mut [u8],
    image: &[u8],
    how: Choices,
    heads: &[Concatenation],
    kept: &[Component],
    s: Option<Start>,
) -> Result<usize, Refusal>
    requires { RunFits image.now (length area.old) × JudgedFits image.now s heads.now kept.now }
    ensures { JudgedAs image.now how s heads.now kept.now result area.old area.new }
{
    let o = stage4(how.mode, s.is_some() | how.held, heads, kept)?;
    Ok(stage5(area, image, heads, kept, o, s))
}

// Stages 3 to 5, of components that are kept.
fn later(
    area: &mut [u8],
    image: &[u8],
    how: Choices,
    kept: &[Component],
    c: u32,
    s: Option<Start>,
) -> Result<usize, Refusal>
    requires { RunFits image.now (length area.old) × ReadFits image.now c s kept.now }
    ensures { ReadAs image.now how s kept.now result area.old area.new }
{
    let mut heads = [Concatenation::NONE; limits::CONCATENATIONS as usize];
    stage3(&mut heads, kept, image, c)?;
    judged(area, image, how, &heads[..c as usize], kept, s)
}

// The stages of an image that passed the check, with room for an answer, and for its components.
fn staged(
    area: &mut [u8],
    kept: &mut [Component],
    image: &[u8],
    how: Choices,
) -> Result<usize, Refusal>
    requires { RunFits image.now (length area.old) × ((counts image.now).n ≤ length kept.old) }
    ensures { StagesAs image.now how result area.old area.new }
{
    let t = tables_of(image);
    let s = starting_value(image, t)?;
    stage2(kept, image, t, s)?;
    later(area, image, how, kept, t.c, s)
}

// The same, with room for N components.
fn with_room<const N: usize>(area: &mut [u8], image: &[u8], how: Choices) -> Result<usize, Refusal>
    requires { RunFits image.now (length area.old) × ((counts image.now).n ≤ N) × (N ≤ 256) }
    ensures { StagesAs image.now how result area.old area.new }
{
    let mut kept = [Component::NONE; N];
    staged(area, &mut kept, image, how)
}

// Small images take less of the stack.
fn sized(area: &mut [u8], image: &[u8], how: Choices) -> Result<usize, Refusal>
    requires { RunFits image.now (length area.old) }
    ensures { StagesAs image.now how result area.old area.new }
{
    match number_at(image, 4) {
        0..=8 => with_room::<8>(area, image, how),
        9..=64 => with_room::<64>(area, image, how),
        _ => with_room::<256>(area, image, how),
    }
}

// Admission, and then the stages.
fn answered(image: &[u8], how: Choices, area: &mut [u8]) -> Result<usize, Refusal>
    ensures { AnsweredAs image.now how result area.old area.new }
{
    admitted(image, how.mode, area.len())?;
    sized(area, image, how)
}

// For every image, mode number, default and area: the outcome, the area at exit and the starting value in force are the definition's, and
// it is told where the answer's own head says.
pub fn run(image: &[u8], mode: u32, default: &[u8], area: &mut [u8]) -> Ran
    ensures { ((result_of result.outcome, area.new, part_in image.now default.now result.start)
        ≡ ran_on image.now (with_default mode default.now) area.old)
        × (result.start ≡ place_in image.now (run_of image.now (with_default mode default.now) (length area.old))) }
{
    let how = Choices {
        mode,
        held: default.len() != 0,
    };
    let outcome = answered(image, how, area);
    let start = told_by(image, area, outcome);
    Ran { outcome, start }
}
