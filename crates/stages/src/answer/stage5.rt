// Stage 5: the whole answer. `heads` and `kept` are two slices as in stage 4.
ghost use Rattle.std.specs.Prelude.{ℕ, List, length};
ghost use Rattle.definition.specs.Concatenation as Def;
ghost use Rattle.stages.specs.answer.Stage5.{PutAllIs, PutFits, Answers, Stage5Is};

use super::heads::{merged_of, put_concatenations, put_head};
use super::merging::{Writing, simplify};
use crate::component::{Component, Start};
use crate::concatenation::{Concatenation, Overall};

// The merged components of all concatenations.
fn put_components(
    area: &mut [u8],
    image: &[u8],
    heads: &[Concatenation],
    kept: &[Component],
    from: Writing,
) -> Writing
    requires { PutFits image.now kept.now heads.now from area.old }
    ensures { PutAllIs image.now kept.now heads.now from result area.old area.new }
{
    let mut w = from;
    for x in heads {
        w = simplify(area, image, x.comps(kept), w);
    }
    w
}

// The whole answer from the area's first byte, and its length.
pub(crate) fn stage5(
    area: &mut [u8],
    image: &[u8],
    heads: &[Concatenation],
    kept: &[Component],
    o: Overall,
    s: Option<Start>,
) -> usize
    requires { (base : ℕ) × (ds : List Def.Concatenation) × Answers image.now kept.now heads.now base o s (length area.old) ds }
    ensures { Stage5Is image.now kept.now heads.now o s result area.old area.new }
{
    let m = merged_of(heads);
    put_head(area, heads.len() as u32, m as u32, o, s);
    put_concatenations(area, heads);
    let at = limits::HEAD_SIZE + limits::CONCATENATION_SIZE * heads.len();
    let from = Writing {
        at,
        literals: at + limits::COMPONENT_SIZE * m,
        offset: 0,
    };
    let w = put_components(area, image, heads, kept, from);
    w.literals + w.offset
}
