// Stage 3 of every concatenation.
ghost use Rattle.std.specs.Prelude.{◌≡◌, ℕ, ◌+◌, List, length, take, drop};
ghost use Rattle.definition.specs.Image.{Placed};
ghost use Rattle.definition.specs.Component as Def;
ghost use Rattle.stages.specs.concatenation.Heads.{Lies, CountsFit, Stage3Is};

use super::alignment::FillerAlign;
use super::check::{check, merged};
use super::running_check::Running;
use crate::component::Component;
use crate::token_tree::{PVal, components_of};
use errors::Refusal;

// A concatenation as stage 3 leaves it: where its components stand among those kept, how many are left after merging, and its check.
// A place and a length, no slice: `kept` is lent to `comps` where it is looked at, and no entry holds it.
#[derive(Clone, Copy)]
pub struct Concatenation {
    pub first: PVal,
    pub len: u32,
    pub merged: u32,
    pub running: Running,
}

impl Concatenation {
    // What stands in a place that has none yet.
    pub(crate) const NONE: Concatenation = Concatenation {
        first: PVal(0),
        len: 0,
        merged: 0,
        running: Running {
            width: None,
            align: FillerAlign::None,
            deterministic: false,
            nonzero: false,
        },
    };

    // Its components.
    pub(crate) fn comps<'a>(self, kept: &'a [Component]) -> &'a [Component]
        requires { Lies self (length kept.now) }
        ensures { result.now ≡ take self.len (drop self.first.0 kept.now) }
    {
        let first = self.first.room();
        &kept[first..first + self.len as usize]
    }
}

// The first c of `heads`, or the first refusal.
pub(crate) fn stage3(
    heads: &mut [Concatenation],
    kept: &[Component],
    image: &[u8],
    c: u32,
) -> Result<(), Refusal>
    requires { (ccs : List (List (Placed Def.Component))) × CountsFit image.now ccs c kept.now (length heads.old) }
    ensures { Stage3Is image.now kept.now c result heads.new }
{
    let mut k = PVal(0);
    for i in 0..c {
        let len = components_of(image, i);
        let first = k.room();
        let comps = &kept[first..first + len as usize];
        let running = check(i, comps)?;
        heads[i as usize] = Concatenation {
            first: k,
            len,
            merged: merged(comps),
            running,
        };
        k = PVal(k.0 + len);
    }
    Ok(())
}
