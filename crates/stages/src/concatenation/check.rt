// Stage 3 of one concatenation over its kept components: its check (30 to 34), and its size after merging.
ghost use Rattle.std.specs.Prelude.{◌≡◌, ℕ, ◌≤◌, List, length};
ghost use Rattle.definition.specs.Image.{Placed};
ghost use Rattle.definition.specs.Component as Def;
ghost use Rattle.definition.specs.Concatenation.{check as check_of, merge};
ghost use Rattle.stages.specs.ranges.Values.{Tree as TreeIn};
ghost use Rattle.stages.specs.component.Kept.{Are};
ghost use Rattle.stages.specs.concatenation.Check.{concatenation_of};

use super::running_check::Running;
use crate::component::Component;
use errors::Refusal;

// 30 to 34, of concatenation i: the running check is lent from component to component.
pub(crate) fn check(i: u32, comps: &[Component]) -> Result<Running, Refusal>
    requires { (image : List ℕ) × (t : TreeIn) × (cs : List (Placed Def.Component)) × Are image t comps.now cs × (length comps.now ≤ 256) }
    ensures { (image : List ℕ) (t : TreeIn) (cs : List (Placed Def.Component)) → Are image t comps.now cs
        → concatenation_of cs result ≡ check_of i cs }
{
    let mut r = Running::new();
    for (k, c) in comps.iter().enumerate() {
        r.advance(i, k as u32, k == 0, k + 1 == comps.len(), *c)?;
    }
    r.finish(i)?;
    Ok(r)
}

// How many components are left after merging.
pub(crate) fn merged(comps: &[Component]) -> u32
    requires { length comps.now ≤ 256 }
    ensures { (result ≤ length comps.now) × ((image : List ℕ) (t : TreeIn) (cs : List (Placed Def.Component)) → Are image t comps.now cs
        → result ≡ length (merge cs)) }
{
    let mut m = 0;
    let mut was = false;
    for c in comps {
        let now = c.is_static_literal();
        if !(was & now) {
            m += 1;
        }
        was = now;
    }
    m
}
