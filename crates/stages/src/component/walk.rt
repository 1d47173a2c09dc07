// Stages 1 and 2 of every component in one loop: each is read once and kept. A refusal of stage 1 ends it; the first of stage 2 is
// remembered.
ghost use Rattle.std.specs.Prelude.{◌≡◌, ℕ, ◌+◌, ◌<◌, ◌≤◌, Bool, List, ◌∷◌, ◌++◌, length};
ghost use Rattle.definition.specs.Image.{counts};
ghost use Rattle.definition.specs.Tree.{Node};
ghost use Rattle.stages.specs.token_tree.Table.{tables_in};
ghost use Rattle.stages.specs.token_tree.Rows.{Rows};
ghost use Rattle.stages.specs.token_tree.Grown.{Grown};
ghost use Rattle.stages.specs.component.Start.{after_of, AfterIs, AfterIn, AfterTree};
ghost use Rattle.stages.specs.component.Read.{WalkFits, TurnIs, TurnsAre, StagesAre};

use super::read::{Unread, read, without_start};
use super::start::Start;
use super::types::{Bits, Component};
use crate::token_tree::{PBind, PVal, Tables, components_of, records_of, run_of, width_of};
use errors::Refusal;

// The next component's number, first record and first literal byte; the first refusal of stage 2.
#[derive(Clone, Copy)]
pub struct Walk {
    pub k: PVal,
    pub r: PBind,
    pub l: u32,
    pub second: Result<(), Refusal>,
}

// Component j of concatenation i. (kept, image, t, start) stay parameters: `kept` alone is written, and a struct would be lent on part by part.
fn turn(
    kept: &mut [Component],
    image: &[u8],
    t: Tables,
    start: Option<Start>,
    i: u32,
    j: u32,
    w: Walk,
) -> Result<Walk, Refusal>
    requires { (s : ℕ) × (n : Node) × (ns : List Node) × (scanned : Bool) × Rows image.now t w.k.0 w.r.0 s w.l (n ∷ ns)
        × WalkFits image.now t w (length (n ∷ ns)) (length kept.old)
        × AfterIs image.now t.tree (after_of start) w.r.0 scanned n }
    ensures { (s : ℕ) (n : Node) (ns : List Node) (scanned : Bool) → Rows image.now t w.k.0 w.r.0 s w.l (n ∷ ns)
        → AfterIs image.now t.tree (after_of start) w.r.0 scanned n
        → TurnIs image.now t i j scanned s n w result kept.old kept.new }
{
    let width = width_of(image, t, w.k);
    let run = run_of(image, t, w.r, records_of(image, t, w.k));
    let literal = Bits {
        at: (t.literals as u32) + w.l,
        from: 0,
        to: width,
    };
    let mut second = w.second;
    match read(image, t.tree, without_start(run, start), literal) {
        Ok(c) => kept[w.k.room()] = c,
        Err(Unread::First(reason)) => return Err(reason.at(i, j)),
        Err(Unread::Second(reason)) => second = second.and(Err(reason.at(i, j))),
    }
    Ok(Walk {
        k: PVal(w.k.0 + 1),
        r: run.stop,
        l: w.l + width.div_ceil(8),
        second,
    })
}

// The n components of concatenation i.
fn turns(
    kept: &mut [Component],
    image: &[u8],
    t: Tables,
    start: Option<Start>,
    i: u32,
    n: u32,
    from: Walk,
) -> Result<Walk, Refusal>
    requires { (s : ℕ) × (ns : List Node) × (ms : List Node) × (length ns ≡ n)
        × Rows image.now t from.k.0 from.r.0 s from.l (ns ++ ms)
        × WalkFits image.now t from (length (ns ++ ms)) (length kept.old)
        × AfterIn image.now t.tree (after_of start) i from.r.0 ns }
    ensures { (s : ℕ) (ns ms : List Node) → length ns ≡ n → 1 ≤ n
        → Rows image.now t from.k.0 from.r.0 s from.l (ns ++ ms)
        → AfterIn image.now t.tree (after_of start) i from.r.0 ns
        → TurnsAre image.now t i s ns from result kept.old kept.new }
{
    let mut w = from;
    for j in 0..n {
        w = turn(kept, image, t, start, i, j, w)?;
    }
    Ok(w)
}

// Stages 1 and 2: the first refusal of stage 1, or else of stage 2; every component is kept.
pub(crate) fn stage2(
    kept: &mut [Component],
    image: &[u8],
    t: Tables,
    start: Option<Start>,
) -> Result<(), Refusal>
    requires { (g : Grown image.now) × (t ≡ tables_in image.now) × ((counts image.now).n ≤ length kept.old)
        × AfterTree image.now t.tree (after_of start) 0 0 g.tree }
    ensures { StagesAre image.now result kept.new }
{
    let mut w = Walk {
        k: PVal(0),
        r: PBind(0),
        l: 0,
        second: Ok(()),
    };
    for i in 0..t.c {
        w = turns(kept, image, t, start, i, components_of(image, i), w)?;
    }
    w.second
}
