// Stage 4: what the concatenations say together; a filler's place is searched for only where it is told.
// A mode is the call's number (C interface). `heads` and `kept` stay two slices: a struct of both would be taken apart at every use.
ghost use Rattle.std.specs.Prelude.{◌≡◌, ℕ, ◌+◌, ◌<◌, ◌≤◌, List, ◌∷◌, length, drop};
ghost use Rattle.definition.specs.Concatenation as Def;
ghost use Rattle.definition.specs.Overall.{check_source, overall_from, overall_start, middle_from, opposite_from, stage4 as stage4_of};
ghost use Rattle.errors.specs.Refused.{result_of};
ghost use Rattle.numbers.specs.Value.{option_usize};
ghost use Rattle.stages.specs.concatenation.Heads.{HeadIs, HeadsAre, HeadsFit};
ghost use Rattle.stages.specs.concatenation.Overall.{overall_of, answer_of, middle_at, opposite_at, common_of, only_of, checks_of};

use super::alignment::{FillerAlign, is_opposite};
use super::overall::Overall;
use super::position::position;
use super::stage3::Concatenation;
use crate::component::Component;
use errors::{Reason, Refusal};

// 40: the first filler of concatenation 0.
fn check_source(bare: bool, i: u32, x: Concatenation, kept: &[Component]) -> Result<(), Refusal>
    requires { (image : List ℕ) × (d : Def.Concatenation) × HeadIs image kept.now x d }
    ensures { (image : List ℕ) (d : Def.Concatenation) → HeadIs image kept.now x d → result_of result ≡ check_source bare i d }
{
    if !(bare & (i == 0)) {
        return Ok(());
    }
    match position(x.comps(kept), 0, Component::is_filler) {
        Some(k) => Err(Reason::FillerWithoutStart.at(0, k)),
        None => Ok(()),
    }
}

// 41, 40.
fn overall_of(bare: bool, heads: &[Concatenation], kept: &[Component]) -> Result<Overall, Refusal>
    requires { HeadsFit kept.now heads.now }
    ensures { (image : List ℕ) (ds : List Def.Concatenation) → HeadsAre image kept.now heads.now ds
        → answer_of result ≡ overall_from bare 0 ds (overall_start ds) }
{
    let mut o = Overall::start(heads[0].running);
    for (i, x) in heads.iter().enumerate() {
        o = o.join_width(i as u32, x.running)?;
        check_source(bare, i as u32, *x, kept)?;
    }
    Ok(o)
}

// 44, of concatenation i. Like check_source but for test, refusal and definition; what they share is `position`.
fn middle_at(i: u32, x: Concatenation, kept: &[Component]) -> Result<(), Refusal>
    requires { (image : List ℕ) × (d : Def.Concatenation) × HeadIs image kept.now x d }
    ensures { (image : List ℕ) (d : Def.Concatenation) → HeadIs image kept.now x d → result_of result ≡ middle_at i d }
{
    if x.running.align != FillerAlign::Mid {
        return Ok(());
    }
    match position(x.comps(kept), 0, Component::is_unbounded_filler) {
        Some(k) => Err(Reason::MiddleFiller.at(i, k)),
        None => Ok(()),
    }
}

fn middle_of(heads: &[Concatenation], kept: &[Component]) -> Result<(), Refusal>
    requires { HeadsFit kept.now heads.now }
    ensures { (image : List ℕ) (ds : List Def.Concatenation) → HeadsAre image kept.now heads.now ds
        → result_of result ≡ middle_from 0 ds }
{
    for (i, x) in heads.iter().enumerate() {
        middle_at(i as u32, *x, kept)?;
    }
    Ok(())
}

// 45 for concatenation i and the first one after it that is opposite to it.
fn opposite_at(heads: &[Concatenation], i: usize) -> Result<(), Refusal>
    requires { (i < length heads.now) × (length heads.now ≤ 16) }
    ensures { (image : List ℕ) (kept : List _) (ds : List Def.Concatenation) (d : Def.Concatenation) → HeadsAre image kept heads.now ds
        → drop i ds ≡ d ∷ drop (i + 1) ds → result_of result ≡ opposite_at i d (drop (i + 1) ds) }
{
    let align = heads[i].running.align;
    let later = position(&heads[i + 1..], i as u32 + 1, |x: Concatenation| {
        is_opposite(align, x.running.align)
    });
    match later {
        Some(j) => Err(Reason::OppositeFillers.at(i as u32, j)),
        None => Ok(()),
    }
}

fn opposite_of(heads: &[Concatenation]) -> Result<(), Refusal>
    requires { length heads.now ≤ 16 }
    ensures { (image : List ℕ) (kept : List _) (ds : List Def.Concatenation) → HeadsAre image kept heads.now ds
        → result_of result ≡ opposite_from 0 ds }
{
    for i in 0..heads.len() {
        opposite_at(heads, i)?;
    }
    Ok(())
}

// 42: mode 2 wants a common width.
fn check_common(mode: u32, width: Option<usize>) -> Result<(), Refusal>
    ensures { result_of result ≡ common_of mode (option_usize width) }
{
    if (mode == 2) & width.is_none() {
        return Err(Reason::NoCommonWidth.into());
    }
    Ok(())
}

// 43: one concatenation alone is deterministic.
fn check_only(n: usize, deterministic: bool) -> Result<(), Refusal>
    ensures { result_of result ≡ only_of n deterministic }
{
    if !deterministic & (n == 1) {
        return Err(Reason::OnlySource.into());
    }
    Ok(())
}

// What stage 4 does after its loop: 42 to 45.
fn checks(
    mode: u32,
    heads: &[Concatenation],
    kept: &[Component],
    o: Overall,
) -> Result<Overall, Refusal>
    requires { HeadsFit kept.now heads.now }
    ensures { (image : List ℕ) (ds : List Def.Concatenation) → HeadsAre image kept.now heads.now ds
        → answer_of result ≡ checks_of mode ds (overall_of o) }
{
    check_common(mode, o.width)?;
    check_only(heads.len(), o.deterministic)?;
    if o.deterministic {
        return Ok(o);
    }
    middle_of(heads, kept)?;
    if o.align == FillerAlign::Multiple {
        opposite_of(heads)?;
    }
    Ok(o)
}

// Stage 4, under a mode, of a tree with or without a starting value: 41, 40, 42, 43, 44, 45.
pub(crate) fn stage4(
    mode: u32,
    given: bool,
    heads: &[Concatenation],
    kept: &[Component],
) -> Result<Overall, Refusal>
    requires { HeadsFit kept.now heads.now }
    ensures { (image : List ℕ) (ds : List Def.Concatenation) → HeadsAre image kept.now heads.now ds
        → answer_of result ≡ stage4_of mode given ds }
{
    let o = overall_of((1 <= mode) & !given, heads, kept)?;
    checks(mode, heads, kept, o)
}
