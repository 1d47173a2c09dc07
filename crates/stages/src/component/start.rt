// The starting value: "of the most significant component of concatenation 0 only" (10).
ghost use Rattle.std.specs.Prelude.{◌≡◌, ℕ, ◌+◌, ◌<◌, List};
ghost use Rattle.definition.specs.Text.{Item};
ghost use Rattle.definition.specs.Component.{split_colon, split_range};
ghost use Rattle.stages.specs.token_tree.Table.{RecordFits, tables_in};
ghost use Rattle.stages.specs.token_tree.Laid.{Laid, Runs};
ghost use Rattle.stages.specs.token_tree.Grown.{Grown};
ghost use Rattle.stages.specs.component.Start.{records_before, RecordsFit, before_by, colon_place, colon_by, ColonAt, PrefixReads, StartReads};

use crate::token_tree::{
    Items, PBind, PVal, Part, Run, Tables, Tree, components_of, last_item, part_of, record,
    records_of, run_of, start_of,
};
use errors::{Reason, Refusal};

// Its text, and the record behind its colon.
#[derive(Clone, Copy)]
pub struct Start {
    pub after: PBind,
    pub s: Part,
}

// The first record of component k.
fn records_before(image: &[u8], t: Tables, k: PVal) -> PBind
    requires { RecordsFit image.now t k.0 }
    ensures { result.0 ≡ records_before image.now t k.0 }
{
    let mut r = PBind(0);
    for j in 0..k.0 {
        r = PBind(r.0 + records_of(image, t, PVal(j)));
    }
    r
}

// The colon that is seen, after one at record `at`: after a first colon a second one is skipped with it.
fn opened(seen: Option<PBind>, at: PBind) -> Option<PBind>
    ensures { result ≡ colon_by seen at }
{
    match seen {
        Some(_) => None,
        None => Some(at),
    }
}

// The record of the single colon among a run's items.
fn colon_in(image: &[u8], tree: Tree, run: Run) -> Option<PBind>
    requires { (s : ℕ) × Runs image.now tree run.stop.0 run.«end».0 run.r.0 s }
    ensures { (base s : ℕ) (is : List Item) → Laid image.now tree base run.stop.0 run.«end».0 run.r.0 s is
        → result ≡ colon_place image.now tree run.r.0 (split_colon is) }
{
    let mut seen = None;
    for item in Items::new(image, tree, run) {
        let colon = item.byte == b':';
        if colon {
            seen = opened(seen, item.at);
        } else if seen.is_some() {
            return seen;
        }
    }
    seen
}

// The text of a run up to a colon, of component k: 10.
fn value_before(
    image: &[u8],
    tree: Tree,
    k: PVal,
    run: Run,
    colon: Option<PBind>,
) -> Result<Option<Start>, Refusal>
    requires { ColonAt image.now tree run.r.0 colon run.stop.0 }
    ensures { (base s tail : ℕ) (mid : List Item) → Laid image.now tree base run.stop.0 tail run.r.0 s mid
        → colon ≡ colon_place image.now tree run.r.0 (split_colon mid)
        → PrefixReads image.now tree base k.0 run.r.0 (split_colon mid) result }
{
    let Some(colon) = colon else {
        return Ok(None);
    };
    let after = PBind(colon.0 + 1);
    if after == run.stop {
        return Err(Reason::EmptyAfterColon.at(0, k.0));
    }
    let s = part_of(start_of(image, tree, run.r), start_of(image, tree, colon));
    Ok(Some(Start { after, s }))
}

// The items before a last one in brackets. A record of kind 3 opens a `[` group.
fn before_range(image: &[u8], tree: Tree, run: Run, last: PBind) -> Run
    requires { RecordFits image.now tree last.0 }
    ensures { result ≡ before_by image.now tree run last.0 }
{
    let e = record(image, tree, last);
    if e.kind == 3 {
        return Run {
            stop: last,
            end: e.start,
            ..run
        };
    }
    run
}

// The starting value of component k, whose records are a run.
fn start_in(image: &[u8], tree: Tree, k: PVal, run: Run) -> Result<Option<Start>, Refusal>
    requires { (run.r.0 < run.stop.0) × ((s : ℕ) × Runs image.now tree run.stop.0 run.«end».0 run.r.0 s) }
    ensures { (base s : ℕ) (is : List Item) → Laid image.now tree base run.stop.0 run.«end».0 run.r.0 s is
        → PrefixReads image.now tree base k.0 run.r.0 (split_colon (split_range is).mid) result }
{
    let last = last_item(image, tree, run);
    let before = before_range(image, tree, run, last);
    let colon = colon_in(image, tree, before);
    value_before(image, tree, k, before, colon)
}

// None where the line has no prefix.
pub(crate) fn starting_value(image: &[u8], t: Tables) -> Result<Option<Start>, Refusal>
    requires { Grown image.now × (t ≡ tables_in image.now) }
    ensures { (g : Grown image.now) → StartReads image.now g.tree result }
{
    let k = PVal(components_of(image, 0) - 1);
    let r = records_before(image, t, k);
    let run = run_of(image, t, r, records_of(image, t, k));
    start_in(image, t.tree, k, run)
}
