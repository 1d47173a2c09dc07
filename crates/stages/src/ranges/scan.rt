// The scan for `..` and `..=` at the top level of a range: "each character a token; a `..` counts when the next token is no dot".
ghost use Rattle.std.specs.Prelude.{◌≡◌, ℕ, List};
ghost use Rattle.definition.specs.Text.{Item};
ghost use Rattle.errors.specs.Reasoned.{reasoned};
ghost use Rattle.stages.specs.token_tree.Laid.{Laid, Runs};
ghost use Rattle.stages.specs.ranges.Dots.{found_by, dotted_by, scanned_by, ended_by, dots_in};

use crate::token_tree::{Items, PBind, Run, Tree};
use errors::Reason;

// Where a range is cut: the dots are the records from lo up to hi.
#[derive(Clone, Copy)]
pub struct Cut {
    pub lo: PBind,
    pub hi: PBind,
    pub inclusive: bool,
}

// The dots that stand just before an item: none, one or two, and the first of them.
#[derive(Clone, Copy)]
pub enum Lead {
    Nothing,
    One(PBind),
    Two(PBind),
}

// The scan's state: the dots just before, and the dots that were found.
#[derive(Clone, Copy)]
pub struct Dots {
    pub lead: Lead,
    pub cut: Option<Cut>,
}

// The dots are the records from lo up to hi. 13: a second `..`.
fn found(d: Dots, lo: PBind, hi: PBind, inclusive: bool) -> Result<Dots, Reason>
    ensures { result ≡ found_by d.cut lo.0 hi.0 inclusive }
{
    if d.cut.is_some() {
        return Err(Reason::SecondDots);
    }
    Ok(Dots {
        lead: Lead::Nothing,
        cut: Some(Cut { lo, hi, inclusive }),
    })
}

// One more dot at record r: 14 for a third.
fn dotted(d: Dots, r: PBind) -> Result<Dots, Reason>
    ensures { result ≡ dotted_by d.lead d.cut r.0 }
{
    let lead = match d.lead {
        Lead::Nothing => Lead::One(r),
        Lead::One(first) => Lead::Two(first),
        Lead::Two(_) => return Err(Reason::ThreeDots),
    };
    Ok(Dots { lead, ..d })
}

// An item from record r up to `next`: its byte, where it is a token of one.
fn scanned(d: Dots, r: PBind, next: PBind, b: u8) -> Result<Dots, Reason>
    ensures { result ≡ scanned_by d r.0 next.0 b }
{
    match (d.lead, b) {
        (_, b'.') => dotted(d, r),
        (Lead::Two(first), b'=') => found(d, first, next, true),
        (Lead::Two(first), _) => found(d, first, r, false),
        _ => Ok(Dots {
            lead: Lead::Nothing,
            ..d
        }),
    }
}

fn at_stop(d: Dots, stop: PBind) -> Result<Dots, Reason>
    ensures { result ≡ ended_by d stop.0 }
{
    match d.lead {
        Lead::Two(first) => found(d, first, stop, false),
        _ => Ok(d),
    }
}

// 13, 14; none without dots.
pub(crate) fn dots_in(image: &[u8], tree: Tree, run: Run) -> Result<Option<Cut>, Reason>
    requires { (s : ℕ) × Runs image.now tree run.stop.0 run.«end».0 run.r.0 s }
    ensures { (base s : ℕ) (is : List Item) → Laid image.now tree base run.stop.0 run.«end».0 run.r.0 s is
        → reasoned result ≡ dots_in image.now tree run.r.0 is }
{
    let mut d = Dots {
        lead: Lead::Nothing,
        cut: None,
    };
    for item in Items::new(image, tree, run) {
        d = scanned(d, item.at, item.next, item.byte)?;
    }
    Ok(at_stop(d, run.stop)?.cut)
}
