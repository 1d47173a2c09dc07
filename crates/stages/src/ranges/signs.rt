// The sign at which a bound is cut: "With any `+`, cut at the last. Else, with any `-`, cut at the first of the leftmost pair of
// adjacent minuses, or with no pair at the last."
ghost use Rattle.std.specs.Prelude.{◌≡◌, ℕ, ◌^◌, ◌<◌, ◌≤◌, List};
ghost use Rattle.definition.specs.Text.{Item};
ghost use Rattle.definition.specs.Ranges.{cut_bound};
ghost use Rattle.stages.specs.token_tree.Laid.{Laid, Runs};
ghost use Rattle.stages.specs.ranges.Signs.{Early, paired_by, signed_by, cut_of, cut_place, signs_in};

use crate::token_tree::{Items, PBind, Run, Tree};

// The records of signs: the last plus, the first of the leftmost pair of minuses, the last minus.
#[derive(Clone, Copy)]
pub struct Signs {
    pub plus: Option<PBind>,
    pub pair: Option<PBind>,
    pub minus: Option<PBind>,
}

// The first of the leftmost pair of minuses, with a minus at record r.
fn paired(pair: Option<PBind>, minus: Option<PBind>, r: PBind) -> Option<PBind>
    requires { Early minus }
    ensures { result ≡ paired_by pair minus r.0 }
{
    if pair.is_some() {
        return pair;
    }
    let before = minus?;
    if before.0 + 1 == r.0 { minus } else { None }
}

// An item at record r: its byte, where it is a token of one.
fn signed(g: Signs, r: PBind, b: u8) -> Signs
    requires { Early g.minus }
    ensures { result ≡ signed_by g r.0 b }
{
    match b {
        b'+' => Signs { plus: Some(r), ..g },
        b'-' => Signs {
            pair: paired(g.pair, g.minus, r),
            minus: Some(r),
            ..g
        },
        _ => g,
    }
}

fn signs_in(image: &[u8], tree: Tree, run: Run) -> Signs
    requires { (s : ℕ) × Runs image.now tree run.stop.0 run.«end».0 run.r.0 s }
    ensures { (base s : ℕ) (is : List Item) → Laid image.now tree base run.stop.0 run.«end».0 run.r.0 s is
        → result ≡ signs_in image.now tree run.r.0 is }
{
    let mut g = Signs {
        plus: None,
        pair: None,
        minus: None,
    };
    for item in Items::new(image, tree, run) {
        g = signed(g, item.at, item.byte);
    }
    g
}

// The one to cut at.
fn cut_of(g: Signs) -> Option<PBind>
    ensures { result ≡ cut_of g }
{
    g.plus.or(g.pair).or(g.minus)
}

// The record of the sign that a bound is cut at.
pub(crate) fn cut_in(image: &[u8], tree: Tree, run: Run) -> Option<PBind>
    requires { (s : ℕ) × Runs image.now tree run.stop.0 run.«end».0 run.r.0 s }
    ensures { (base s : ℕ) (is : List Item) → Laid image.now tree base run.stop.0 run.«end».0 run.r.0 s is
        → result ≡ cut_place image.now tree run.r.0 (cut_bound is) }
{
    cut_of(signs_in(image, tree, run))
}
