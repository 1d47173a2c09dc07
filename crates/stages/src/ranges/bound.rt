// A bound: "It is written as one token or one `(` group."
ghost use Rattle.std.specs.Prelude.{ℕ, ◌+◌, ◌<◌, ◌≤◌, List, [], ◌∷◌, length};
ghost use Rattle.definition.specs.Text.{Item};
ghost use Rattle.definition.specs.Ranges.{read_bound, parse_usb};
ghost use Rattle.stages.specs.token_tree.Laid.{Laid, Runs};
ghost use Rattle.stages.specs.ranges.Values.{UsbReads};

use super::sides::sides;
use super::signs::cut_in;
use super::types::Usb;
use crate::token_tree::{PBind, PText, Run, Tree, part_of, record, single, start_of};
use errors::Reason;

// What stands in a `(` group, its text from s on.
fn group(image: &[u8], tree: Tree, run: Run, s: PText) -> Result<Usb, Reason>
    requires { Runs image.now tree run.stop.0 run.«end».0 run.r.0 s.0 }
    ensures { (base : ℕ) (is : List Item) → base ≤ s.0 → Laid image.now tree base run.stop.0 run.«end».0 run.r.0 s.0 is
        → UsbReads image.now tree base result (read_bound is) }
{
    match cut_in(image, tree, run) {
        Some(sign) => sides(image, tree, start_of(image, tree, sign), s, run.end),
        None => Ok(Usb::new_s(part_of(s, run.end))),
    }
}

// A lone token, its text from s to `end`. A sign alone is 0.
fn token(image: &[u8], tree: Tree, s: PText, end: PText) -> Usb
    requires { (s.0 < «end».0) × (tree.text + «end».0 ≤ length image.now) }
    ensures { (base stop r : ℕ) (i : Item) → Laid image.now tree base stop «end».0 r s.0 (i ∷ [])
        → UsbReads image.now tree base (Ok result) (read_bound (i ∷ [])) }
{
    match single(image, tree, s, end) {
        b'+' | b'-' => Usb::zero(),
        _ => Usb::new_s(part_of(s, end)),
    }
}

// One item or more: 15, 16. A record's kind is the image's number: 0 a word, 2 a `(` group.
pub(crate) fn parse_usb(image: &[u8], tree: Tree, run: Run) -> Result<Usb, Reason>
    requires { (run.r.0 < run.stop.0) × ((s : ℕ) × Runs image.now tree run.stop.0 run.«end».0 run.r.0 s) }
    ensures { (base s : ℕ) (is : List Item) → Laid image.now tree base run.stop.0 run.«end».0 run.r.0 s is
        → UsbReads image.now tree base result (parse_usb is) }
{
    let e = record(image, tree, run.r);
    let s = e.start;
    if run.r.0 + e.skip != run.stop.0 {
        return Err(Reason::NotOneToken);
    }
    match e.kind {
        0 => Ok(token(image, tree, s, run.end)),
        2 => group(
            image,
            tree,
            Run {
                r: PBind(run.r.0 + 1),
                stop: PBind(run.stop.0 - 1),
                end: PText(run.end.0 - 1),
            },
            PText(s.0 + 1),
        ),
        _ => Err(Reason::NotOneToken),
    }
}
