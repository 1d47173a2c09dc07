// Records by number, and the items of a run: an item ends where the next begins.
ghost use Rattle.std.specs.Prelude.{◌≡◌, ℕ, ◌+◌, ◌-◌, ◌*◌, ◌^◌, ◌<◌, ◌≤◌, List, ◌∷◌, length};
ghost use Rattle.std.specs.Iterator.{at_most};
ghost use Rattle.definition.specs.Text.{Item};
ghost use Rattle.stages.specs.token_tree.Table.{Reads, RecordFits, start_in, skip_in, start_or};
ghost use Rattle.stages.specs.token_tree.Laid.{Laid, Runs, place_of};
ghost use Rattle.stages.specs.token_tree.Items.{Walks, Steps};

use super::text::single;
use super::types::{Entry, PBind, PText, Run, Tree};
use super::walker::read_at;

// Record r.
pub(crate) fn record(image: &[u8], tree: Tree, r: PBind) -> Entry
    requires { RecordFits image.now tree r.0 }
    ensures { Reads image.now (tree.records + 12 * r.0) result }
{
    read_at(image, tree.records + 12 * (r.0 as usize))
}

// Where the text of record r starts.
pub(crate) fn start_of(image: &[u8], tree: Tree, r: PBind) -> PText
    requires { RecordFits image.now tree r.0 }
    ensures { result.0 ≡ start_in image.now tree r.0 }
{
    record(image, tree, r).start
}

// The item behind the item at r: a word's skip is 1.
pub(crate) fn behind(image: &[u8], tree: Tree, r: PBind) -> PBind
    requires { RecordFits image.now tree r.0 × (r.0 + skip_in image.now tree r.0 < 2 ^ 32) }
    ensures { result.0 ≡ r.0 + skip_in image.now tree r.0 }
{
    PBind(r.0 + record(image, tree, r).skip)
}

// The text start at r, or where the run's text ends.
pub(crate) fn start_or(image: &[u8], tree: Tree, r: PBind, stop: PBind, end: PText) -> PText
    requires { (r.0 ≤ stop.0) × (r.0 < stop.0 → RecordFits image.now tree r.0) }
    ensures { result.0 ≡ start_or image.now tree r.0 stop.0 «end».0 }
{
    if r == stop {
        return end;
    }
    start_of(image, tree, r)
}

// The last item of a run that has one. Not by Items, which reads each item's text too: here only skips are.
pub(crate) fn last_item(image: &[u8], tree: Tree, run: Run) -> PBind
    requires { (run.r.0 < run.stop.0) × ((s : ℕ) × Runs image.now tree run.stop.0 run.«end».0 run.r.0 s) }
    ensures { (base s : ℕ) (i : Item) (is : List Item) → Laid image.now tree base run.stop.0 run.«end».0 run.r.0 s (i ∷ is)
        → result.0 ≡ place_of image.now tree run.r.0 (length is) }
{
    let mut at = run.r;
    let mut next = behind(image, tree, at);
    while next < run.stop {
        at = next;
        next = behind(image, tree, at);
    }
    at
}

// A walk over the items of a run.
#[derive(Drop)]
pub struct Items<'a> {
    pub image: &'a [u8],
    pub tree: Tree,
    pub at: PBind,
    pub s: PText,
    pub stop: PBind,
    pub end: PText,
}

// An item: its record, the one behind it, and its byte where it is a token of one, else 0.
#[derive(Clone, Copy)]
pub struct Seen {
    pub at: PBind,
    pub next: PBind,
    pub byte: u8,
}

impl<'a> Items<'a> {
    // The items of a run.
    pub(crate) fn new(image: &'a [u8], tree: Tree, run: Run) -> Items<'a>
        requires { (s : ℕ) × Runs image.now tree run.stop.0 run.«end».0 run.r.0 s }
        ensures walks { Walks result }
        ensures is { result ≡ record { image = image.entry; tree = tree; at = run.r; s = result.s; stop = run.stop; «end» = run.«end» } }
        ensures text { result.s.0 ≡ start_or image.now tree run.r.0 run.stop.0 run.«end».0 }
    {
        let s = start_or(image, tree, run.r, run.stop, run.end);
        Items {
            image,
            tree,
            at: run.r,
            s,
            stop: run.stop,
            end: run.end,
        }
    }
}

impl<'a> Iterator for Items<'a> {
    type Item = Seen;

    ghost can_next = { Walks };

    ghost next_gives = { Steps };

    ghost remaining = { λ i. at_most (i.stop.0 - i.at.0) };

    fn next(&mut self) -> Option<Seen> {
        if self.at == self.stop {
            return None;
        }
        let at = self.at;
        let next = behind(self.image, self.tree, at);
        let t = start_or(self.image, self.tree, next, self.stop, self.end);
        let byte = single(self.image, self.tree, self.s, t);
        self.at = next;
        self.s = t;
        Some(Seen { at, next, byte })
    }
}
