// Stage 1 of a component: 11 to 17.
ghost use Rattle.std.specs.Prelude.{◌≡◌, ℕ, ◌+◌, ◌<◌, ◌≤◌, ◌||◌, List, length, ◌==◌};
ghost use Rattle.std.proofs.Math.Option.{none, some};
ghost use Rattle.definition.specs.Basics.{within};
ghost use Rattle.definition.specs.Image.{bits_at};
ghost use Rattle.definition.specs.Text.{Item, items};
ghost use Rattle.definition.specs.Component.{parse_component, typed as typed_of};
ghost use Rattle.stages.specs.token_tree.Laid.{Laid, Runs};
ghost use Rattle.stages.specs.ranges.Values.{usbr_of, UsbrFits};
ghost use Rattle.stages.specs.component.Values.{component_by, ComponentReads, Whole};
ghost use Rattle.stages.specs.component.Parse.{parse_items, Ended};

use super::types::{Bits, Component, ComponentType};
use crate::ranges::{Usbr, parse_range, single_bit};
use crate::token_tree::{PBind, PText, Run, Tree, byte_at, last_item, part_of, record, start_of};
use errors::Reason;

// `-` or a digit.
fn begins_number(b: u8) -> bool
    ensures { result ≡ (b == 45 || within 48 57 b) }
{
    b == b'-' || b.is_ascii_digit()
}

fn component_of(c_type: ComponentType, range: Usbr) -> Component
    ensures { result ≡ component_by c_type range }
{
    Component {
        c_type,
        range,
        width: None,
    }
}

// A literal or a variable, whose text is from s to t: 17.
fn typed(
    image: &[u8],
    tree: Tree,
    s: PText,
    t: PText,
    literal: Bits,
    range: Usbr,
) -> Result<Component, Reason>
    requires { (s.0 < t.0) × (tree.text + t.0 ≤ length image.now) }
    ensures { (base r stop : ℕ) (mid : List Item) → Whole image.now literal → 1 ≤ length mid
        → Laid image.now tree base stop t.0 r s.0 mid → UsbrFits image.now tree base range
        → ComponentReads image.now tree base result
        (typed_of mid (bits_at image.now literal.at literal.to) (usbr_of image.now tree base range)) }
{
    if !begins_number(byte_at(image, tree, s)) {
        return Ok(component_of(ComponentType::Variable(part_of(s, t)), range));
    }
    if literal.to == 0 {
        return Err(Reason::NoLiteral);
    }
    Ok(component_of(ComponentType::Literal(literal), range))
}

// With a range in brackets from the record `last` on.
fn bracketed(
    image: &[u8],
    tree: Tree,
    run: Run,
    last: PBind,
    literal: Bits,
) -> Result<Component, Reason>
    requires { ((s : ℕ) × Runs image.now tree run.stop.0 run.«end».0 run.r.0 s)
        × ((base : ℕ) × (s : ℕ) × (mid : List Item) × (i : Item) × Ended image.now tree run last.0 base s mid i) }
    ensures { (base s : ℕ) (mid : List Item) (i : Item) → Whole image.now literal → Ended image.now tree run last.0 base s mid i
        → ComponentReads image.now tree base result
        (parse_component mid (some (items i.inside_at i.inside)) (bits_at image.now literal.at literal.to)) }
{
    let s = start_of(image, tree, run.r);
    let t = start_of(image, tree, last);
    let inside = Run {
        r: PBind(last.0 + 1),
        stop: PBind(run.stop.0 - 1),
        end: PText(run.end.0 - 1),
    };
    match parse_range(image, tree, inside)? {
        Some(range) => typed(image, tree, s, t, literal, range),
        None => typed(image, tree, s, t, literal, single_bit(image, tree, inside)),
    }
}

fn unbracketed(image: &[u8], tree: Tree, run: Run, literal: Bits) -> Result<Component, Reason>
    requires { (run.r.0 < run.stop.0) × ((s : ℕ) × Runs image.now tree run.stop.0 run.«end».0 run.r.0 s) }
    ensures { (base s : ℕ) (is : List Item) → Whole image.now literal
        → Laid image.now tree base run.stop.0 run.«end».0 run.r.0 s is
        → ComponentReads image.now tree base result (parse_component is none (bits_at image.now literal.at literal.to)) }
{
    let s = start_of(image, tree, run.r);
    match parse_range(image, tree, run)? {
        Some(range) => Ok(component_of(ComponentType::Filler, range)),
        None => typed(image, tree, s, run.end, literal, Usbr::unbounded()),
    }
}

// 11 to 17: a component of one record or more, with its whole literal. A record of kind 3 opens a `[` group.
pub(crate) fn parse_component(
    image: &[u8],
    tree: Tree,
    run: Run,
    literal: Bits,
) -> Result<Component, Reason>
    requires { (run.r.0 < run.stop.0) × ((s : ℕ) × Runs image.now tree run.stop.0 run.«end».0 run.r.0 s) }
    ensures { (base s : ℕ) (is : List Item) → Whole image.now literal
        → Laid image.now tree base run.stop.0 run.«end».0 run.r.0 s is
        → ComponentReads image.now tree base result (parse_items is (bits_at image.now literal.at literal.to)) }
{
    let last = last_item(image, tree, run);
    if record(image, tree, last).kind != 3 {
        return unbracketed(image, tree, run, literal);
    }
    if last == run.r {
        return Err(Reason::NothingBeforeRange);
    }
    bracketed(image, tree, run, last, literal)
}
