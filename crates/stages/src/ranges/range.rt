// A range: "A range is cut at its one top-level `..` or `..=`."
ghost use Rattle.std.specs.Prelude.{◌≡◌, ℕ, ◌<◌, ◌≤◌, List};
ghost use Rattle.definition.specs.Text.{Item};
ghost use Rattle.definition.specs.Ranges.{parse_start, parse_end, parse_range, single_bit};
ghost use Rattle.stages.specs.token_tree.Table.{start_in, RecordFits};
ghost use Rattle.stages.specs.token_tree.Laid.{Laid, Runs};
ghost use Rattle.stages.specs.ranges.Values.{usbr_of, UsbrFits, UsbReads, EndReads, RangeReads};
ghost use Rattle.stages.specs.ranges.Dots.{RangedIs, Found};

use super::bound::parse_usb;
use super::scan::{Cut, dots_in};
use super::types::{Usb, Usbr};
use crate::token_tree::{PBind, Run, Tree, part_of, start_of};
use errors::Reason;
use numbers::I128;

// An empty start is 0. The run ends before the dots at record `stop`.
fn parse_start(image: &[u8], tree: Tree, r: PBind, stop: PBind) -> Result<Usb, Reason>
    requires { RecordFits image.now tree stop.0
        × ((s : ℕ) × Runs image.now tree stop.0 (start_in image.now tree stop.0) r.0 s) }
    ensures { (base s : ℕ) (is : List Item)
        → Laid image.now tree base stop.0 (start_in image.now tree stop.0) r.0 s is
        → UsbReads image.now tree base result (parse_start is) }
{
    if r == stop {
        return Ok(Usb::zero());
    }
    let end = start_of(image, tree, stop);
    parse_usb(image, tree, Run { r, stop, end })
}

// An empty end is none. The run begins behind the dots at record `hi`. "`..=` adds 1 to x of the end if there is one"
fn parse_end(
    image: &[u8],
    tree: Tree,
    hi: PBind,
    run: Run,
    inclusive: bool,
) -> Result<Option<Usb>, Reason>
    requires { (s : ℕ) × Runs image.now tree run.stop.0 run.«end».0 hi.0 s }
    ensures { (base s : ℕ) (is : List Item) → Laid image.now tree base run.stop.0 run.«end».0 hi.0 s is
        → EndReads image.now tree base result (parse_end inclusive is) }
{
    if hi == run.stop {
        return Ok(None);
    }
    let end = parse_usb(image, tree, Run { r: hi, ..run })?;
    Ok(Some(if inclusive { end.raised()? } else { end }))
}

// The range of a run whose dots were found.
fn ranged(image: &[u8], tree: Tree, run: Run, d: Cut) -> Result<Option<Usbr>, Reason>
    requires { Found image.now tree run d }
    ensures { RangedIs image.now tree run d result }
{
    let start = parse_start(image, tree, run.r, d.lo)?;
    let end = parse_end(image, tree, d.hi, run, d.inclusive)?;
    Ok(Some(Usbr { start, end }))
}

// 12 to 16; none without dots.
pub(crate) fn parse_range(image: &[u8], tree: Tree, run: Run) -> Result<Option<Usbr>, Reason>
    requires { (s : ℕ) × Runs image.now tree run.stop.0 run.«end».0 run.r.0 s }
    ensures { (base s : ℕ) (is : List Item) → Laid image.now tree base run.stop.0 run.«end».0 run.r.0 s is
        → RangeReads image.now tree base result (parse_range is) }
{
    if run.r == run.stop {
        return Err(Reason::EmptyRange);
    }
    match dots_in(image, tree, run)? {
        Some(d) => ranged(image, tree, run, d),
        None => Ok(None),
    }
}

// In a bracket without dots, text s means s up to s + 1.
pub(crate) fn single_bit(image: &[u8], tree: Tree, run: Run) -> Usbr
    requires { (run.r.0 < run.stop.0) × ((s : ℕ) × Runs image.now tree run.stop.0 run.«end».0 run.r.0 s) }
    ensures { (base s : ℕ) (is : List Item) → Laid image.now tree base run.stop.0 run.«end».0 run.r.0 s is
        → (usbr_of image.now tree base result ≡ single_bit is) × UsbrFits image.now tree base result }
{
    let s = part_of(start_of(image, tree, run.r), run.end);
    Usbr {
        start: Usb::new_s(s),
        end: Some(Usb { s, x: I128::ONE }),
    }
}
