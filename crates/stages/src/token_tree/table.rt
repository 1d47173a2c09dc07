// The header's counts and tables, by direct loads at the places that document 01 gives.
ghost use Rattle.std.specs.Prelude.{◌≡◌, ◌+◌, ◌*◌, ◌^◌, ◌<◌, ◌≤◌, length};
ghost use Rattle.definition.specs.Image.{u32_at, component_count};
ghost use Rattle.stages.specs.token_tree.Table.{tables_in, RunFits, run_in};

use super::items::start_or;
use super::types::{Run, Tables, Tree};
use crate::token_tree::types::{PBind, PText, PVal};

// Four bytes that are all there, by name: a part of a slice made an array is a conversion that might fail. The image check's own
// (`four_at`) is of its crate alone.
pub(crate) fn number_at(s: &[u8], at: usize) -> u32
    requires { at + 4 ≤ length s.now }
    ensures { result ≡ u32_at s.now at }
{
    image::token_tree::join4(s[at], s[at + 1], s[at + 2], s[at + 3])
}

pub(crate) fn tables_of(image: &[u8]) -> Tables
    requires { 40 ≤ length image.now }
    ensures { result ≡ tables_in image.now }
{
    let c = number_at(image, 0);
    let n = number_at(image, 4);
    let r = number_at(image, 8);
    let t = number_at(image, 12);
    let components = 40 + 4 * (c as usize);
    let records = components + 8 * (n as usize);
    let text = records + 12 * (r as usize);
    Tables {
        c,
        components,
        tree: Tree { records, text },
        literals: text + (t as usize),
        last: PBind(r),
        t: PText(t),
    }
}

// How many components concatenation i has.
pub(crate) fn components_of(image: &[u8], i: u32) -> u32
    requires { 44 + 4 * i ≤ length image.now }
    ensures { result ≡ component_count image.now i }
{
    number_at(image, 40 + 4 * (i as usize))
}

// How many records component k has, and the width of its literal: two numbers of one row, each one load.
pub(crate) fn records_of(image: &[u8], t: Tables, k: PVal) -> u32
    requires { t.components + 8 * k.0 + 8 ≤ length image.now }
    ensures { result ≡ u32_at image.now (t.components + 8 * k.0) }
{
    number_at(image, t.components + 8 * (k.0 as usize))
}

pub(crate) fn width_of(image: &[u8], t: Tables, k: PVal) -> u32
    requires { t.components + 8 * k.0 + 8 ≤ length image.now }
    ensures { result ≡ u32_at image.now (t.components + 8 * k.0 + 4) }
{
    number_at(image, t.components + 8 * (k.0 as usize) + 4)
}

// A component's run of so many records from record r on.
pub(crate) fn run_of(image: &[u8], t: Tables, r: PBind, records: u32) -> Run
    requires { RunFits image.now t r.0 records }
    ensures { result ≡ run_in image.now t r.0 records }
{
    let stop = PBind(r.0 + records);
    let end = start_or(image, t.tree, stop, t.last, t.t);
    Run { r, stop, end }
}
