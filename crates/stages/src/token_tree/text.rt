// Parts of the text table.
ghost use Rattle.std.specs.Prelude.{◌≡◌, ◌+◌, ◌-◌, ◌^◌, ◌<◌, ◌≤◌, length, slice_index};
ghost use Rattle.definition.specs.Basics.{same_bytes};
ghost use Rattle.definition.specs.Image.{bytes_at};
ghost use Rattle.stages.specs.token_tree.Table.{single_of};
ghost use Rattle.stages.specs.token_tree.Parts.{no_part, part_by, bytes_in, Room};

use super::types::{Part, Tree};
use crate::token_tree::types::PText;

// The byte at a text place.
pub(crate) fn byte_at(image: &[u8], tree: Tree, p: PText) -> u8
    requires { tree.text + p.0 < length image.now }
    ensures { result ≡ slice_index image.now (tree.text + p.0) }
{
    image[tree.text + (p.0 as usize)]
}

// The byte of an item of one byte, which is a token; 0 of any other: no token that is asked for is 0, and an Option would put Some around
// each byte that it is compared with.
pub(crate) fn single(image: &[u8], tree: Tree, s: PText, t: PText) -> u8
    requires { (s.0 ≤ t.0) × (tree.text + t.0 ≤ length image.now) }
    ensures { result ≡ single_of image.now (tree.text + s.0) (t.0 - s.0) }
{
    if t.0 - s.0 == 1 {
        return byte_at(image, tree, s);
    }
    0
}

pub(crate) fn no_text() -> Part
    ensures { result ≡ no_part }
{
    Part {
        at: PText(0),
        len: 0,
    }
}

// The text from s to t. What is only looked at stays two places, as the records give them; a Part is what is kept.
pub(crate) fn part_of(s: PText, t: PText) -> Part
    requires { s.0 ≤ t.0 }
    ensures { result ≡ part_by s.0 t.0 }
{
    if s == t {
        return no_text();
    }
    Part {
        at: s,
        len: t.0 - s.0,
    }
}

pub(crate) fn same_text(image: &[u8], tree: Tree, a: Part, b: Part) -> bool
    requires { Room image.now tree a × Room image.now tree b }
    ensures { result ≡ same_bytes (bytes_in image.now tree a) (bytes_in image.now tree b) }
{
    let p = tree.text + (a.at.0 as usize);
    let q = tree.text + (b.at.0 as usize);
    image[p..p + a.len as usize] == image[q..q + b.len as usize]
}
