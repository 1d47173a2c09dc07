// The table walker: the lent image and the byte place of a record, together. Every record is read through it.
ghost use Rattle.std.specs.Prelude.{◌≡◌, ◌+◌, ◌≤◌, length};
ghost use Rattle.stages.specs.token_tree.Table.{Reads};

use super::table::number_at;
use super::types::Entry;
use crate::token_tree::types::PText;

#[derive(Clone, Copy)]
pub struct Walker<'a> {
    pub image: &'a [u8],
    pub at: usize,
}

// The covered core: a slice and a number (document 01's form, as `read_at` is).
fn entry_at(image: &[u8], at: usize) -> Entry
    requires { at + 12 ≤ length image.now }
    ensures { Reads image.now at result }
{
    Entry {
        kind: number_at(image, at),
        start: PText(number_at(image, at + 4)),
        skip: number_at(image, at + 8),
    }
}

impl<'a> Walker<'a> {
    fn new(image: &'a [u8], at: usize) -> Walker<'a>
        ensures { (result.image ≡ image.entry) × (result.at ≡ at) }
    {
        Walker { image, at }
    }

    fn read(self) -> Entry
        requires { self.at + 12 ≤ length self.image.now }
        ensures { Reads self.entry.image.now self.entry.at result }
    {
        entry_at(self.image, self.at)
    }
}

// Plain parameters above the walker: what the stages call.
pub(crate) fn read_at(image: &[u8], at: usize) -> Entry
    requires { at + 12 ≤ length image.now }
    ensures { Reads image.now at result }
{
    Walker::new(image, at).read()
}
