// An answer's bytes, beside the image that its texts are in. A byte that is missing counts as 0: so a place is a number beside the
// answer and no part of it. It is a component's, a bound's or a text's, each with a limit of its own: a struct of both has no one fact.
ghost use Rattle.std.specs.Prelude.{◌≡◌, ◌+◌, ◌^◌, ◌<◌};
ghost use Rattle.definition.specs.Image.{u32_at};
ghost use Rattle.definition.specs.Answer.{width_at, text_at};
ghost use Rattle.definition.specs.Listing.{shown};
ghost use Rattle.listing.specs.writer.Writes.{Writes};

use crate::writer::Writer;
use image::token_tree::{text_place, u32_at};

#[derive(Clone, Copy)]
pub(crate) struct Answer<'a> {
    pub(crate) image: &'a [u8],
    pub(crate) bytes: &'a [u8],
}

impl Answer<'_> {
    pub(crate) fn u32_at(&self, at: usize) -> u32
        ensures { result ≡ u32_at self.now.bytes.now at }
    {
        u32_at(self.bytes, at)
    }

    // A number of two halves of 32 bits, of which bytes may be missing: `from_le_bytes` asks for all.
    pub(crate) fn width_at(&self, at: usize) -> u64
        requires { at < 2 ^ 60 }
        ensures { result ≡ width_at self.now.bytes.now at }
    {
        (self.u32_at(at) as u64) + 0x1_0000_0000 * (self.u32_at(at + 4) as u64)
    }
}

impl Writer<'_> {
    // The text whose start and length stand at a place of the answer.
    pub(crate) fn put_text_at(&mut self, a: &Answer, place: usize)
        requires { place < 2 ^ 60 }
        ensures { Writes self.old (shown (text_at a.now.image.now a.now.bytes.now place)) self.new }
    {
        let start = text_place(a.image) + (a.u32_at(place) as usize);
        let count = a.u32_at(place + 4) as usize;
        self.put_text(a.image, start, count);
    }
}
