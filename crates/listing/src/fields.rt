// A component's line, read from the answer's bytes. Kinds, and 0 for no end, are numbers there by document 01: any number has a line.
ghost use Rattle.std.specs.Prelude.{[], ◌∷◌, ◌+◌, ◌^◌, ◌<◌};
ghost use Rattle.definition.specs.Answer.{bound_at, field_at};
ghost use Rattle.definition.specs.Listing.{bound_word, end_word, field_line};
ghost use Rattle.listing.specs.writer.Writes.{Writes};
ghost use Rattle.listing.specs.words.Spaced.{spaced};
ghost use Rattle.listing.specs.Parts.{kind_word, content_at, end_at};

use crate::answer::Answer;
use crate::decimal::Halves;
use crate::writer::Writer;

impl Writer<'_> {
    // A start or an end: its text and its x.
    fn put_bound(&mut self, a: &Answer, place: usize)
        requires { place < 2 ^ 50 }
        ensures { Writes self.old (bound_word (bound_at a.now.image.now a.now.bytes.now place)) self.new }
    {
        self.put_text_at(a, place);
        self.put_signed(Halves {
            high: a.width_at(place + 16),
            low: a.width_at(place + 8),
        });
    }

    // The end of the component at a place, or a dash.
    fn put_end(&mut self, a: &Answer, place: usize)
        requires { place < 2 ^ 48 }
        ensures { Writes self.old (end_word (end_at a.now.image.now a.now.bytes.now place)) self.new }
    {
        if a.u32_at(place + 20) == 0 {
            return self.put_byte(b'-');
        }
        self.put_bound(a, place + 48);
    }

    fn put_bounds(&mut self, a: &Answer, place: usize)
        requires { place < 2 ^ 48 }
        ensures { let s = a.now.bytes.now in let start = bound_at a.now.image.now s (place + 24) in
            Writes self.old (spaced (bound_word start ∷ end_word (end_at a.now.image.now s place) ∷ [])) self.new }
    {
        self.put_byte(b' ');
        self.put_bound(a, place + 24);
        self.put_byte(b' ');
        self.put_end(a, place);
    }

    fn put_kind(&mut self, kind: u32)
        ensures { Writes self.old (kind_word kind) self.new }
    {
        match kind {
            1 => self.put_bytes(b"literal"),
            2 => self.put_bytes(b"variable"),
            _ => self.put_bytes(b"filler"),
        }
    }

    // What follows the bounds; the literal block begins at `literals`.
    fn put_content(&mut self, a: &Answer, place: usize, literals: usize)
        requires { (place < 2 ^ 48) × (literals < 2 ^ 48) }
        ensures { Writes self.old (spaced (content_at a.now.image.now a.now.bytes.now place literals)) self.new }
    {
        match a.u32_at(place) {
            1 => {
                let from = literals + (a.u32_at(place + 16) as usize);
                let bits = a.u32_at(place + 12) as usize;
                self.put_byte(b' ');
                self.put_number(a.bytes, from, bits.div_ceil(8));
            }
            2 => {
                self.put_byte(b' ');
                self.put_text_at(a, place + 4);
            }
            _ => {}
        }
    }

    // The line of component k.
    pub(crate) fn put_field(&mut self, a: &Answer, k: u32)
        ensures { Writes self.old (field_line (field_at a.now.image.now a.now.bytes.now k)) self.new }
    {
        let first = limits::HEAD_SIZE + limits::CONCATENATION_SIZE * (a.u32_at(0) as usize);
        let literals = first + limits::COMPONENT_SIZE * (a.u32_at(4) as usize);
        let place = first + limits::COMPONENT_SIZE * (k as usize);
        self.put_kind(a.u32_at(place));
        self.put_bounds(a, place);
        self.put_content(a, place, literals);
        self.put_byte(b'\n');
    }
}
