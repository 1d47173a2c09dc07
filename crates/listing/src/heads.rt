// Line 1.
ghost use Rattle.std.specs.Prelude.{◌∷◌};
ghost use Rattle.definition.specs.Image.{u32_at};
ghost use Rattle.definition.specs.Answer.{text_at, is_set};
ghost use Rattle.definition.specs.Listing.{shown, flag_word};
ghost use Rattle.listing.specs.writer.Writes.{Writes};
ghost use Rattle.listing.specs.Parts.{head_line};

use crate::answer::Answer;
use crate::words::is_set;
use crate::writer::Writer;

impl Writer<'_> {
    // The starting value.
    fn put_init(&mut self, a: &Answer)
        ensures { let s = a.now.bytes.now in
            Writes self.old (32 ∷ flag_word (is_set (u32_at s 16) 4) (61 ∷ shown (text_at a.now.image.now s 24))) self.new }
    {
        self.put_byte(b' ');
        if is_set(a.u32_at(16), 4) {
            self.put_byte(b'=');
            return self.put_text_at(a, 24);
        }
        self.put_byte(b'-');
    }

    // Line 1.
    pub(crate) fn put_head(&mut self, a: &Answer)
        ensures { Writes self.old (head_line a.now.image.now a.now.bytes.now) self.new }
    {
        let groups = a.u32_at(0);
        let fields = a.u32_at(4);
        let width = a.width_at(8);
        let flags = a.u32_at(16);
        let align = a.u32_at(20);
        self.put_bytes(b"layout");
        self.put_count(groups as u64);
        self.put_count(fields as u64);
        self.put_summary(width, align, flags);
        self.put_init(a);
        self.put_byte(b'\n');
    }
}
