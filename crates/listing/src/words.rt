// The words of a line, each with the space before it. Alignments, flags, and 0 for no width, are numbers in an answer by document 01.
ghost use Rattle.std.specs.Prelude.{◌≡◌, [], ◌∷◌, ◌<◌};
ghost use Rattle.definition.specs.Answer.{is_set};
ghost use Rattle.definition.specs.Listing.{decimal, width_word, align_word, flag_word, summary_words};
ghost use Rattle.listing.specs.writer.Writes.{Writes};
ghost use Rattle.listing.specs.words.Spaced.{spaced};

use crate::writer::Writer;

// Whether a flag is set, by its worth among the flags, as the definition has it: `&` would be right for powers of two alone.
pub(crate) fn is_set(flags: u32, worth: u32) -> bool
    requires { 0 < worth }
    ensures { result ≡ is_set flags worth }
{
    flags / worth % 2 == 1
}

impl Writer<'_> {
    pub(crate) fn put_count(&mut self, n: u64)
        ensures { Writes self.old (32 ∷ decimal n) self.new }
    {
        self.put_byte(b' ');
        self.put_decimal(n.into());
    }

    fn put_width(&mut self, width: u64)
        ensures { Writes self.old (32 ∷ width_word width) self.new }
    {
        match width {
            0 => self.put_bytes(b" -"),
            _ => self.put_count(width),
        }
    }

    fn put_align(&mut self, align: u32)
        ensures { Writes self.old (32 ∷ align_word align) self.new }
    {
        match align {
            0 => self.put_bytes(b" none"),
            1 => self.put_bytes(b" single"),
            2 => self.put_bytes(b" lsb"),
            3 => self.put_bytes(b" msb"),
            4 => self.put_bytes(b" mid"),
            _ => self.put_bytes(b" multiple"),
        }
    }

    // A letter where a flag is set, else a dash.
    fn put_flag(&mut self, set: bool, letter: u8)
        ensures { Writes self.old (32 ∷ flag_word set (letter ∷ [])) self.new }
    {
        self.put_byte(b' ');
        self.put_byte(if set { letter } else { b'-' });
    }

    pub(crate) fn put_summary(&mut self, width: u64, align: u32, flags: u32)
        ensures { Writes self.old (spaced (summary_words width align flags)) self.new }
    {
        self.put_width(width);
        self.put_align(align);
        self.put_flag(is_set(flags, 1), b'D');
        self.put_flag(is_set(flags, 2), b'Z');
    }
}
