// A refusal's line.
ghost use Rattle.std.specs.Prelude.{[]};
ghost use Rattle.definition.specs.Listing.{listing};
ghost use Rattle.errors.specs.Refused.{refused_as};
ghost use Rattle.listing.specs.writer.Writes.{Writes};

use crate::writer::Writer;
use errors::Refusal;

impl Writer<'_> {
    pub(crate) fn put_refusal(&mut self, r: Refusal)
        ensures { Writes self.old (listing [] (refused_as r)) self.new }
    {
        self.put_bytes(b"refused");
        self.put_count(r.number as u64);
        self.put_count(r.concatenation as u64);
        self.put_count(r.component as u64);
        self.put_byte(b'\n');
    }
}
