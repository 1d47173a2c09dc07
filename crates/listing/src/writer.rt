// Writing bytes into a lent buffer: as much as fits; nothing is asked of a caller.
ghost use Rattle.std.specs.Prelude.{[], ◌∷◌};
ghost use Rattle.listing.specs.writer.Writes.{Writes};

// The buffer, and the place to write at next: it goes on past the end where not all fits, and stops at the greatest usize.
#[derive(Drop)]
pub(crate) struct Writer<'a> {
    pub(crate) out: &'a mut [u8],
    pub(crate) at: usize,
}

impl Writer<'_> {
    pub(crate) fn put_byte(&mut self, b: u8)
        ensures { Writes self.old (b ∷ []) self.new }
    {
        if self.at < self.out.len() {
            self.out[self.at] = b;
            self.at += 1;
        } else {
            self.at = self.at.saturating_add(1);
        }
    }

    // Two bytes, by one test where both fit.
    pub(crate) fn put_two(&mut self, a: u8, b: u8)
        ensures { Writes self.old (a ∷ b ∷ []) self.new }
    {
        let n = self.out.len();
        if n < 2 || n - 2 < self.at {
            self.put_byte(a);
            self.put_byte(b);
            return;
        }
        self.out[self.at] = a;
        self.out[self.at + 1] = b;
        self.at += 2;
    }

    pub(crate) fn put_bytes(&mut self, s: &[u8])
        ensures { Writes self.old s.now self.new }
    {
        for b in s {
            self.put_byte(*b);
        }
    }
}
