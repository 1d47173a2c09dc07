// Numbers of 128 bits in decimal.
ghost use Rattle.std.specs.Prelude.{◌≡◌, [], ◌+◌, ◌*◌, ◌/◌, ◌%◌, ◌^◌, ◌≤◌, ltb};
ghost use Rattle.definition.specs.Answer.{untwos};
ghost use Rattle.definition.specs.Listing.{decimal_onto, decimal, signed};
ghost use Rattle.listing.specs.writer.Writes.{Writes};
ghost use Rattle.listing.specs.decimal.Halves.{whole};

use crate::writer::Writer;

// 128 bits, in two halves of 64 (document 01's form). Not an I128: this crate does not stand on `numbers`, nor compares.
#[derive(Clone, Copy)]
pub(crate) struct Halves {
    pub(crate) high: u64,
    pub(crate) low: u64,
}

// A number divided by ten, and the digit that is left over.
#[derive(Clone, Copy)]
struct Tenth {
    rest: Halves,
    digit: u8,
}

impl Halves {
    // Three divisions, over 32 bits of the low half at a time.
    fn divided_by_ten(self) -> Tenth
        ensures { (whole result.rest ≡ whole self / 10) × (result.digit ≡ 48 + whole self % 10) }
    {
        let upper = self.high % 10 * 0x1_0000_0000 + self.low / 0x1_0000_0000;
        let lower = upper % 10 * 0x1_0000_0000 + self.low % 0x1_0000_0000;
        let rest = Halves {
            high: self.high / 10,
            low: upper / 10 * 0x1_0000_0000 + lower / 10,
        };
        Tenth {
            rest,
            digit: 48 + (lower % 10) as u8,
        }
    }

    fn is_digit(self) -> bool
        ensures { result ≡ ltb (whole self) 10 }
    {
        self.high == 0 && self.low < 10
    }

    // 2^128 less the number: the size of a negative one.
    fn negated(self) -> Halves
        requires { 2 ^ 63 ≤ self.high }
        ensures { whole result + whole self ≡ 2 ^ 64 * 2 ^ 64 }
    {
        let Halves { high, low } = self;
        if low == 0 {
            return Halves {
                high: u64::MAX - high + 1,
                low,
            };
        }
        Halves {
            high: u64::MAX - high,
            low: u64::MAX - low + 1,
        }
    }
}

impl From<u64> for Halves {
    ghost from_gives = { λ n made. whole made ≡ n };

    fn from(n: u64) -> Halves {
        Halves { high: 0, low: n }
    }
}

impl Writer<'_> {
    // The last `steps` digits, the higher ones first: by calling itself, since the digits come lowest first and a loop would need an
    // array to turn them in.
    fn put_digits(&mut self, steps: usize, n: Halves)
        ensures { Writes self.old (decimal_onto steps (whole n) []) self.new }
    {
        if steps == 0 {
            return;
        }
        let t = n.divided_by_ten();
        if !n.is_digit() {
            self.put_digits(steps - 1, t.rest);
        }
        self.put_byte(t.digit);
    }

    // A number without a sign.
    pub(crate) fn put_decimal(&mut self, n: Halves)
        ensures { Writes self.old (decimal (whole n)) self.new }
    {
        self.put_digits(39, n);
    }

    // A number in two's complement, with its sign.
    pub(crate) fn put_signed(&mut self, n: Halves)
        ensures { Writes self.old (signed (untwos (whole n))) self.new }
    {
        if n.high < 0x8000_0000_0000_0000 {
            self.put_byte(b'+');
            return self.put_decimal(n);
        }
        self.put_byte(b'-');
        self.put_decimal(n.negated());
    }
}
