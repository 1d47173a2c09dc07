// A number without a sign, before it has one.
ghost use Rattle.std.specs.Prelude.{◌≡◌, ◌+◌, ◌*◌, ◌^◌, ◌<◌, ◌≤◌, pos};
ghost use Rattle.definition.specs.Numbers.{narrow};
ghost use Rattle.numbers.specs.Value.{option_of};
ghost use Rattle.numbers.specs.parse.Halves.{number, number_of};
ghost use Rattle.numbers.specs.parse.Parts.{capped, negated};

use crate::I128;

// A number without a sign, in two halves (document 01's form). Apart from I128: it has neither its value nor its order.
#[derive(Clone, Copy)]
pub struct U128 {
    pub high: u64,
    pub low: u64,
}

// x * m + add, by halves of x: no number here is wider than 64 bits.
fn mul_small(x: u64, m: u64, add: u64) -> U128
    requires { (m ≤ 16) × (add < 2 ^ 32) }
    ensures { (number result ≡ x * m + add) × (result.high ≤ 16) }
{
    let lower = x % 0x1_0000_0000 * m + add;
    let upper = x / 0x1_0000_0000 * m + lower / 0x1_0000_0000;
    U128 {
        high: upper / 0x1_0000_0000,
        low: upper % 0x1_0000_0000 * 0x1_0000_0000 + lower % 0x1_0000_0000,
    }
}

impl U128 {
    pub(crate) const ZERO: U128 = U128 { high: 0, low: 0 };

    // self * radix + d, where it fits 128 bits.
    pub(crate) fn step(self, radix: u64, d: u64) -> Option<U128>
        requires { (radix ≤ 16) × (d < 256) }
        ensures { number_of result ≡ capped (number self * radix + d) }
    {
        let low = mul_small(self.low, radix, d);
        let high = mul_small(self.high, radix, low.high);
        if high.high != 0 {
            return None;
        }
        Some(U128 {
            high: high.low,
            low: low.low,
        })
    }

    // The number as it stands, where it is below 2^127.
    pub(crate) fn positive(self) -> Option<I128>
        ensures { option_of result ≡ narrow (pos (number self)) }
    {
        let U128 { high, low } = self;
        if high < 0x8000_0000_0000_0000 {
            Some(I128 { high, low })
        } else {
            None
        }
    }

    // The number with a minus, where it is at most 2^127, which alone has no number without one.
    pub(crate) fn negative(self) -> Option<I128>
        ensures { option_of result ≡ narrow (negated (number self)) }
    {
        if self.high == 0x8000_0000_0000_0000 && self.low == 0 {
            return Some(I128::MIN);
        }
        self.positive()?.checked_neg()
    }
}
