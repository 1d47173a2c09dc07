// Signed numbers of 128 bits, as the Rust's i128: sign, order, and a number of the machine as one (src/misc.rs).
#![tactic(auto)]

pub mod digit;
pub mod parse;
pub mod sums;

ghost use Rattle.std.specs.Prelude.{◌≡◌, not, pos, ◌==◌, unsigned_abs};
ghost use Rattle.std.proofs.Common.{rules};
ghost use Rattle.std.specs.Int.Signed.{non_neg};
ghost use Rattle.std.specs.Cmp.{partial_order_from_own_ties};
ghost use Rattle.std.specs.Cmp.Rules.{comparing};
ghost use Rattle.std.specs.Ordering.{bool_cmp, int_cmp, int_eq, on, as_partial_cmp};
ghost use Rattle.numbers.specs.Steps.{negative};
ghost use Rattle.numbers.specs.Value.{two, value_of};

use std::cmp::Ordering;

// Two halves, in two's complement, as document 01 asks: `is_negative`, `is_zero` and `compare` look at the halves.
#[derive(Clone, Copy, Debug)]
pub struct I128 {
    pub high: u64,
    pub low: u64,
}

impl I128 {
    pub const ZERO: I128 = I128 { high: 0, low: 0 };

    pub const ONE: I128 = I128 { high: 0, low: 1 };

    pub const MIN: I128 = I128 {
        high: 0x8000_0000_0000_0000,
        low: 0,
    };

    pub fn is_negative(self) -> bool
        ensures { result ≡ not (non_neg (value_of self)) }
    {
        0x8000_0000_0000_0000 <= self.high
    }

    pub fn is_zero(self) -> bool
        ensures { result ≡ (unsigned_abs (value_of self) == 0) }
    {
        self.high == 0 && self.low == 0
    }
}

// A number below 0 comes before one that is not. By value, as `compare`: of numbers behind a reference no range is known.
fn by_sign(a: I128, b: I128) -> Ordering
    ensures { result ≡ bool_cmp (negative (value_of b)) (negative (value_of a)) }
{
    b.is_negative().cmp(&a.is_negative())
}

// By the signs; of one sign by the bits.
fn compare(a: I128, b: I128) -> Ordering
    ensures { result ≡ int_cmp (value_of a) (value_of b) }
{
    by_sign(a, b).then(a.high.cmp(&b.high).then(a.low.cmp(&b.low)))
}

// The comparisons are those of the values. No derive: `==` goes with `<`, whose laws hold of halves that fit no u64, too.
impl PartialEq for I128 {
    ghost eq = { on value_of int_eq };

    ghost laws = { Prim.search (comparing, rules) };

    fn eq(&self, other: &I128) -> bool {
        self.cmp(other).is_eq()
    }
}

impl Eq for I128 {
    ghost laws = { Prim.search (comparing, rules) };
}

impl PartialOrd for I128 {
    ghost partial_cmp = { as_partial_cmp (on value_of int_cmp) };

    ghost laws = { partial_order_from_own_ties (Prim.search (comparing, rules)) (Prim.search (comparing, rules)) };

    fn partial_cmp(&self, other: &I128) -> Option<Ordering> {
        Some(self.cmp(other))
    }
}

impl Ord for I128 {
    ghost cmp = { on value_of int_cmp };

    ghost total = { Prim.search (comparing, rules) };

    ghost matches_partial_cmp = { Prim.search (comparing, rules) };

    ghost matches_eq = { Prim.search (comparing, rules) };

    fn cmp(&self, other: &I128) -> Ordering {
        compare(*self, *other)
    }
}

impl From<u64> for I128 {
    ghost from_gives = { λ x made. (made ≡ two 0 x) × (value_of made ≡ pos x) };

    fn from(x: u64) -> I128 {
        I128 { high: 0, low: x }
    }
}

impl From<usize> for I128 {
    ghost from_gives = { λ x made. value_of made ≡ pos x };

    fn from(x: usize) -> I128 {
        I128::from(x as u64)
    }
}
