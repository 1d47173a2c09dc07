// Sums, differences and negations of numbers of 128 bits (i128::checked_add, checked_sub, checked_neg). Halves, `wrapping_add` and the
// comparison are document 01's form. A sum's functions and a difference's have one shape but other contracts: one function over both
// would need a proof for each all the same.
ghost use Rattle.std.specs.Prelude.{◌≡◌, ◌+◌, ◌*◌, ◌^◌, ◌≤◌, ◌+ℤ◌, ◌-ℤ◌, neg_ℤ};
ghost use Rattle.definition.specs.Numbers.{narrow};
ghost use Rattle.numbers.specs.Steps.{Wraps, negative, overflow};
ghost use Rattle.numbers.specs.Value.{bits, value_of, option_of};

use crate::I128;

// One half of a sum or a difference, and what it carries to or borrows from the next.
#[derive(Clone, Copy)]
struct Half {
    value: u64,
    carry: u64,
}

// a + b: the carry is taken by comparing the result with an operand.
fn add_half(a: u64, b: u64) -> Half
    ensures { (result.value + result.carry * 2 ^ 64 ≡ a + b) × (result.carry ≤ 1) }
{
    let s = a.wrapping_add(b);
    Half {
        value: s,
        carry: (s < a) as u64,
    }
}

// a + b + carry
fn add_carry(a: u64, b: u64, carry: u64) -> Half
    requires { carry ≤ 1 }
    ensures { (result.value + result.carry * 2 ^ 64 ≡ a + b + carry) × (result.carry ≤ 1) }
{
    let s = add_half(a, b);
    let t = add_half(s.value, carry);
    Half {
        value: t.value,
        carry: s.carry + t.carry,
    }
}

// a - b: it borrows where the result is above a.
fn sub_half(a: u64, b: u64) -> Half
    ensures { (result.value + b ≡ a + result.carry * 2 ^ 64) × (result.carry ≤ 1) }
{
    let s = a.wrapping_sub(b);
    Half {
        value: s,
        carry: (a < s) as u64,
    }
}

// a - b - borrow
fn sub_borrow(a: u64, b: u64, borrow: u64) -> Half
    requires { borrow ≤ 1 }
    ensures { (result.value + (b + borrow) ≡ a + result.carry * 2 ^ 64) × (result.carry ≤ 1) }
{
    let s = sub_half(a, b);
    let t = sub_half(s.value, borrow);
    Half {
        value: t.value,
        carry: s.carry + t.carry,
    }
}

// The sum of all bits, modulo 2^128.
fn add_bits(a: I128, b: I128) -> I128
    ensures { Wraps (bits result) (bits a + bits b) }
{
    let low = add_half(a.low, b.low);
    let high = add_carry(a.high, b.high, low.carry);
    I128 {
        high: high.value,
        low: low.value,
    }
}

// The difference of all bits, modulo 2^128: the number that b added to wraps back to a.
fn sub_bits(a: I128, b: I128) -> I128
    ensures { Wraps (bits a) (bits result + bits b) }
{
    let low = sub_half(a.low, b.low);
    let high = sub_borrow(a.high, b.high, low.carry);
    I128 {
        high: high.value,
        low: low.value,
    }
}

// A sum of two numbers overflows where both have one sign and the sum has the other.
fn overflows(a: I128, b: I128, sum: I128) -> bool
    ensures { result ≡ overflow (negative (value_of a)) (negative (value_of b)) (negative (value_of sum)) }
{
    let sign = a.is_negative();
    sign == b.is_negative() && sign != sum.is_negative()
}

impl I128 {
    pub fn checked_add(self, other: I128) -> Option<I128>
        ensures { option_of result ≡ narrow (value_of self +ℤ value_of other) }
    {
        let sum = add_bits(self, other);
        if overflows(self, other, sum) {
            None
        } else {
            Some(sum)
        }
    }

    // self is the difference plus other, so the difference fits where that sum does not overflow.
    pub fn checked_sub(self, other: I128) -> Option<I128>
        ensures { option_of result ≡ narrow (value_of self -ℤ value_of other) }
    {
        let difference = sub_bits(self, other);
        if overflows(difference, other, self) {
            None
        } else {
            Some(difference)
        }
    }

    pub(crate) fn checked_neg(self) -> Option<I128>
        ensures { option_of result ≡ narrow (neg_ℤ (value_of self)) }
    {
        I128::ZERO.checked_sub(self)
    }
}
