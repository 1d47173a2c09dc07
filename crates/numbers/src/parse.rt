// Reading a number: i128_try_parse of src/ranges.rs.
pub(crate) mod halves;
pub(crate) mod short;

ghost use Rattle.std.specs.Prelude.{◌≡◌, ◌≤◌, IfSome};
ghost use Rattle.definition.specs.Numbers.{digits, inner, radix_of, unsigned_parse, try_parse};
ghost use Rattle.numbers.specs.Value.{option_of, option_usize};
ghost use Rattle.numbers.specs.digit.Worth.{Worths};
ghost use Rattle.numbers.specs.parse.Halves.{number_of};
ghost use Rattle.numbers.specs.parse.Parts.{capped_option};

use crate::I128;
use crate::digit::digit_in;
use crate::parse::halves::U128;

// The digits' value, where there is one and it fits 128 bits, by the table of worths that is lent.
fn magnitude_by(worths: &[u8; 256], radix: u64, text: &[u8]) -> Option<U128>
    requires { (1 ≤ radix) × (radix ≤ 16) × Worths worths.now }
    ensures { number_of result ≡ capped_option (digits radix text.now) }
{
    if text.is_empty() {
        return None;
    }
    let mut v = U128::ZERO;
    for &b in text {
        let d = digit_in(worths, radix, b)?;
        v = v.step(radix, d)?;
    }
    Some(v)
}

// The table is built where it is named: once for a number, and not for each digit.
fn magnitude(radix: u64, text: &[u8]) -> Option<U128>
    requires { (1 ≤ radix) × (radix ≤ 16) }
    ensures { number_of result ≡ capped_option (digits radix text.now) }
{
    let worths = crate::digit::WORTH;
    magnitude_by(&worths, radix, text)
}

// i128::from_str_radix: one sign of its own, then one digit or more.
fn from_str_radix(radix: u64, s: &[u8]) -> Option<I128>
    requires { (1 ≤ radix) × (radix ≤ 16) }
    ensures { option_of result ≡ inner radix s.now }
{
    match s {
        [b'-', rest @ ..] => magnitude(radix, rest)?.negative(),
        [b'+', rest @ ..] => magnitude(radix, rest)?.positive(),
        _ => magnitude(radix, s)?.positive(),
    }
}

// The radix that x, o and b stand for.
fn radix_of(b: u8) -> Option<u64>
    ensures value { option_usize result ≡ radix_of b }
    ensures range { IfSome result (λ radix. (1 ≤ radix) × (radix ≤ 16)) }
{
    match b {
        b'x' => Some(16),
        b'o' => Some(8),
        b'b' => Some(2),
        _ => None,
    }
}

// A number without the outer minus: by its prefix, or decimal.
fn unsigned_parse(s: &[u8]) -> Option<I128>
    ensures { option_of result ≡ unsigned_parse s.now }
{
    if s.len() <= 2 || s[0] != b'0' {
        return from_str_radix(10, s);
    }
    from_str_radix(radix_of(s[1])?, &s[2..])
}

// A number with its outer minus, of any form.
fn any_parse(s: &[u8]) -> Option<I128>
    ensures { option_of result ≡ try_parse s.now }
{
    match s {
        [] => None,
        [b'-', rest @ ..] => unsigned_parse(rest)?.checked_neg(),
        _ => unsigned_parse(s),
    }
}

// Most numbers are short decimals, and need no table and no halves.
pub fn i128_try_parse(s: &[u8]) -> Option<I128>
    ensures { option_of result ≡ try_parse s.now }
{
    match short::read(s) {
        Some(n) => Some(I128::from(n)),
        None => any_parse(s),
    }
}
