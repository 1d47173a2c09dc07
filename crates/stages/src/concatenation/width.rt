// The sum of widths that stage 3 runs: a number of 64 bits, and a width of 128 bits without its sign (src/concatenation.rs).
ghost use Rattle.std.specs.Prelude.{◌≡◌, ◌+◌, unsigned_abs};
ghost use Rattle.numbers.specs.Value.{value_of, option_usize};
ghost use Rattle.stages.specs.concatenation.width.Fitting.{fitting};

use numbers::I128;

// The number without its sign, where it fits 64 bits: by halves, as document 01 has numbers of 128 bits. (After stage 2 no known width is
// negative.)
fn magnitude(x: I128) -> Option<usize>
    ensures { option_usize result ≡ fitting (unsigned_abs (value_of x)) }
{
    if x.high == 0 {
        return Some(x.low as usize);
    }
    if x.high < u64::MAX {
        return None;
    }
    if x.low == 0 {
        return None;
    }
    Some((u64::MAX - x.low + 1) as usize)
}

// A width added to the sum so far.
pub(crate) fn sum(n: usize, x: I128) -> Option<usize>
    ensures { option_usize result ≡ fitting (n + unsigned_abs (value_of x)) }
{
    n.checked_add(magnitude(x)?)
}
