// A number of 1 to 18 decimal digits without a sign, as nearly every number of a layout is.
ghost use Rattle.std.specs.Prelude.{◌≡◌, ◌^◌, ◌<◌, ◌≤◌, length, IfSome, pos};
ghost use Rattle.std.proofs.Math.Option.{some};
ghost use Rattle.definition.specs.Numbers.{digits_from, try_parse};

// The digits' value, where every byte is a digit.
fn value(s: &[u8]) -> Option<u64>
    requires { length s.now ≤ 18 }
    ensures { IfSome result (λ n. (n < 10 ^ 18) × (digits_from 10 0 s.now ≡ some n)) }
{
    let mut n: u64 = 0;
    for &b in s {
        n = n * 10 + (b as char).to_digit(10)? as u64;
    }
    Some(n)
}

// The number, where it is as short and has no prefix: "if more than two characters remain and the first is `0`, the second must be `x`,
// `o` or `b`".
pub(crate) fn read(s: &[u8]) -> Option<u64>
    ensures { IfSome result (λ n. some (pos n) ≡ try_parse s.now) }
{
    if s.is_empty() || 18 < s.len() {
        return None;
    }
    if 2 < s.len() && s[0] == b'0' {
        return None;
    }
    value(s)
}
