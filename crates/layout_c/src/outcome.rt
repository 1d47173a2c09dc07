// The outcome of a run as one number, for callers in C. No From: neither Result nor Refusal is this crate's.
ghost use Rattle.std.specs.Prelude.{◌≡◌, ◌%◌, ◌^◌};
ghost use Rattle.errors.specs.Refused.{refused_as, result_of};
ghost use Rattle.layout_c.specs.outcome.Code.{code_of};

use errors::Refusal;

// A refusal as one number.
fn code(r: Refusal) -> u64
    ensures { result ≡ code_of (refused_as r) % 2 ^ 64 }
{
    ((r.number as u64) * 0x1_0000_0000).wrapping_add(
        (r.concatenation as u64) * 0x1_0000 + (r.component as u64),
    )
}

// The answer's length, or a refusal. The remainder is the number itself for what a run comes to.
pub(crate) fn coded(outcome: Result<usize, Refusal>) -> u64
    ensures { result ≡ code_of (result_of outcome) % 2 ^ 64 }
{
    match outcome {
        Ok(n) => n as u64,
        Err(r) => code(r),
    }
}
