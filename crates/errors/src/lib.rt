// Refusals (src/errors.rs): numbers and places only, as document 01 gives them.
#![tactic(auto)]

mod reasons;

ghost use Rattle.std.specs.Prelude.{◌≡◌};
ghost use Rattle.definition.specs.Basics.{refused, refusal_of};
ghost use Rattle.errors.specs.Refused.{refused_as, result_of, number_in};

pub use reasons::{Reason, TokenReason};

// A number of document 01 and two places: concatenation and component, 0 where there is none.
#[derive(Clone, Copy, Debug, PartialEq, Eq)]
pub struct Refusal {
    pub number: u32,
    pub concatenation: u32,
    pub component: u32,
}

// A refusal with the places 0 and 0. By its number, which a caller may have read from a file.
pub fn refuse(number: u32) -> Refusal
    ensures { refused_as {A = Unit} result ≡ refused (refusal_of number 0 0) }
{
    Refusal {
        number,
        concatenation: 0,
        component: 0,
    }
}

// A check's answer as one number, as the C interface gives it: 0, or the refusal's.
pub fn number_of(checked: Result<(), Refusal>) -> u32
    ensures { result ≡ number_in (result_of checked) }
{
    match checked {
        Ok(()) => 0,
        Err(refusal) => refusal.number,
    }
}
