// The reasons for a refusal, in the documents' order, each with its number. Two enums, each with its `number` and `From`: a trait over
// both would be longer.
ghost use Rattle.std.specs.Prelude.{◌≡◌};
ghost use Rattle.errors.specs.Reasons.{number, token_number, refusal};

use crate::{Refusal, refuse};

// Document 01, "How each operation refuses".
#[derive(Clone, Copy, Debug, PartialEq, Eq)]
pub enum Reason {
    ModeAbove2 = 1,
    ShortImage = 2,
    BadCount = 3,
    BadOffset = 4,
    BadEntry = 5,
    BadRecord = 6,
    TooDeep = 7,
    ShortArea = 8,
    EmptyAfterColon = 10,
    NothingBeforeRange = 11,
    EmptyRange = 12,
    SecondDots = 13,
    ThreeDots = 14,
    NotOneToken = 15,
    BoundOverflow = 16,
    NoLiteral = 17,
    Overflow = 20,
    NegativeBound = 21,
    Reversed = 22,
    ZeroWidth = 23,
    StartAboveWidth = 24,
    EndAboveWidth = 25,
    RangeAboveWidth = 26,
    EndZero = 27,
    OpenStart = 28,
    LiteralInSink = 30,
    LoneFillerSink = 31,
    SecondFiller = 32,
    ZeroTotalWidth = 33,
    SumOverflow = 34,
    FillerWithoutStart = 40,
    UnequalWidths = 41,
    NoCommonWidth = 42,
    OnlySource = 43,
    MiddleFiller = 44,
    OppositeFillers = 45,
}

// Document 02, L2: tokens to an image.
#[derive(Clone, Copy, Debug, PartialEq, Eq)]
pub enum TokenReason {
    BadToken = 50,
    EmptyComponent = 51,
    OverLimits = 52,
    ShortImageArea = 53,
}

impl Reason {
    pub fn number(self) -> u32
        ensures { result ≡ number self }
    {
        self as u32
    }

    // Its refusal at a concatenation and a component.
    pub fn at(self, concatenation: u32, component: u32) -> Refusal
        ensures { result ≡ refusal (number self) concatenation component }
    {
        Refusal {
            number: self.number(),
            concatenation,
            component,
        }
    }
}

impl TokenReason {
    pub fn number(self) -> u32
        ensures { result ≡ token_number self }
    {
        self as u32
    }
}

// The refusal for a reason, with the places 0 and 0.
impl From<Reason> for Refusal {
    ghost from_gives = { λ reason refusal_made. refusal_made ≡ refusal (number reason) 0 0 };

    fn from(reason: Reason) -> Refusal {
        refuse(reason.number())
    }
}

impl From<TokenReason> for Refusal {
    ghost from_gives = { λ reason refusal_made. refusal_made ≡ refusal (token_number reason) 0 0 };

    fn from(reason: TokenReason) -> Refusal {
        refuse(reason.number())
    }
}
