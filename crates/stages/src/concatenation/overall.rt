// Stage 4: what the concatenations say together, one after the other.
ghost use Rattle.std.specs.Prelude.{◌≡◌, List, ◌∷◌};
ghost use Rattle.definition.specs.Concatenation.{Concatenation};
ghost use Rattle.definition.specs.Overall.{join_width, overall_start};
ghost use Rattle.numbers.specs.Value.{option_usize};
ghost use Rattle.stages.specs.concatenation.Overall.{overall_of, answer_of, HasSummary, joined as joined_of};

use super::alignment::{FillerAlign, join_align};
use super::running_check::Running;
use errors::{Reason, Refusal};

// The answer's head; `known` is the first concatenation of known width.
#[derive(Clone, Copy)]
pub struct Overall {
    pub align: FillerAlign,
    pub width: Option<usize>,
    pub known: u32,
    pub deterministic: bool,
    pub nonzero: bool,
}

impl Overall {
    // The loop starts with what concatenation 0 says, but for Z.
    pub(crate) fn start(s: Running) -> Self
        ensures { (c : Concatenation) (l : List Concatenation) → HasSummary c s → overall_of result ≡ overall_start (c ∷ l) }
    {
        Overall {
            align: s.align,
            width: s.width,
            known: 0,
            deterministic: s.deterministic,
            nonzero: false,
        }
    }

    // What concatenation s adds, where the width is known from concatenation `known`, or not at all.
    fn joined(self, s: Running, known: u32, width: Option<usize>) -> Self
        ensures { (c : Concatenation) → HasSummary c s → overall_of result ≡ joined_of c known (option_usize width) (overall_of self) }
    {
        Overall {
            align: join_align(self.align, s.align),
            width,
            known,
            deterministic: self.deterministic | s.deterministic,
            nonzero: self.nonzero | s.nonzero,
        }
    }

    // 41, of concatenation i.
    pub(crate) fn join_width(self, i: u32, s: Running) -> Result<Overall, Refusal>
        ensures { (c : Concatenation) → HasSummary c s → answer_of result ≡ join_width i c (overall_of self) }
    {
        match (s.width, self.width) {
            (None, _) => Ok(self.joined(s, self.known, self.width)),
            (Some(_), None) => Ok(self.joined(s, i, s.width)),
            (Some(w), Some(v)) => {
                if w != v {
                    return Err(Reason::UnequalWidths.at(self.known, i));
                }
                Ok(self.joined(s, self.known, self.width))
            }
        }
    }
}
