// The layout editor's flat list of tokens, written as an image (document 02, L2; src/token_stream.rs).
#![tactic(auto)]

mod check;
mod counts;
mod list;
mod write;

ghost use Rattle.std.specs.Prelude.{◌≡◌, ◌+◌, ◌*◌};
ghost use Rattle.definition.specs.Tokens.{tokens_on};
ghost use Rattle.errors.specs.Refused.{result_of};
ghost use Rattle.token_stream.specs.Admitted.{AdmittedIs};

use crate::list::TokenList;
use errors::{Refusal, TokenReason};
use image::token_tree::Counts;

// How long an image with these counts and no literal bytes is, by the sizes of document 01's rows. image's tables_for has the same sum; it is
// no public function, and a sum is plainer than a promise more.
fn size_of(h: Counts) -> u64
    ensures { result ≡ 40 + 4 * h.c + 8 * h.n + 12 * h.r + h.t }
{
    40 + 4 * (h.c as u64) + 8 * (h.n as u64) + 12 * (h.r as u64) + (h.t as u64)
}

impl TokenList<'_> {
    // 50 to 53, each over the whole list before the next.
    fn admitted(&self, area: usize) -> Result<Counts, TokenReason>
        ensures { AdmittedIs self.now.list.now self.now.text.now area result }
    {
        if !self.tokens_right() {
            return Err(TokenReason::BadToken);
        }
        if !self.none_empty() {
            return Err(TokenReason::EmptyComponent);
        }
        let h = self.counts()?;
        if (area as u64) < size_of(h) {
            return Err(TokenReason::ShortImageArea);
        }
        Ok(h)
    }
}

// The list as an image, from the area's first byte on: the image's length. Refused: the area is as lent.
pub fn token_stream_to_image(list: &[u8], text: &[u8], area: &mut [u8]) -> Result<usize, Refusal>
    ensures { (result_of result, area.new) ≡ tokens_on list.now text.now area.old }
{
    let tokens = TokenList { list, text };
    let h = tokens.admitted(area.len())?;
    Ok(tokens.put_image(area, h))
}
