// The listing of an outcome, written into a lent buffer.
#![tactic(auto)]

mod answer;
mod decimal;
mod fields;
mod groups;
mod heads;
mod refusal;
mod text;
mod words;
mod writer;

ghost use Rattle.std.specs.Prelude.{◌≡◌, length, take};
ghost use Rattle.definition.specs.Answer.{read_answer};
ghost use Rattle.definition.specs.Listing.{answer_lines};
ghost use Rattle.listing.specs.writer.Writes.{Writes};
ghost use Rattle.listing.specs.Outcomes.{listing_of, filled, written_as};

use crate::answer::Answer;
use crate::writer::Writer;
use errors::Refusal;

impl Writer<'_> {
    // The lines of an answer.
    fn put_answer(&mut self, a: &Answer)
        ensures { Writes self.old (answer_lines (read_answer a.now.image.now a.now.bytes.now)) self.new }
    {
        self.put_head(a);
        self.put_groups(a);
    }

    // The listing; an answer is the area's first bytes.
    fn put_listing(&mut self, image: &[u8], area: &[u8], outcome: Result<usize, Refusal>)
        ensures { Writes self.old (listing_of image.now area.now outcome) self.new }
    {
        match outcome {
            Ok(n) => {
                let bytes = &area[..n.min(area.len())];
                self.put_answer(&Answer { image, bytes });
            }
            Err(r) => self.put_refusal(r),
        }
    }
}

// The listing's length, or None where it is longer than the buffer. The buffer's bytes are the listing's as far as they reach, and
// those after it are untouched.
pub fn write_listing(
    image: &[u8],
    area: &[u8],
    outcome: Result<usize, Refusal>,
    out: &mut [u8],
) -> Option<usize>
    ensures { let l = listing_of image.now area.now outcome in
        (out.new ≡ filled out.old l) × (result ≡ written_as (length l) (length out.old)) }
{
    let mut w = Writer { out, at: 0 };
    w.put_listing(image, area, outcome);
    if w.at <= w.out.len() {
        Some(w.at)
    } else {
        None
    }
}
