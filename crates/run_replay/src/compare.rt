// A run over an area filled with a known pattern, compared with the listing that the Rust gave.
ghost use Rattle.std.specs.Prelude.{◌≡◌, true, length};
ghost use Rattle.listing.specs.Outcomes.{listing_of};
ghost use Rattle.listing_length.specs.run.Listing.{longest_listing};

use crate::counts::Came;
use errors::Refusal;
use streams::same_front;

// Some bytes more than any image asks for: they are never lent. No heap: each buffer is an array of the greatest length.
const AREA: usize = 27100;

// The pattern's byte at a place. The remainder first: an `as` may lose nothing.
fn pattern(i: usize) -> u8 {
    (i % 256) as u8
}

// Whether the area is as before from a place on: slices, which are compared some bytes at once.
fn untouched(area: &[u8], before: &[u8], from: usize) -> bool {
    area.get(from..) == before.get(from..)
}

// No listing has more bytes than these. layout has the same line: streams, which the programs share, would then stand on listing_length.
fn listing_buffer() -> [u8; limits::MAX_LISTING]
    ensures { longest_listing ≡ length result }
{
    [0; limits::MAX_LISTING]
}

// Whether the listing of the outcome is the one told.
fn same_listing(image: &[u8], area: &[u8], outcome: Result<usize, Refusal>, told: &[u8]) -> bool
    ensures { result ≡ true → listing_of image.now area.now outcome ≡ told.now }
{
    let mut out = listing_buffer();
    listing::write_listing(image, area, outcome, &mut out).is_some_and(|n| same_front(
        &out, n, told,
    ))
}

// What an outcome came to, where the area holds the pattern beyond the answer, and everywhere after a refusal.
fn kept(area: &[u8], before: &[u8], outcome: Result<usize, Refusal>) -> Option<Came> {
    let (came, written) = match outcome {
        Ok(n) => (Came::Accepted, n),
        Err(refusal) => (Came::Refused(refusal.number), 0),
    };
    untouched(area, before, written).then_some(came)
}

// Runs an input, one mode byte and an image, over so many bytes of the area: what it came to, and the starting value in force. None where
// the listing is not the one told, or the area not as it must be.
pub(crate) fn judged<'a>(
    input: &'a [u8],
    default: &'a [u8],
    lent: usize,
    told: &[u8],
) -> Option<(Came, &'a [u8])> {
    let (mode, image) = input.split_first()?;
    let before: [u8; AREA] = std::array::from_fn(pattern);
    let mut area = before;
    let ran = stages::run::run(image, *mode as u32, default, area.get_mut(..lent)?);
    if !same_listing(image, &area, ran.outcome, told) {
        return None;
    }
    let came = kept(&area, &before, ran.outcome)?;
    Some((came, stages::in_force::value(image, default, ran.start)))
}
