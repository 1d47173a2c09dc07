// The starting value in force (document 02, L1): the image's if the line has a prefix, even an empty one, else the lent default.
ghost use Rattle.std.specs.Prelude.{◌≡◌};
ghost use Rattle.errors.specs.Refused.{result_of};
ghost use Rattle.stages.specs.in_force.InForce.{part_at, part_in, told_in, told_by};

use errors::Refusal;
use image::token_tree::{text_place, u32_at};

// Where it stands: a place and a length in the image, or the whole default; nothing after a refusal. Three ways with names of their own,
// and numbers for a place, as the C interface tells them.
#[derive(Clone, Copy, Debug, PartialEq, Eq)]
pub enum InForce {
    Nothing,
    Image(usize, usize),
    Default,
}

// What an answer's head says of it: flag 4 of its number of flags (document 01), and the text's start and length.
fn told_in(image: &[u8], answer: &[u8]) -> InForce
    ensures { result ≡ told_in image.now answer.now }
{
    let flags = u32_at(answer, 16);
    let start = u32_at(answer, 24) as usize;
    let length = u32_at(answer, 28) as usize;
    let own = flags / 4 % 2 == 1;
    if own {
        return InForce::Image(text_place(image) + start, length);
    }
    InForce::Default
}

pub(crate) fn told_by(image: &[u8], answer: &[u8], outcome: Result<usize, Refusal>) -> InForce
    ensures { result ≡ told_by image.now answer.now (result_of outcome) }
{
    match outcome {
        Ok(_) => told_in(image, answer),
        Err(_) => InForce::Nothing,
    }
}

// The part of an image from a place on; none where it does not lie in the image.
fn image_part<'a>(image: &'a [u8], at: usize, length: usize) -> &'a [u8]
    ensures { result.now ≡ part_at image.now at length }
{
    match image.get(at..) {
        Some(rest) if length <= rest.len() => &rest[..length],
        _ => &image[..0],
    }
}

// The starting value in force, handed back as a part of the image or of the default.
pub fn value<'a>(image: &'a [u8], default: &'a [u8], f: InForce) -> &'a [u8]
    ensures { result.now ≡ part_in image.now default.now f }
{
    match f {
        InForce::Nothing => &image[..0],
        InForce::Image(at, length) => image_part(image, at, length),
        InForce::Default => default,
    }
}
