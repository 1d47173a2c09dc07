// The entries of the files of data/: numbers of 4 bytes, and then the parts whose lengths they are. What an entry came to is None where it
// is not as told. The heads' numbers are read at their places, as they are bytes of a file; how many there are, and so each call, differs.
use crate::compare::judged;
use crate::counts::Came;
use image::token_tree::u32_at;
use std::io::Read;
use streams::{NoEntry, read_head, read_part};

// What a run without a default came to.
fn outcome(input: &[u8], lent: usize, told: &[u8]) -> Option<Came> {
    let (came, _) = judged(input, b"", lent, told)?;
    Some(came)
}

// Of `runs`: the lengths of an input, of the area and of a listing; the input and the listing follow.
pub(crate) fn run<F: Read>(from: &mut F, buf: &mut [u8]) -> Result<Option<Came>, NoEntry> {
    let head: [u8; 12] = read_head(from)?;
    let input = u32_at(&head, 0) as usize;
    let lent = u32_at(&head, 4) as usize;
    let told = u32_at(&head, 8) as usize;
    let parts = read_part(from, buf, input + told)?;
    let (input, told) = parts.split_at(input);
    Ok(outcome(input, lent, told))
}

// An input and the same with a literal cut in pieces, which both have the listing told. The area is long enough for any image.
fn cut_pair(whole: &[u8], cut: &[u8], told: &[u8]) -> Option<Came> {
    let both = accepted(whole, told) && accepted(cut, told);
    both.then_some(Came::CutPair)
}

fn accepted(input: &[u8], told: &[u8]) -> bool {
    matches!(outcome(input, limits::ANY_AREA, told), Some(Came::Accepted))
}

// Of `cuts`: the lengths of an input, of the same with a literal cut and of the listing of both; these three follow.
pub(crate) fn cut<F: Read>(from: &mut F, buf: &mut [u8]) -> Result<Option<Came>, NoEntry> {
    let head: [u8; 12] = read_head(from)?;
    let whole = u32_at(&head, 0) as usize;
    let cut = u32_at(&head, 4) as usize;
    let told = u32_at(&head, 8) as usize;
    let parts = read_part(from, buf, whole + cut + told)?;
    let (whole, rest) = parts.split_at(whole);
    let (cut, told) = rest.split_at(cut);
    Ok(cut_pair(whole, cut, told))
}

// A run under a default, whose starting value in force is also told.
fn under_default(input: &[u8], default: &[u8], told: &[u8], value: &[u8]) -> Option<Came> {
    let (_, in_force) = judged(input, default, limits::ANY_AREA, told)?;
    (in_force == value).then_some(Came::UnderDefault)
}

// Of `defaults`: the lengths of an input, of a default, of a listing and of the starting value in force; these four follow.
pub(crate) fn default<F: Read>(from: &mut F, buf: &mut [u8]) -> Result<Option<Came>, NoEntry> {
    let head: [u8; 16] = read_head(from)?;
    let input = u32_at(&head, 0) as usize;
    let default = u32_at(&head, 4) as usize;
    let told = u32_at(&head, 8) as usize;
    let value = u32_at(&head, 12) as usize;
    let parts = read_part(from, buf, input + default + told + value)?;
    let (input, rest) = parts.split_at(input);
    let (default, rest) = rest.split_at(default);
    let (told, value) = rest.split_at(told);
    Ok(under_default(input, default, told, value))
}
