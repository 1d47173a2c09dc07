// The prepared image and its tables (src/token_tree.rs, whose arena the image replaces). Nothing is asked of a caller: a byte that
// is missing counts as 0. So a place is a number beside the bytes here and in `words` and `writer`, and no part of them: it may lie past
// the end.
ghost use Rattle.std.specs.Prelude.{◌≡◌, ◌+◌, ◌^◌, ◌<◌, get_or};
ghost use Rattle.definition.specs.Image.{u32_at, counts, tables, tables_for};
ghost use Rattle.image.specs.token_tree.Tables.{counts_of, tables_of};

pub use crate::record_rules::{Delimiter, delimiter_of};
use crate::words::four_at;
pub use crate::words::{byte_at, join4};

// C, N, R, T and B of document 01's header.
#[derive(Clone, Copy)]
pub struct Counts {
    pub c: u32,
    pub n: u32,
    pub r: u32,
    pub t: u32,
    pub b: u32,
}

// Where the five tables begin, and where the last ends.
#[derive(Clone, Copy)]
pub struct Tables {
    pub concatenations: usize,
    pub components: usize,
    pub records: usize,
    pub text: usize,
    pub literals: usize,
    pub stop: usize,
}

// The byte n places on, whatever the two numbers: a sum too large for its type is past every slice, and so is what it saturates to.
pub fn byte_on(s: &[u8], at: usize, n: usize) -> u8
    ensures { result ≡ get_or s.now (at + n) 0 }
{
    byte_at(s, at.saturating_add(n))
}

// Four bytes of which some may be missing.
fn short_at(s: &[u8], at: usize) -> u32
    ensures { result ≡ u32_at s.now at }
{
    join4(
        byte_at(s, at),
        byte_on(s, at, 1),
        byte_on(s, at, 2),
        byte_on(s, at, 3),
    )
}

// Two tests, as at + 4 could be too large; past them one load.
pub fn u32_at(s: &[u8], at: usize) -> u32
    ensures { result ≡ u32_at s.now at }
{
    if s.len() < 4 || s.len() - 4 < at {
        return short_at(s, at);
    }
    four_at(s, at)
}

// Where the image's text begins. With the bound no sum after it can wrap.
pub fn text_place(image: &[u8]) -> usize
    ensures { (result ≡ (tables image.now).text) × (result < 2 ^ 40) }
{
    tables_for(counts_at(image)).text
}

// The header's counts.
pub(crate) fn counts_at(image: &[u8]) -> Counts
    ensures { counts_of result ≡ counts image.now }
{
    Counts {
        c: u32_at(image, 0),
        n: u32_at(image, 4),
        r: u32_at(image, 8),
        t: u32_at(image, 12),
        b: u32_at(image, 16),
    }
}

pub(crate) fn tables_for(h: Counts) -> Tables
    ensures { tables_of result ≡ tables_for h.c h.n h.r h.t h.b }
{
    let components = 40 + 4 * (h.c as usize);
    let records = components + 8 * (h.n as usize);
    let text = records + 12 * (h.r as usize);
    let literals = text + (h.t as usize);
    Tables {
        concatenations: 40,
        components,
        records,
        text,
        literals,
        stop: literals + (h.b as usize),
    }
}
