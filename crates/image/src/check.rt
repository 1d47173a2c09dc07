// Document 01's image check: 2 to 7 in the document's order, for every byte string. After 2 to 4 every table lies in the image, and
// numbers are read directly, at document 01's places: an image is bytes, and has no structs.
mod entries;
mod records;

ghost use Rattle.std.specs.Prelude.{◌≡◌, ◌+◌, ◌≤◌, eqb, length};
ghost use Rattle.definition.specs.Image.{u32_at};
ghost use Rattle.definition.specs.Check.{check_image};
ghost use Rattle.errors.specs.Reasoned.{reasoned};
ghost use Rattle.errors.specs.Refused.{result_of};
ghost use Rattle.image.specs.token_tree.Tables.{counts_of, tables_of};
ghost use Rattle.image.specs.check.Parts.{counts_in, offsets_in};

use crate::record_rules::between;
use crate::token_tree::{Counts, Tables, counts_at};
use crate::words::four_at;
use errors::{Reason, Refusal};

fn counts_right(h: Counts) -> bool
    ensures { result ≡ counts_in (counts_of h) }
{
    between(1, limits::CONCATENATIONS, h.c)
        & between(1, limits::COMPONENTS, h.n)
        & between(1, limits::RECORDS, h.r)
        & between(1, limits::TEXT, h.t)
        & (h.b <= limits::LITERAL_BYTES)
}

fn number_is(image: &[u8], at: usize, n: usize) -> bool
    requires { at + 4 ≤ length image.now }
    ensures { result ≡ eqb (u32_at image.now at) n }
{
    (four_at(image, at) as usize) == n
}

fn offsets_right(image: &[u8], at: Tables) -> bool
    requires { 40 ≤ length image.now }
    ensures { result ≡ offsets_in image.now (tables_of at) }
{
    number_is(image, 20, at.concatenations)
        & number_is(image, 24, at.components)
        & number_is(image, 28, at.records)
        & number_is(image, 32, at.text)
        & number_is(image, 36, at.literals)
        & (image.len() == at.stop)
}

fn checked(image: &[u8]) -> Result<(), Reason>
    ensures { reasoned result ≡ check_image image.now }
{
    if image.len() < 40 {
        return Err(Reason::ShortImage);
    }
    let h = counts_at(image);
    if !counts_right(h) {
        return Err(Reason::BadCount);
    }
    let at = crate::token_tree::tables_for(h);
    if !offsets_right(image, at) {
        return Err(Reason::BadOffset);
    }
    if !entries::entries_right(image, h, at) {
        return Err(Reason::BadEntry);
    }
    records::records_check(image, h, at)
}

// Document 01's whole image check.
pub fn check_image(image: &[u8]) -> Result<(), Refusal>
    ensures { result_of result ≡ check_image image.now }
{
    Ok(checked(image)?)
}
