// The head, and the blocks of the concatenations: flags, aligns, and 0 for no width are the answer's own numbers (document 01).
ghost use Rattle.std.specs.Prelude.{◌≡◌, ℕ, ◌+◌, ◌*◌, ◌≤◌, List, length};
ghost use Rattle.std.proofs.lemmas.List.Edits.{sets};
ghost use Rattle.definition.specs.Basics.{sum};
ghost use Rattle.definition.specs.Prelude.{map};
ghost use Rattle.definition.specs.Answer.{flag as flag_of, concatenation_bytes};
ghost use Rattle.definition.specs.Concatenation as Def;
ghost use Rattle.definition.specs.Concatenation.{align_number, merged, merge};
ghost use Rattle.stages.specs.component.Start.{is_given};
ghost use Rattle.stages.specs.concatenation.alignment.Align.{align_of};
ghost use Rattle.stages.specs.concatenation.Heads.{HeadIs, HeadsAre};
ghost use Rattle.stages.specs.answer.Blocks.{head_of, width_number, start_part};
ghost use Rattle.stages.specs.answer.Stage5.{PutHeadsIs};

use super::area::{put_u32, put_u64};
use super::blocks::put_text;
use crate::component::Start;
use crate::concatenation::alignment::align_number;
use crate::concatenation::{Concatenation, Overall};
use crate::token_tree::no_text;

// A flag's number, where it is set. `n * u32::from(b)` would be no plainer.
fn flag(b: bool, n: u32) -> u32
    ensures { (result ≡ flag_of b n) × (result ≤ n) }
{
    if b { n } else { 0 }
}

// A common width, 0 for none.
fn width_number(width: Option<usize>) -> u64
    ensures { result ≡ width_number width }
{
    width.unwrap_or(0) as u64
}

// 20 bytes.
fn put_concatenation(area: &mut [u8], at: usize, x: Concatenation)
    requires { at + 20 ≤ length area.old }
    ensures { (image : List ℕ) (kept : List _) (d : Def.Concatenation) → HeadIs image kept x d
        → area.new ≡ sets area.old at (concatenation_bytes (merged d)) }
{
    let r = x.running;
    put_u32(area, at, x.merged);
    put_u32(area, at + 4, align_number(r.align));
    put_u32(area, at + 8, flag(r.deterministic, 1) + flag(r.nonzero, 2));
    put_u64(area, at + 12, width_number(r.width));
}

pub(crate) fn put_concatenations(area: &mut [u8], heads: &[Concatenation])
    requires { (length heads.now ≤ 16) × (32 + 20 * length heads.now ≤ length area.old) }
    ensures { PutHeadsIs heads.now area.old area.new }
{
    for (i, x) in heads.iter().enumerate() {
        put_concatenation(area, limits::HEAD_SIZE + limits::CONCATENATION_SIZE * i, *x);
    }
}

// The number of all components after merging.
pub(crate) fn merged_of(heads: &[Concatenation]) -> usize
    requires { length heads.now ≤ 16 }
    ensures { (image : List ℕ) (kept : List _) (ds : List Def.Concatenation) → HeadsAre image kept heads.now ds
        → result ≡ sum (map (λ (d : Def.Concatenation). length (merge d.comps)) ds) }
{
    let mut m = 0;
    for x in heads {
        m += x.merged as usize;
    }
    m
}

// 1 deterministic, 2 nonzero, 4 starting value given.
fn flags_of(o: Overall, given: bool) -> u32
    ensures { result ≡ flag_of o.deterministic 1 + flag_of o.nonzero 2 + flag_of given 4 }
{
    flag(o.deterministic, 1) + flag(o.nonzero, 2) + flag(given, 4)
}

// The head's 32 bytes. (The text by a match: tried `map_or`, and the proof did not close.)
pub(crate) fn put_head(area: &mut [u8], c: u32, m: u32, o: Overall, s: Option<Start>)
    requires { 32 ≤ length area.old }
    ensures { area.new ≡ sets area.old 0 (head_of c m (width_number o.width)
        (flag_of o.deterministic 1 + flag_of o.nonzero 2 + flag_of (is_given s) 4) (align_number (align_of o.align)) (start_part s)) }
{
    let text = match s {
        Some(start) => start.s,
        None => no_text(),
    };
    put_u32(area, 0, c);
    put_u32(area, 4, m);
    put_u64(area, 8, width_number(o.width));
    put_u32(area, 16, flags_of(o, s.is_some()));
    put_u32(area, 20, align_number(o.align));
    put_text(area, 24, text);
}
