// 6 and 7: records one by one, a group by what stands inside it.
ghost use Rattle.std.specs.Prelude.{◌≡◌, ℕ, ◌+◌, ◌*◌, ◌^◌, ◌≤◌, ◌<◌, length, get_or};
ghost use Rattle.definition.specs.Basics.{sum, tab};
ghost use Rattle.definition.specs.Image.{tables, record_count};
ghost use Rattle.definition.specs.Check.{check_components};
ghost use Rattle.errors.specs.Reasoned.{reasoned};
ghost use Rattle.image.specs.token_tree.Tables.{stop_in, entry_in};
ghost use Rattle.image.specs.check.Parts.{Laid, Fits, entry_from, places_of, Says, records};

use crate::record_rules::Numbers;
use crate::token_tree::{Counts, Tables};
use crate::words::four_at;
use errors::Reason;

// Where the records and their texts stand, how many records there are and where the text stops.
#[derive(Clone, Copy)]
pub struct Places {
    pub records: usize,
    pub text: usize,
    pub count: u32,
    pub t: u32,
}

// Where the text of record k stops: the next start, the last at t.
fn stop_at(image: &[u8], p: Places, k: u32) -> u32
    requires { (p.records + 12 * p.count ≤ length image.now) × (k < p.count) }
    ensures { result ≡ stop_in image.now (p.records + 12 * (k + 1) + 4) p.count p.t k }
{
    if (k as usize) + 1 == (p.count as usize) {
        return p.t;
    }
    four_at(image, p.records + 12 * (k as usize) + 16)
}

fn numbers_at(image: &[u8], p: Places, k: u32) -> Numbers
    requires { (p.records + 12 * p.count ≤ length image.now) × (k < p.count) }
    ensures { (text : ℕ) → entry_from image.now text result ≡ entry_in image.now p.records text p.count p.t k }
{
    let at = p.records + 12 * (k as usize);
    Numbers {
        kind: four_at(image, at),
        start: four_at(image, at + 4),
        stop: stop_at(image, p, k),
        skip: four_at(image, at + 8),
    }
}

// The first byte of a text.
fn byte_of(image: &[u8], p: Places, e: Numbers) -> u8
    requires { p.text ≤ 2 ^ 40 }
    ensures { result ≡ get_or image.now (p.text + e.start) 0 }
{
    crate::token_tree::byte_at(image, p.text + (e.start as usize))
}

// `count` records from record `from` on, one component's or what stands in a group, `depth` groups deep. Siblings go by the loop,
// a `while`, as a step passes a word or a whole group.
fn check_in(image: &[u8], p: Places, from: u32, count: u32, depth: u32) -> Result<(), Reason>
    requires { Fits image.now p.records p.text p.count × (from + count ≤ p.count) × (depth ≤ 32) }
    ensures { Says p.t (entry_in image.now p.records p.text p.count p.t) depth from count (reasoned result) }
{
    let mut k = from;
    let mut left = count;
    while 0 < left {
        let e = numbers_at(image, p, k);
        if e.kind == 0 {
            if !e.word_right(p.t) {
                return Err(Reason::BadRecord);
            }
            k += 1;
            left -= 1;
        } else {
            if !e.skip_right(left) {
                return Err(Reason::BadRecord);
            }
            let closer = numbers_at(image, p, k + (e.skip - 1));
            if !e.opener_right(p.t, byte_of(image, p, e), closer) {
                return Err(Reason::BadRecord);
            }
            // named, so that a must-fail edit of the test leaves the goals' names
            let deep = limits::DEPTH <= depth;
            if deep {
                return Err(Reason::TooDeep);
            }
            check_in(image, p, k + 1, e.skip - 2, depth + 1)?;
            if !e.close_right(p.t, closer, byte_of(image, p, closer)) {
                return Err(Reason::BadRecord);
            }
            k += e.skip;
            left -= e.skip;
        }
    }
    Ok(())
}

// The records of n components, whose entries stand at `at`, one component after the other.
fn components_check(image: &[u8], p: Places, at: usize, n: u32) -> Result<(), Reason>
    requires { Fits image.now p.records p.text p.count × (p ≡ places_of image.now) × (at ≡ (tables image.now).components) × (at + 8 * n ≤ length image.now) × (sum (tab (record_count image.now) 0 n) ≤ p.count) }
    ensures { reasoned result ≡ check_components image.now 0 (tab (record_count image.now) 0 n) }
{
    let mut from = 0;
    for k in 0..n as usize {
        let count = four_at(image, at + 8 * k);
        check_in(image, p, from, count, 0)?;
        from += count;
    }
    Ok(())
}

pub(crate) fn records_check(image: &[u8], h: Counts, at: Tables) -> Result<(), Reason>
    requires { Laid image.now h at × (sum (tab (record_count image.now) 0 h.n) ≤ h.r) }
    ensures { reasoned result ≡ records image.now }
{
    if four_at(image, at.records + 4) != 0 {
        return Err(Reason::BadRecord);
    }
    let p = Places {
        records: at.records,
        text: at.text,
        count: h.r,
        t: h.t,
    };
    components_check(image, p, at.components, h.n)
}
