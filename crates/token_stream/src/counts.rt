// 52: the counts of the image. The walk gives up as soon as one is above its limit, so no sum can wrap.
ghost use Rattle.std.specs.Prelude.{◌≡◌, true, ◌+◌, ◌<◌, drop, if◌then◌else◌};
ghost use Rattle.definition.specs.Tokens.{count, tokens, token_at, tokens_right};
ghost use Rattle.token_stream.specs.counts.Counting.{tally_of, token_tally, Small, sum_of, within as within_at, CountedIs};

use crate::list::{Kind, TokenList};
use errors::TokenReason;
use image::token_tree::Counts;
use std::ops::Add;

// Semicolons and dividers at the top level, records and text bytes.
#[derive(Clone, Copy, Default)]
struct Tally {
    semicolons: u64,
    dividers: u64,
    records: u64,
    bytes: u64,
}

impl Add for Tally {
    type Output = Tally;

    ghost can_add = { λ a b. Small a × Small b };

    ghost add_gives = { λ a b c. tally_of c ≡ sum_of (tally_of a) (tally_of b) };

    fn add(self, other: Tally) -> Tally {
        Tally {
            semicolons: self.semicolons + other.semicolons,
            dividers: self.dividers + other.dividers,
            records: self.records + other.records,
            bytes: self.bytes + other.bytes,
        }
    }
}

impl Tally {
    // Whether no count is above its limit, d groups being open.
    fn within(self, d: usize) -> bool
        ensures { result ≡ within_at (tally_of self) d }
    {
        (self.semicolons < (limits::CONCATENATIONS as u64))
            & (self.dividers < (limits::COMPONENTS as u64))
            & (self.records <= (limits::RECORDS as u64))
            & (self.bytes <= (limits::TEXT as u64))
            & (d <= (limits::DEPTH as usize))
    }
}

impl TokenList<'_> {
    // What token k weighs, d groups being open.
    fn weight(&self, k: usize, d: usize) -> Tally
        requires { (k < count self.now.list.now) × (tokens_right self.now.list.now self.now.text.now ≡ true) }
        ensures { let s = self.now in
            (tally_of result ≡ token_tally d (token_at s.list.now s.text.now k) (drop (k + 1) (tokens s.list.now s.text.now)))
            × Small result }
    {
        let semicolon = self.divides(k, d, b';');
        if self.divides(k, d, b',') | semicolon {
            return Tally {
                semicolons: u64::from(semicolon),
                dividers: 1,
                ..Tally::default()
            };
        }
        match self.kind_at(k) {
            Kind::Opener(_) | Kind::Closer => Tally {
                records: 1,
                bytes: 1,
                ..Tally::default()
            },
            Kind::Identifier | Kind::Punctuation | Kind::Literal => {
                let more = self.joined(k, self.count());
                Tally {
                    records: u64::from(!more),
                    bytes: (self.length_at(k) as u64) + u64::from(more),
                    ..Tally::default()
                }
            }
        }
    }

    pub(crate) fn counts(&self) -> Result<Counts, TokenReason>
        requires { tokens_right self.now.list.now self.now.text.now ≡ true }
        ensures { CountedIs (tokens self.now.list.now self.now.text.now) result }
    {
        let mut t = Tally::default();
        let mut d = 0;
        for k in 0..self.count() {
            t = t + self.weight(k, d);
            d = self.after(k, d);
            if !t.within(d) {
                return Err(TokenReason::OverLimits);
            }
        }
        Ok(Counts {
            c: (t.semicolons as u32) + 1,
            n: (t.dividers as u32) + 1,
            r: t.records as u32,
            t: t.bytes as u32,
            b: 0,
        })
    }
}
