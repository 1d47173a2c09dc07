// The tokens of a list, 12 bytes each: kind, text start and length. The C interface lends them as bytes, so their numbers are read at their
// places; and k < count is what an index into them needs.
ghost use Rattle.std.specs.Prelude.{◌≡◌, ◌+◌, ◌<◌, ◌≤◌, ◌^◌, eqb};
ghost use Rattle.definition.specs.Tokens.{kind_at, text_start, text_length, count};
ghost use Rattle.token_stream.specs.list.Kinds.{after_kind, before_kind, KindIs, divides_by, joined_by};

use image::token_tree::{byte_at, u32_at};

// What a token is. An opener has document 01's kind of its group; before 50 has passed it may be any number.
#[derive(Clone, Copy)]
pub(crate) enum Kind {
    Identifier,
    Punctuation,
    Literal,
    Opener(u32),
    Closer,
}

impl From<u32> for Kind {
    ghost from_gives = { λ n kind. KindIs kind n };

    fn from(n: u32) -> Kind {
        match n {
            0 => Kind::Identifier,
            1 => Kind::Punctuation,
            2 => Kind::Literal,
            7 => Kind::Closer,
            _ => Kind::Opener(n - 2),
        }
    }
}

// The lent list and the lent text.
#[derive(Clone, Copy)]
pub(crate) struct TokenList<'a> {
    pub(crate) list: &'a [u8],
    pub(crate) text: &'a [u8],
}

impl TokenList<'_> {
    pub(crate) fn count(&self) -> usize
        ensures { result ≡ count self.now.list.now }
    {
        self.list.len() / 12
    }

    pub(crate) fn kind_at(&self, k: usize) -> Kind
        requires { k < count self.now.list.now }
        ensures { KindIs result (kind_at self.now.list.now k) }
    {
        Kind::from(u32_at(self.list, 12 * k))
    }

    // start_at and length_at: one function of the field would be no plainer, its contract would say both.
    pub(crate) fn start_at(&self, k: usize) -> u32
        requires { k < count self.now.list.now }
        ensures { result ≡ text_start self.now.list.now k }
    {
        u32_at(self.list, 12 * k + 4)
    }

    pub(crate) fn length_at(&self, k: usize) -> u32
        requires { k < count self.now.list.now }
        ensures { result ≡ text_length self.now.list.now k }
    {
        u32_at(self.list, 12 * k + 8)
    }

    pub(crate) fn closes(&self, k: usize) -> bool
        requires { k < count self.now.list.now }
        ensures { result ≡ eqb (kind_at self.now.list.now k) 7 }
    {
        matches!(self.kind_at(k), Kind::Closer)
    }

    // How many groups are open after token k, d being open before it.
    pub(crate) fn after(&self, k: usize, d: usize) -> usize
        requires { (k < count self.now.list.now) × (d < 2 ^ 63) }
        ensures open { result ≡ after_kind d (kind_at self.now.list.now k) }
        ensures most { result ≤ d + 1 }
    {
        match self.kind_at(k) {
            Kind::Opener(_) => d + 1,
            Kind::Closer => d.saturating_sub(1),
            Kind::Identifier | Kind::Punctuation | Kind::Literal => d,
        }
    }

    // How many are open before token k, d being open after it. Not one with `after`: each arm differs but the last.
    pub(crate) fn before(&self, k: usize, d: usize) -> usize
        requires { (k < count self.now.list.now) × (d < 2 ^ 63) }
        ensures open { result ≡ before_kind d (kind_at self.now.list.now k) }
        ensures most { result ≤ d + 1 }
    {
        match self.kind_at(k) {
            Kind::Opener(_) => d.saturating_sub(1),
            Kind::Closer => d + 1,
            Kind::Identifier | Kind::Punctuation | Kind::Literal => d,
        }
    }

    // Whether token k is this punctuation, and no group is open. Of other tokens the text is not looked at.
    pub(crate) fn divides(&self, k: usize, d: usize, b: u8) -> bool
        requires { k < count self.now.list.now }
        ensures { result ≡ divides_by self.now.list.now self.now.text.now k d b }
    {
        d == 0
            && matches!(self.kind_at(k), Kind::Punctuation)
            && byte_at(self.text, self.start_at(k) as usize) == b
    }

    // Whether tokens k and k + 1, both before e, are identifiers.
    pub(crate) fn joined(&self, k: usize, e: usize) -> bool
        requires { (k < e) × (e ≤ count self.now.list.now) }
        ensures { result ≡ joined_by self.now.list.now k e }
    {
        k + 1 < e
            && matches!(self.kind_at(k), Kind::Identifier)
            && matches!(self.kind_at(k + 1), Kind::Identifier)
    }
}
