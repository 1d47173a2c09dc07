// 50 and 51. The depth is a counter: a lent list may nest as deep as it is long.
ghost use Rattle.std.specs.Prelude.{◌≡◌, true, false, List, ℕ, ◌<◌};
ghost use Rattle.definition.specs.Basics.{all, tab};
ghost use Rattle.definition.specs.Tokens.{count, tokens, token_right, tokens_right, nested};
ghost use Rattle.token_facts.specs.Flat.{none_empty_in};

use crate::list::{Kind, TokenList};

impl TokenList<'_> {
    // 50 of one token; document 01 has four kinds of groups. Start and length of a group's tokens are not looked at.
    fn token_right(&self, k: usize) -> bool
        requires { k < count self.now.list.now }
        ensures { result ≡ token_right self.now.list.now self.now.text.now k }
    {
        let n = self.length_at(k);
        let stop = (self.start_at(k) as u64) + (n as u64);
        let inside = (1 <= n) & (stop <= (self.text.len() as u64));
        match self.kind_at(k) {
            Kind::Identifier | Kind::Literal => inside,
            Kind::Punctuation => inside & (n == 1),
            Kind::Opener(group) => group <= 4,
            Kind::Closer => true,
        }
    }

    fn each_right(&self) -> bool
        ensures { result ≡ all (token_right self.now.list.now self.now.text.now) (tab (λ k. k) 0 (count self.now.list.now)) }
    {
        (0..self.count()).all(|k| self.token_right(k))
    }

    fn well_nested(&self) -> bool
        ensures { (text : List ℕ) → result ≡ nested 0 (tokens self.now.list.now text) }
    {
        let mut d = 0;
        for k in 0..self.count() {
            if self.closes(k) & (d == 0) {
                return false;
            }
            d = self.after(k, d);
        }
        d == 0
    }

    // 50. What asks for it later says so: a type for a list that passed would repeat the methods that 50 itself uses.
    pub(crate) fn tokens_right(&self) -> bool
        ensures { result ≡ tokens_right self.now.list.now self.now.text.now }
    {
        self.list.len() % 12 == 0 && self.each_right() && self.well_nested()
    }

    // 51: no component is empty.
    pub(crate) fn none_empty(&self) -> bool
        requires { tokens_right self.now.list.now self.now.text.now ≡ true }
        ensures { result ≡ none_empty_in 0 false (tokens self.now.list.now self.now.text.now) }
    {
        let mut d = 0;
        let mut begun = false;
        for k in 0..self.count() {
            if self.divides(k, d, b',') | self.divides(k, d, b';') {
                if !begun {
                    return false;
                }
                begun = false;
            } else {
                d = self.after(k, d);
                begun = true;
            }
        }
        begun
    }
}
