// Where concatenations end and components begin: the dividers at the top level. Not one function: one walk goes forwards, the other backwards.
ghost use Rattle.std.specs.Prelude.{◌≡◌, true, reverse, ◌+◌, ◌-◌, ◌≤◌, drop};
ghost use Rattle.std.proofs.Math.Seq.{slice};
ghost use Rattle.definition.specs.Tokens.{count, tokens, tokens_right};
ghost use Rattle.token_facts.specs.Flat.{to_semicolon, to_comma};

use crate::list::TokenList;

impl TokenList<'_> {
    // The semicolon that ends the concatenation from token a on, or the end n of the list.
    pub(crate) fn concatenation_end(&self, a: usize, n: usize) -> usize
        requires { (a ≤ n) × (n ≡ count self.now.list.now) × (tokens_right self.now.list.now self.now.text.now ≡ true) }
        ensures { result ≡ a + to_semicolon 0 (drop a (tokens self.now.list.now self.now.text.now)) }
    {
        let mut d = 0;
        for e in a..n {
            if self.divides(e, d, b';') {
                return e;
            }
            d = self.after(e, d);
        }
        n
    }

    // Where the last component of tokens a to e begins: after the last comma, or at a.
    pub(crate) fn component_start(&self, a: usize, e: usize) -> usize
        requires { (a ≤ e) × (e ≤ count self.now.list.now) × (tokens_right self.now.list.now self.now.text.now ≡ true) }
        ensures { (result + to_comma 0 (reverse (slice a e (tokens self.now.list.now self.now.text.now))) ≡ e) × (a ≤ result) }
    {
        let mut d = 0;
        for s in (a..e).rev() {
            if self.divides(s, d, b',') {
                return s + 1;
            }
            d = self.before(s, d);
        }
        a
    }
}
