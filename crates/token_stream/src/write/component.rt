// One component: its records and text, token by token, and its row. Places, sizes of rows and kinds are numbers: document 01 gives an image
// as bytes, and these are written there.
ghost use Rattle.std.specs.Prelude.{◌≡◌, List, [], ◌∷◌, ℕ, ◌+◌, ◌≤◌, ◌<◌, ◌^◌};
ghost use Rattle.std.proofs.Math.Seq.{slice};
ghost use Rattle.definition.specs.TokenStream.{Stream};
ghost use Rattle.definition.specs.Tokens.{count, tokens, token_at};
ghost use Rattle.token_facts.specs.Flat.{inner};
ghost use Rattle.token_stream.specs.write.Steps.{EndFits, EndIs, DelimiterIs, LeafFits, StepFits, StepIs, span_recs, SpanFits, SpanIs};
ghost use Rattle.token_stream.specs.write.Written.{nodes_of, Component, NodesWritten};

use crate::list::{Kind, TokenList};
use image::token_tree::delimiter_of;
use image::writer;

// Where the next component's row, the next record's row and the next byte of text go. Where the text begins, `base`, is handed on beside
// pen and mark: in them it is no plainer, since each contract would then also say that it stays.
#[derive(Clone, Copy)]
pub(crate) struct Pen {
    pub components: usize,
    pub records: usize,
    pub text: usize,
}

// The same within a component: where the next record's row and byte of text go, where the text of the record that was begun starts,
// and the kinds of the open groups, two bits each, the innermost lowest: by a rule of the project no memory is asked for, and a stack
// of 32 fits one number (docs/DECISIONS.md, 66).
#[derive(Clone, Copy)]
pub(crate) struct Mark {
    pub record: usize,
    pub text: usize,
    pub start: usize,
    pub groups: u64,
}

impl Mark {
    // A record ends: its row is written, and the next text starts where its text ended.
    fn end_record(
        self,
        area: &mut [u8],
        base: usize,
        kind: u32,
        skip: u32,
        at: usize,
        groups: u64,
    ) -> Mark
        requires { EndFits base self }
        ensures { EndIs base kind skip at groups area.old area.new self result }
    {
        writer::put_record(area, self.record, kind, (self.start - base) as u32, skip);
        Mark {
            record: self.record + 12,
            text: at,
            start: at,
            groups,
        }
    }

    // An opener or a closer: one byte of text.
    fn put_delimiter(
        self,
        area: &mut [u8],
        base: usize,
        b: u8,
        kind: u32,
        skip: u32,
        groups: u64,
    ) -> Mark
        requires { EndFits base self }
        ensures { DelimiterIs base b kind skip groups area.old area.new self result }
    {
        writer::put_byte(area, self.text, b);
        self.end_record(area, base, kind, skip, self.text + 1, groups)
    }
}

impl TokenList<'_> {
    // The skip of opener k: the records to just after its closer, which stands before token e.
    fn skip_at(&self, k: usize, e: usize) -> usize
        requires { (k < e) × (e ≤ count self.now.list.now) }
        ensures { ((text : List ℕ) → result ≡ 2 + inner 0 (slice (k + 1) e (tokens self.now.list.now text))) × (result ≤ 2 + e) }
    {
        let mut d: usize = 0;
        let mut r = 2;
        for j in k + 1..e {
            if self.closes(j) & (d == 0) {
                return r;
            }
            d = self.after(j, d);
            r += usize::from(!self.joined(j, e));
        }
        r
    }

    // An identifier, punctuation or a literal: its text, and a space where the run of identifiers goes on.
    fn put_leaf(&self, area: &mut [u8], base: usize, k: usize, e: usize, m: Mark) -> Mark
        requires { LeafFits self.now.list.now self.now.text.now base k e m }
        ensures { let s = self.now in
            StepIs base (token_at s.list.now s.text.now k) (slice (k + 1) e (tokens s.list.now s.text.now)) area.old area.new m result }
    {
        let n = self.length_at(k) as usize;
        writer::put_bytes(area, m.text, self.text, self.start_at(k) as usize, n);
        let at = m.text + n;
        if self.joined(k, e) {
            writer::put_byte(area, at, b' ');
            return Mark { text: at + 1, ..m };
        }
        m.end_record(area, base, 0, 1, at, m.groups)
    }

    fn put_token(&self, area: &mut [u8], base: usize, k: usize, e: usize, m: Mark) -> Mark
        requires { StepFits self.now.list.now self.now.text.now base k e m }
        ensures { let s = self.now in
            StepIs base (token_at s.list.now s.text.now k) (slice (k + 1) e (tokens s.list.now s.text.now)) area.old area.new m result }
    {
        match self.kind_at(k) {
            Kind::Opener(kind) => {
                let d = delimiter_of(kind);
                let groups = m.groups * 4 + ((kind - 1) as u64);
                let skip = self.skip_at(k, e) as u32;
                m.put_delimiter(area, base, d.opening, kind, skip, groups)
            }
            Kind::Closer => {
                let d = delimiter_of((m.groups % 4) as u32 + 1);
                m.put_delimiter(area, base, d.closing, 5, 1, m.groups / 4)
            }
            Kind::Identifier | Kind::Punctuation | Kind::Literal => {
                self.put_leaf(area, base, k, e, m)
            }
        }
    }

    fn put_tokens(&self, area: &mut [u8], base: usize, s: usize, e: usize, pen: Pen) -> Mark
        requires { SpanFits self.now.list.now self.now.text.now base s e pen }
        ensures { SpanIs base (span_recs self.now.list.now self.now.text.now s e) pen area.old area.new result }
    {
        let mut m = Mark {
            record: pen.records,
            text: pen.text,
            start: pen.text,
            groups: 0,
        };
        for k in s..e {
            m = self.put_token(area, base, k, e, m);
        }
        m
    }

    // The component of tokens s to e.
    pub(crate) fn put_component(
        &self,
        area: &mut [u8],
        base: usize,
        s: usize,
        e: usize,
        pen: Pen,
    ) -> Pen
        requires { (c : Stream) × Component self.now.list.now self.now.text.now base s e pen c }
        ensures { (c : Stream) → Component self.now.list.now self.now.text.now base s e pen c
            → NodesWritten base pen (nodes_of (c ∷ [])) area.old area.new result }
    {
        let m = self.put_tokens(area, base, s, e, pen);
        let records = ((m.record - pen.records) / 12) as u32;
        writer::put_component(area, pen.components, records, 0);
        Pen {
            components: pen.components + 8,
            records: m.record,
            text: m.text,
        }
    }
}
