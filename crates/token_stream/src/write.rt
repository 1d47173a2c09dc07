// The image of a list that was admitted: concatenations in order, the components of each from its last to its first. Every table is
// filled from its start on, and nothing is written twice. Both loops: how far a step goes is found in its turn, so no `for` counts it.
mod component;
mod parts;

ghost use Rattle.std.specs.Prelude.{◌≡◌, List, length};
ghost use Rattle.definition.specs.TokenStream.{Stream};
ghost use Rattle.token_stream.specs.write.Written.{nodes_of, Concatenation, NodesWritten, Concatenations, TreeWritten, Fitting, ImageIs};

use crate::list::TokenList;
use crate::write::component::Pen;
use image::token_tree::Counts;
use image::writer::{put_header, put_u32};

impl TokenList<'_> {
    // The components of tokens a to b, from the last on.
    fn put_concatenation(&self, area: &mut [u8], base: usize, a: usize, b: usize, pen: Pen) -> Pen
        requires { (cs : List Stream) × Concatenation self.now.list.now self.now.text.now base a b pen cs }
        ensures { (cs : List Stream) → Concatenation self.now.list.now self.now.text.now base a b pen cs
            → NodesWritten base pen (nodes_of cs) area.old area.new result }
    {
        let mut p = pen;
        let mut e = b;
        // There is a last component, so the test stands behind it.
        loop {
            let s = self.component_start(a, e);
            p = self.put_component(area, base, s, e, p);
            if s == a {
                return p;
            }
            e = s - 1;
        }
    }

    // All concatenations, their own rows from `at` on.
    fn put_concatenations(&self, area: &mut [u8], base: usize, at: usize, pen: Pen)
        requires { (ccs : List (List Stream)) × Concatenations self.now.list.now self.now.text.now base at 0 pen ccs }
        ensures { (ccs : List (List Stream)) → Concatenations self.now.list.now self.now.text.now base at 0 pen ccs
            → TreeWritten base at pen ccs area.old area.new }
    {
        let n = self.count();
        let mut row = at;
        let mut p = pen;
        let mut a = 0;
        // There is a first concatenation, so the test stands behind it.
        loop {
            let b = self.concatenation_end(a, n);
            let q = self.put_concatenation(area, base, a, b, p);
            put_u32(area, row, ((q.components - p.components) / 8) as u32);
            if b == n {
                return;
            }
            row += 4;
            p = q;
            a = b + 1;
        }
    }

    // The whole image, and its length.
    pub(crate) fn put_image(&self, area: &mut [u8], h: Counts) -> usize
        requires { Fitting self.now.list.now self.now.text.now (length area.old) h }
        ensures { ImageIs self.now.list.now self.now.text.now area.old area.new result }
    {
        let p = put_header(area, h);
        let pen = Pen {
            components: p.components,
            records: p.records,
            text: p.text,
        };
        self.put_concatenations(area, p.text, p.concatenations, pen);
        p.stop
    }
}
