// Merged components, one kept component after the other: the bits of a run of static literals are written as they come, its block when
// it ends. "Every maximal run of literals with static ranges becomes one literal from 0 to its width, the sum of the run's widths, the
// lowest component's bits lowest."
ghost use Rattle.std.specs.Prelude.{◌≡◌, ◌+◌, ◌/◌, ◌^◌, ◌<◌, false, List, ◌∷◌};
ghost use Rattle.definition.specs.Image.{Placed};
ghost use Rattle.definition.specs.Component as Def;
ghost use Rattle.definition.specs.Concatenation.{is_static_literal, merge};
ghost use Rattle.answer_facts.specs.fits.Fixed.{Fixed, AllFixed};
ghost use Rattle.stages.specs.ranges.Values.{Tree as TreeIn};
ghost use Rattle.stages.specs.component.Values.{BitsFit};
ghost use Rattle.stages.specs.component.Kept.{Is, Are};
ghost use Rattle.stages.specs.answer.merging.Put.{Room, PutIs};
ghost use Rattle.stages.specs.answer.merging.State.{LongerIs, CloseIs, OtherIs, StaticBits, StepIs, Writable, Closable, closed_at, behind_by};

use super::bits::{append_bits, bytes_for};
use super::blocks::{put_fixed, put_open, put_plain};
use crate::component::{Bits, Component, ComponentType};

// Where the next component's block stands, where the literal block begins, and how many of its bytes are written.
#[derive(Clone, Copy)]
pub struct Writing {
    pub at: usize,
    pub literals: usize,
    pub offset: usize,
}

// Where to write, and how many bits the open run of static literals has, if one is open.
#[derive(Clone, Copy)]
pub struct Merging {
    pub w: Writing,
    pub run: Option<usize>,
}

impl Writing {
    // The place behind a block whose literal has so many bits.
    fn behind(self, bits: usize) -> Writing
        ensures { self.at + 72 < 2 ^ 64 → self.offset + (bits + 7) / 8 < 2 ^ 64 → result ≡ behind_by self bits }
    {
        Writing {
            at: self.at.wrapping_add(limits::COMPONENT_SIZE),
            offset: self.offset.wrapping_add(bytes_for(bits)),
            ..self
        }
    }
}

// The bits of a literal are the last of the run: how many it has then.
fn lengthen(area: &mut [u8], image: &[u8], b: Bits, s: Merging) -> Merging
    requires { BitsFit image.now b }
    ensures { LongerIs image.now b s result area.old area.new }
{
    let had = s.run.unwrap_or(0);
    let n = (b.to - b.from) as usize;
    let at = s.w.literals.wrapping_add(s.w.offset);
    append_bits(area, at, had, &image[b.at as usize..], b.from as usize, n);
    Merging {
        run: Some(had.wrapping_add(n)),
        ..s
    }
}

// The open run becomes one literal. Here and in put_other, `as` wants a number that fits: `%` says so of any state.
fn close(area: &mut [u8], s: Merging) -> Writing
    requires { (ms : List (Placed Def.Component)) × Closable area.old s ms }
    ensures { CloseIs s result area.old area.new }
{
    let Some(bits) = s.run else {
        return s.w;
    };
    put_fixed(
        area,
        s.w.at,
        (bits % 0x1_0000_0000) as u32,
        (s.w.offset % 0x1_0000_0000) as u32,
    );
    s.w.behind(bits)
}

// A component that is no static literal. No run is open.
fn put_other(area: &mut [u8], image: &[u8], c: Component, w: Writing) -> Writing
    requires { (t : TreeIn) × (d : Placed Def.Component) × (ms : List (Placed Def.Component)) × Is image.now t c d × Fixed d
        × Closable area.old (closed_at w) (d ∷ ms) × (is_static_literal d.value ≡ false) }
    ensures { (t : TreeIn) (d : Placed Def.Component) → Is image.now t c d → Fixed d → is_static_literal d.value ≡ false
        → OtherIs d w result area.old area.new }
{
    let ComponentType::Literal(b) = c.c_type else {
        put_plain(area, w.at, c);
        return w.behind(0);
    };
    // its bits are a run of its own
    let o = lengthen(area, image, b, Merging { w, run: None });
    let bits = o.run.unwrap_or(0);
    put_open(
        area,
        w.at,
        c.range,
        (bits % 0x1_0000_0000) as u32,
        (w.offset % 0x1_0000_0000) as u32,
    );
    w.behind(bits)
}

// The bits of a static literal.
fn static_bits(c: Component) -> Option<Bits>
    ensures { StaticBits c result }
{
    match c.c_type {
        ComponentType::Literal(b) if c.is_static_literal() => Some(b),
        _ => None,
    }
}

// One component.
fn put(area: &mut [u8], image: &[u8], c: Component, s: Merging) -> Merging
    requires { (t : TreeIn) × (d : Placed Def.Component) × (cs : List (Placed Def.Component)) × Is image.now t c d × Fixed d
        × Writable area.old s (d ∷ cs) }
    ensures { (t : TreeIn) (d : Placed Def.Component) → Is image.now t c d → Fixed d → StepIs d s result area.old area.new }
{
    if let Some(b) = static_bits(c) {
        return lengthen(area, image, b, s);
    }
    let w = close(area, s);
    Merging {
        w: put_other(area, image, c, w),
        run: None,
    }
}

// Stage 5 of a concatenation's components: neighbouring static literals become one, as they are written.
pub(crate) fn simplify(area: &mut [u8], image: &[u8], comps: &[Component], w: Writing) -> Writing
    requires { (t : TreeIn) × (cs : List (Placed Def.Component)) × Are image.now t comps.now cs × AllFixed cs × Room area.old w (merge cs) }
    ensures { PutIs image.now comps.now w result area.old area.new }
{
    let mut s = Merging { w, run: None };
    for c in comps {
        s = put(area, image, *c, s);
    }
    close(area, s)
}
