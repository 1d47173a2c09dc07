// The 72 bytes of a component. `kind` and `present` are the answer's own numbers (document 01), and `at` counts the area's bytes as the
// format does: a part of the area for each number would only move the sum into a range.
ghost use Rattle.std.specs.Prelude.{◌≡◌, ◌+◌, ◌≤◌, ◌++◌, length};
ghost use Rattle.std.proofs.lemmas.List.Edits.{sets};
ghost use Rattle.stages.specs.answer.Blocks.{word_bytes, text_block, usb_block, range_block, head_block, literal_block, plain_block, open_block, fixed_block};

use super::area::{put_u32, put_u64};
use crate::component::{Component, ComponentType};
use crate::ranges::{Usb, Usbr};
use crate::token_tree::{Part, no_text};

// A text's start and length: 8 bytes.
pub(crate) fn put_text(area: &mut [u8], at: usize, s: Part)
    requires { at + 8 ≤ length area.old }
    ensures { area.new ≡ sets area.old at (text_block s) }
{
    put_u32(area, at, s.at.0);
    put_u32(area, at + 4, s.len);
}

// A bound: 24 bytes.
fn put_usb(area: &mut [u8], at: usize, u: Usb)
    requires { at + 24 ≤ length area.old }
    ensures { area.new ≡ sets area.old at (usb_block u) }
{
    put_text(area, at, u.s);
    put_u64(area, at + 8, u.x.low);
    put_u64(area, at + 16, u.x.high);
}

// Start and end, zeros where there is none.
fn put_range(area: &mut [u8], at: usize, r: Usbr)
    requires { at + 48 ≤ length area.old }
    ensures { area.new ≡ sets area.old at (range_block r) }
{
    put_usb(area, at, r.start);
    put_usb(area, at + 24, r.end.unwrap_or(Usb::zero()));
}

// The first 24 bytes of a variable or a filler; `present` is 1 where it has an end.
fn put_type(area: &mut [u8], at: usize, kind: u32, s: Part, present: u32)
    requires { at + 24 ≤ length area.old }
    ensures { area.new ≡ sets area.old at (head_block kind s present) }
{
    put_u32(area, at, kind);
    put_text(area, at + 4, s);
    put_u64(area, at + 12, 0);
    put_u32(area, at + 20, present);
}

// The first 24 bytes of a literal.
fn put_literal(area: &mut [u8], at: usize, bits: u32, offset: u32, present: u32)
    requires { at + 24 ≤ length area.old }
    ensures { area.new ≡ sets area.old at (literal_block bits offset present) }
{
    put_u32(area, at, 1);
    put_u64(area, at + 4, 0);
    put_u32(area, at + 12, bits);
    put_u32(area, at + 16, offset);
    put_u32(area, at + 20, present);
}

// A variable or a filler.
pub(crate) fn put_plain(area: &mut [u8], at: usize, c: Component)
    requires { at + 72 ≤ length area.old }
    ensures { area.new ≡ sets area.old at (plain_block c) }
{
    let (kind, s) = match c.c_type {
        ComponentType::Variable(s) => (2, s),
        ComponentType::Literal(_) | ComponentType::Filler => (3, no_text()),
    };
    put_type(area, at, kind, s, c.range.end.is_some() as u32);
    put_range(area, at + 24, c.range);
}

// A literal that is not static.
pub(crate) fn put_open(area: &mut [u8], at: usize, r: Usbr, bits: u32, offset: u32)
    requires { at + 72 ≤ length area.old }
    ensures { area.new ≡ sets area.old at (open_block r bits offset) }
{
    put_literal(area, at, bits, offset, r.end.is_some() as u32);
    put_range(area, at + 24, r);
}

// Three zero words but for the second.
fn put_val(area: &mut [u8], at: usize, low: u64)
    requires { at + 24 ≤ length area.old }
    ensures { area.new ≡ sets area.old at (word_bytes 0 ++ word_bytes low ++ word_bytes 0) }
{
    put_u64(area, at, 0);
    put_u64(area, at + 8, low);
    put_u64(area, at + 16, 0);
}

// A literal from 0 to its width.
pub(crate) fn put_fixed(area: &mut [u8], at: usize, bits: u32, offset: u32)
    requires { at + 72 ≤ length area.old }
    ensures { area.new ≡ sets area.old at (fixed_block bits offset) }
{
    put_literal(area, at, bits, offset, 1);
    put_val(area, at + 24, 0);
    put_val(area, at + 48, bits as u64);
}
