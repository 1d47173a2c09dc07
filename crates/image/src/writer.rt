// Writing an image into a lent area: its header, and rows of its tables at their places. Nothing is asked of a caller: what falls outside
// the area is left out. Once each table holds the rows of a tree, the area holds the tree's image (specs/writer/Written.antt,
// `image_written`).
ghost use Rattle.std.specs.Prelude.{◌≡◌, [], ◌∷◌, ◌+◌, ◌≤◌, leb, length};
ghost use Rattle.std.proofs.lemmas.List.Edits.{sets};
ghost use Rattle.definition.specs.Prelude.{map};
ghost use Rattle.definition.specs.Basics.{joined};
ghost use Rattle.definition.specs.Image.{bytes_at, tables_for};
ghost use Rattle.definition.specs.Tree.{u32};
ghost use Rattle.image.specs.token_tree.Tables.{counts_of, tables_of};
ghost use Rattle.image.specs.writer.Written.{header_bytes, component_row, record_row};

use crate::token_tree::{Counts, Tables, byte_on, tables_for};

pub fn put_byte(area: &mut [u8], at: usize, b: u8)
    ensures { area.new ≡ sets area.old at (b ∷ []) }
{
    if at < area.len() {
        area[at] = b;
    }
}

// Whether n bytes from `at` on lie within so many.
fn lies(size: usize, at: usize, n: usize) -> bool
    ensures { result ≡ leb (at + n) size }
{
    at <= size && n <= size - at
}

// The bytes of s from `at` on, as many as fit.
fn put(area: &mut [u8], at: usize, s: &[u8])
    ensures { area.new ≡ sets area.old at s.now }
{
    put_bytes(area, at, s, 0, s.len());
}

// Little-endian: the row of a concatenation is its number of components.
pub fn put_u32(area: &mut [u8], at: usize, n: u32)
    ensures { area.new ≡ sets area.old at (u32 n) }
{
    put(area, at, &n.to_le_bytes());
}

// Numbers one next to the other: the parts of a row. A place that would be too large saturates, past the area.
fn put_numbers(area: &mut [u8], at: usize, numbers: &[u32])
    requires { length numbers.now ≤ 10 }
    ensures { area.new ≡ sets area.old at (joined (map u32 numbers.now)) }
{
    for (i, n) in numbers.iter().enumerate() {
        put_u32(area, at.saturating_add(4 * i), *n);
    }
}

// The row of a record, made whole first: one test then says whether it fits. Any number is promised to be written as a kind.
pub fn put_record(area: &mut [u8], at: usize, kind: u32, start: u32, skip: u32)
    ensures { area.new ≡ sets area.old at (record_row kind start skip) }
{
    let mut row = [0; 12];
    put_numbers(&mut row, 0, &[kind, start, skip]);
    put(area, at, &row);
}

// The row of a component: its number of records, and its literal's width.
pub fn put_component(area: &mut [u8], at: usize, records: u32, width: u32)
    ensures { area.new ≡ sets area.old at (component_row records width) }
{
    let mut row = [0; 8];
    put_numbers(&mut row, 0, &[records, width]);
    put(area, at, &row);
}

// Bytes that may not all be there; a byte that is missing counts as 0. A place that would be too large saturates, past the area.
fn put_each(area: &mut [u8], at: usize, s: &[u8], from: usize, n: usize)
    ensures { area.new ≡ sets area.old at (bytes_at s.now from n) }
{
    for i in 0..n {
        put_byte(area, at.saturating_add(i), byte_on(s, from, i));
    }
}

// Byte by byte: `copy_from_slice` may be a call of memcpy, where the library for C calls nothing but memset; and it compares addresses as
// numbers of 64 bits, so that on a processor of 32 bits other bytes were written.
fn copy_bytes(area: &mut [u8], at: usize, s: &[u8], from: usize, n: usize)
    requires { (at + n ≤ length area.old) × (from + n ≤ length s.now) }
    ensures { area.new ≡ sets area.old at (bytes_at s.now from n) }
{
    for i in 0..n {
        area[at + i] = s[from + i];
    }
}

// n bytes of s: of the text, or of the literals.
pub fn put_bytes(area: &mut [u8], at: usize, s: &[u8], from: usize, n: usize)
    ensures { area.new ≡ sets area.old at (bytes_at s.now from n) }
{
    if lies(area.len(), at, n) && lies(s.len(), from, n) {
        copy_bytes(area, at, s, from, n);
    } else {
        put_each(area, at, s, from, n);
    }
}

// What four bytes hold of a number: here an `as` may lose nothing.
fn low(n: usize) -> u32
    ensures { u32 result ≡ u32 n }
{
    (n % 0x1_0000_0000) as u32
}

// The header of an image with these counts, and where its tables stand.
pub fn put_header(area: &mut [u8], h: Counts) -> Tables
    ensures { (tables_of result ≡ tables_for h.c h.n h.r h.t h.b) × (area.new ≡ sets area.old 0 (header_bytes (counts_of h))) }
{
    let p = tables_for(h);
    let counts = [h.c, h.n, h.r, h.t, h.b];
    let offsets = [
        low(p.concatenations),
        low(p.components),
        low(p.records),
        low(p.text),
        low(p.literals),
    ];
    put_numbers(area, 0, &counts);
    put_numbers(area, 20, &offsets);
    p
}
