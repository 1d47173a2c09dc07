// Hex and text. A byte that is missing counts as 0: so a text is a place and a count beside the bytes, and no part of them.
ghost use Rattle.std.specs.Prelude.{◌≡◌, ◌&&◌, not, map, reverse, drop, ◌<◌, eqb};
ghost use Rattle.definition.specs.Basics.{within, joined};
ghost use Rattle.definition.specs.Image.{bytes_at};
ghost use Rattle.definition.specs.Listing.{hex_digit, hex, shown_byte, shown};
ghost use Rattle.listing.specs.writer.Put.{Put, capped};
ghost use Rattle.listing.specs.writer.Writes.{Writes};

use crate::writer::Writer;
use image::token_tree::{byte_at, byte_on};

// By a table: in a long literal no step is taken more often. (`char::from_digit` gives an Option of a char, to be taken apart again.)
fn hex_digit(d: u8) -> u8
    requires { d < 16 }
    ensures { result ≡ hex_digit d }
{
    b"0123456789abcdef"[d as usize]
}

// 33 to 126, but for the backslash.
fn is_plain(b: u8) -> bool
    ensures { result ≡ (within 33 126 b && not (eqb b 92)) }
{
    (33..=126).contains(&b) && b != b'\\'
}

impl Writer<'_> {
    fn put_hex(&mut self, b: u8)
        ensures { Writes self.old (hex b) self.new }
    {
        self.put_two(hex_digit(b / 16), hex_digit(b % 16));
    }

    // A byte of a text: as it is, or as a backslash and two digits.
    fn put_shown(&mut self, b: u8)
        ensures { Writes self.old (shown_byte b) self.new }
    {
        if is_plain(b) {
            return self.put_byte(b);
        }
        self.put_byte(b'\\');
        self.put_hex(b);
    }

    // The text of `count` bytes from a place.
    pub(crate) fn put_text(&mut self, s: &[u8], from: usize, count: usize)
        ensures { Writes self.old (shown (bytes_at s.now from count)) self.new }
    {
        self.at = text_into(self.out, self.at, s, from, count);
    }

    // `count` bytes from a place in hex, the highest first.
    pub(crate) fn put_number(&mut self, s: &[u8], from: usize, count: usize)
        ensures { Writes self.old (joined (map hex (reverse (bytes_at s.now from count)))) self.new }
    {
        self.at = number_into(self.out, self.at, s, from, count);
    }
}

// The bytes from a place on: none, where it is past the end.
fn bytes_from(s: &[u8], from: usize) -> &[u8]
    ensures { result.now ≡ drop from s.now }
{
    match s.get(from..) {
        Some(bytes) => bytes,
        None => &[],
    }
}

// The loops of `put_text` and `put_number`, each over a writer of its own, whose place stays in a register: behind a `&mut` it is stored and
// loaded again at each byte, which made a long literal twice as slow. A literal's bytes are cut out first: they are longer than most texts,
// and each has one test less. The place after the bytes.
fn text_into(out: &mut [u8], at: usize, s: &[u8], from: usize, count: usize) -> usize
    ensures { Put out.old (capped at) (shown (bytes_at s.now from count)) out.new (capped result) }
{
    let mut w = Writer { out, at };
    for i in 0..count {
        w.put_shown(byte_on(s, from, i));
    }
    w.at
}

fn number_into(out: &mut [u8], at: usize, s: &[u8], from: usize, count: usize) -> usize
    ensures { Put out.old (capped at) (joined (map hex (reverse (bytes_at s.now from count)))) out.new (capped result) }
{
    let mut w = Writer { out, at };
    let bytes = bytes_from(s, from);
    for i in (0..count).rev() {
        w.put_hex(byte_at(bytes, i));
    }
    w.at
}
