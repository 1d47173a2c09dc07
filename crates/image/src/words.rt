// Bytes and numbers of an image, free of its tables.
ghost use Rattle.std.specs.Prelude.{◌≡◌, ◌+◌, ◌*◌, ◌≤◌, length, get_or};
ghost use Rattle.definition.specs.Image.{u32_at};

// Little-endian.
pub fn join4(a: u8, b: u8, c: u8, d: u8) -> u32
    ensures { result ≡ a + 256 * b + 65536 * c + 16777216 * d }
{
    u32::from_le_bytes([a, b, c, d])
}

// Four bytes that are all there: one load.
pub(crate) fn four_at(s: &[u8], at: usize) -> u32
    requires { at + 4 ≤ length s.now }
    ensures { result ≡ u32_at s.now at }
{
    join4(s[at], s[at + 1], s[at + 2], s[at + 3])
}

// Not by `s.get(at)`: this kit hands an optional reference on as 16 bytes, of which a processor of 32 bits reads others.
pub fn byte_at(s: &[u8], at: usize) -> u8
    ensures { result ≡ get_or s.now at 0 }
{
    if at < s.len() { s[at] } else { 0 }
}
