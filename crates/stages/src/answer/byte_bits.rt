// Bits that fall across two bytes. Bit i of a slice is bit i % 8 of its byte i / 8.
ghost use Rattle.std.specs.Prelude.{◌≡◌, ◌+◌, ◌*◌, ◌/◌, ◌%◌, ◌^◌};

pub(crate) fn pair(a: u8, b: u8) -> u16
    ensures { result ≡ a + 256 * b }
{
    u16::from_le_bytes([a, b])
}

// Eight bits of two bytes, from bit from % 8 of the first. `as` wants a number that fits, so `% 256` stays.
pub(crate) fn byte_of(a: u8, b: u8, from: usize) -> u8
    ensures { result ≡ (a + 256 * b) / 2 ^ (from % 8) % 256 }
{
    ((pair(a, b) >> ((from % 8) as u16)) % 256) as u8
}
