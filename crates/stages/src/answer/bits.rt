// Bits written behind others that stand packed in the literal block.
ghost use Rattle.std.specs.Prelude.{◌≡◌, ◌+◌, ◌/◌, ◌%◌, ◌^◌, ◌≤◌, true, ◌&&◌, nat_lt};
ghost use Rattle.definition.specs.Image.{bytes_for};
ghost use Rattle.stages.specs.answer.merging.Literals.{AppendIs};

use super::area::copy_bytes;

pub(crate) fn bytes_for(bits: usize) -> usize
    ensures { (result ≡ bytes_for bits) × (result ≤ bits) }
{
    bits.div_ceil(8)
}

// Whether sums of these stay far within 64 bits.
fn near(k: usize, n: usize) -> bool
    ensures { result ≡ (nat_lt k (2 ^ 36) && nat_lt n (2 ^ 36)) }
{
    (k < 0x10_0000_0000) & (n < 0x10_0000_0000)
}

// Whether the k bits, the place `from` and the n bits are whole bytes, and lie within an area and a slice so long.
fn whole(area: usize, k: usize, s: usize, from: usize, n: usize) -> bool
    ensures { result ≡ true → (k % 8 ≡ 0) × (from % 8 ≡ 0) × (n % 8 ≡ 0) × (k / 8 + n / 8 ≤ area) × (from / 8 + n / 8 ≤ s) }
{
    let even = k % 8 + from % 8 + n % 8 == 0;
    even && k / 8 + n / 8 <= area && from / 8 + n / 8 <= s
}

// n bits of s behind the k bits that stand packed at the area's front: whole bytes are copied, and otherwise the bytes that come new are
// zeros first.
fn append_front(area: &mut [u8], k: usize, s: &[u8], from: usize, n: usize)
    ensures { AppendIs 0 k s.now from n area.old area.new }
{
    if !near(k, n) {
        return;
    }
    if whole(area.len(), k, s.len(), from, n) {
        copy_bytes(area, k / 8, s, from / 8, n / 8);
        return;
    }
    let had = bytes_for(k);
    let has = bytes_for(k + n);
    super::literal_bits::zero_bytes(area, had, has - had);
    super::literal_bits::put_bits(area, k, s, from, n);
}

// The same at byte `at`: places of bits are counted from there, so that none can pass 64 bits.
pub(crate) fn append_bits(area: &mut [u8], at: usize, k: usize, s: &[u8], from: usize, n: usize)
    ensures { AppendIs at k s.now from n area.old area.new }
{
    if area.len() < at {
        return;
    }
    append_front(&mut area[at..], k, s, from, n);
}
