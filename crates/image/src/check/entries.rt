// 5: concatenation and component entries, their sums, and the literals' spare bits.
ghost use Rattle.std.specs.Prelude.{◌≡◌, ◌+◌, ◌*◌, ◌^◌, ◌≤◌, length};
ghost use Rattle.definition.specs.Basics.{tab};
ghost use Rattle.definition.specs.Image.{u32_at, tables};
ghost use Rattle.definition.specs.Check.{entries_right};
ghost use Rattle.image.specs.check.Parts.{Laid, sizes_right, widths_right, spare_zero};

use crate::token_tree::{Counts, Tables};
use crate::words::{byte_at, four_at};

// Whether n numbers, `step` bytes apart, are each at least 1 and have this sum.
fn sizes_right(image: &[u8], from: usize, step: usize, n: u32, total: u32) -> bool
    requires { (4 ≤ step) × (from + step * n ≤ length image.now) }
    ensures { result ≡ sizes_right 0 (tab (λ i. u32_at image.now (from + step * i)) 0 n) total }
{
    let mut right = true;
    let mut sum = 0;
    for k in 0..n as usize {
        let size = four_at(image, from + step * k);
        right &= 1 <= size;
        sum += size as u64;
    }
    right & (sum == (total as u64))
}

// Whether the bits of a literal's last byte above the width are zero. A width of whole bytes has none, and no byte is read.
fn spare_right(image: &[u8], at: usize, w: u32) -> bool
    requires { at ≤ 2 ^ 62 }
    ensures { result ≡ spare_zero image.now at w }
{
    if w % 8 == 0 {
        return true;
    }
    let last = byte_at(image, at + (w as usize) / 8);
    (last as u32) < (1u32 << (w % 8))
}

// Whether the literals of n components have a right width, zero spare bits, and together this many bytes.
fn widths_right(image: &[u8], components: usize, literals: usize, n: u32, total: u32) -> bool
    requires { (literals ≡ (tables image.now).literals) × (components + 8 * n ≤ length image.now) × (literals ≤ 2 ^ 40) }
    ensures { result ≡ widths_right image.now 0 (tab (λ i. u32_at image.now (components + 8 * i + 4)) 0 n) total }
{
    let mut right = true;
    let mut l = 0;
    for k in 0..n as usize {
        let w = four_at(image, components + 8 * k + 4);
        right &= (w <= limits::WIDTH) & spare_right(image, literals + l, w);
        l += (w as usize).div_ceil(8);
    }
    right & (l == (total as usize))
}

pub(crate) fn entries_right(image: &[u8], h: Counts, at: Tables) -> bool
    requires { Laid image.now h at }
    ensures { result ≡ entries_right image.now }
{
    sizes_right(image, 40, 4, h.c, h.n)
        & sizes_right(image, at.components, 8, h.n, h.r)
        & widths_right(image, at.components, at.literals, h.n, h.b)
}
