// Bits moved between slices of bytes, a byte at a time, and bytes set to 0. Bit i of a slice is bit i % 8 of its byte i / 8.
// Nothing is asked of a caller: a byte that is missing counts as 0, and a bit that has no place is not written.
// Places are counted in bits, beside their slices: no slice begins within a byte.
ghost use Rattle.std.specs.Prelude.{◌≡◌, ◌+◌, ◌*◌, ◌/◌, ◌%◌, ◌^◌, ◌<◌, ◌≤◌, min, length, replicate};
ghost use Rattle.std.proofs.lemmas.List.Edits.{sets};
ghost use Rattle.stages.specs.answer.literal_bits.Put.{with_bits, put_bits};
ghost use Rattle.stages.specs.answer.literal_bits.Worth.{blended};
ghost use Rattle.stages.specs.answer.literal_bits.Places.{window};

use crate::answer::byte_bits::{byte_of, pair};
use image::token_tree::byte_at;

// The bits from a place on, eight of them or more.
fn bits_at(s: &[u8], from: usize) -> u16
    ensures { result ≡ window s.now from }
{
    let q = from / 8;
    pair(byte_at(s, q), byte_at(s, q + 1)) >> ((from % 8) as u16)
}

// A name for the power, for the bounds that the quotients of `blend` need.
fn two_to(k: usize) -> usize
    requires { k ≤ 8 }
    ensures { (result ≡ 2 ^ k) × (0 < result) }
{
    1 << k
}

// The byte `old`, its bits lo .. lo + w replaced by the lowest of `bits`.
fn blend(old: u8, bits: u16, lo: usize, w: usize) -> u8
    requires { (lo + w ≤ 8) × (blended old bits lo w < 256) }
    ensures { result ≡ blended old bits lo w }
{
    let byte = old as usize;
    let low = two_to(lo);
    let high = two_to(lo + w);
    (byte % low + low * ((bits as usize) % two_to(w)) + high * (byte / high)) as u8
}

// The first of n bits, those that fall into one byte: how many.
fn put_in(dst: &mut [u8], at: usize, src: &[u8], from: usize, n: usize) -> usize
    requires { at / 8 < length dst.old }
    ensures { (result ≤ n) × (0 < n → 0 < result) × (dst.new ≡ with_bits dst.old at src.now from result) }
{
    let q = at / 8;
    let lo = at % 8;
    let w = n.min(8 - lo);
    dst[q] = blend(dst[q], bits_at(src, from), lo, w);
    w
}

// m whole bytes, from byte q on, of a source that has them and one more.
fn put_whole(dst: &mut [u8], q: usize, src: &[u8], from: usize, m: usize)
    requires { (q + m ≤ length dst.old) × (from / 8 + m < length src.now) }
    ensures { dst.new ≡ with_bits dst.old (8 * q) src.now from (8 * m) }
{
    let k = from / 8;
    for i in 0..m {
        dst[q + i] = byte_of(src[k + i], src[k + i + 1], from);
    }
}

// How many bytes can be moved whole: of n bits to a place, with room for so many bytes, from a place in `len` bytes.
fn whole(at: usize, n: usize, room: usize, from: usize, len: usize) -> usize
    ensures { (result ≤ room) × (8 * result ≤ n) × (0 < result → (at % 8 ≡ 0) × (from / 8 + result < len)) }
{
    if at % 8 != 0 {
        return 0;
    }
    let k = from / 8;
    if len <= k {
        return 0;
    }
    (n / 8).min(room).min(len - 1 - k)
}

// The first of n bits, a byte's or those of all whole bytes: how many.
fn put_some(dst: &mut [u8], at: usize, src: &[u8], from: usize, n: usize) -> usize
    ensures { (result ≤ n) × (0 < n → 0 < result) × (dst.new ≡ with_bits dst.old at src.now from result) }
{
    let q = at / 8;
    if dst.len() <= q {
        return n;
    }
    let m = whole(at, n, dst.len() - q, from, src.len());
    if m == 0 {
        return put_in(dst, at, src, from, n);
    }
    put_whole(dst, q, src, from, m);
    8 * m
}

// Bits from .. from + n of src become bits at .. at + n of dst. Nothing where a place would pass 64 bits: that is asked, not the sum, so
// no `checked_add`. A step is as long as `put_some` says, so the loop is no `for`.
pub(crate) fn put_bits(dst: &mut [u8], at: usize, src: &[u8], from: usize, n: usize)
    ensures { dst.new ≡ put_bits dst.old at src.now from n }
{
    if usize::MAX - n < at {
        return;
    }
    if usize::MAX - n < from {
        return;
    }
    let mut i = 0;
    while i < n {
        i += put_some(dst, at + i, src, from + i, n - i);
    }
}

// n bytes from a place are 0.
pub(crate) fn zero_bytes(dst: &mut [u8], at: usize, n: usize)
    ensures { dst.new ≡ sets dst.old at (replicate n 0) }
{
    if dst.len() <= at {
        return;
    }
    let m = n.min(dst.len() - at);
    dst[at..at + m].fill(0);
}
