// Bytes, and numbers as bytes, written into a lent area.
ghost use Rattle.std.specs.Prelude.{◌≡◌, ◌+◌, ◌≤◌, length, take, drop};
ghost use Rattle.std.proofs.lemmas.List.Edits.{sets};
ghost use Rattle.definition.specs.Tree.{u32};
ghost use Rattle.stages.specs.answer.Blocks.{word_bytes};

// Byte by byte, as in `image::writer`: not by `copy_from_slice`, which may call memcpy, and which is wrong for a processor of 32 bits.
pub(crate) fn copy_bytes(area: &mut [u8], at: usize, s: &[u8], from: usize, n: usize)
    requires { (at + n ≤ length area.old) × (from + n ≤ length s.now) }
    ensures { area.new ≡ sets area.old at (take n (drop from s.now)) }
{
    for i in 0..n {
        area[at + i] = s[from + i];
    }
}

pub(crate) fn put_u32(area: &mut [u8], at: usize, n: u32)
    requires { at + 4 ≤ length area.old }
    ensures { area.new ≡ sets area.old at (u32 n) }
{
    copy_bytes(area, at, &n.to_le_bytes(), 0, 4);
}

pub(crate) fn put_u64(area: &mut [u8], at: usize, n: u64)
    requires { at + 8 ≤ length area.old }
    ensures { area.new ≡ sets area.old at (word_bytes n) }
{
    copy_bytes(area, at, &n.to_le_bytes(), 0, 8);
}
