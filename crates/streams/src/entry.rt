// Reading the entries of a file, each a head of a fixed length and the bytes whose number the head says.
ghost use Rattle.std.specs.Prelude.{◌≡◌, length, IfErr, IfOk};
ghost use Rattle.std.specs.Io.KnownBytes.{Consumes};
ghost use Rattle.streams.specs.NoEntry.{WhyNoHead, WhyNoPart};
ghost use Rattle.streams.specs.declared.entry.NoEntry.TheVariants.{Failed};

use crate::read_full;
use std::io;
use std::io::Read;

// Why an entry was not read.
#[derive(Clone, Copy)]
pub enum NoEntry {
    // not one byte is left
    End,
    // the bytes end within the entry, or it is too long for the buffer
    Cut,
    Failed(io::Error),
}

impl From<io::Error> for NoEntry {
    ghost from_gives = { λ error no_entry. no_entry ≡ Failed error };

    fn from(error: io::Error) -> NoEntry {
        NoEntry::Failed(error)
    }
}

// The next N bytes, the head of an entry.
pub fn read_head<R: Read, const N: usize>(from: &mut R) -> Result<[u8; N], NoEntry>
    ensures bytes { IfOk result (λ head. Consumes (R.remaining from.old) (R.remaining from.new) head) }
    ensures why { IfErr result (WhyNoHead (R.remaining from.old) (R.remaining from.new) N) }
{
    let mut head = [0; N];
    let got = read_full(from, &mut head)?;
    if got == N {
        Ok(head)
    } else if got == 0 {
        Err(NoEntry::End)
    } else {
        Err(NoEntry::Cut)
    }
}

// The next n bytes, of an entry whose head was read: so there is no end here. They are put at the front of buf.
pub fn read_part<'a, R: Read>(
    from: &mut R,
    buf: &'a mut [u8],
    n: usize,
) -> Result<&'a [u8], NoEntry>
    ensures bytes { IfOk result (λ part. (length part.now ≡ n) × Consumes (R.remaining from.old) (R.remaining from.new) part.now) }
    ensures why { IfErr result (WhyNoPart (R.remaining from.old) (R.remaining from.new) (length buf.old) n) }
{
    if n <= buf.len() && read_full(from, &mut buf[..n])? == n {
        Ok(&buf[..n])
    } else {
        Err(NoEntry::Cut)
    }
}
