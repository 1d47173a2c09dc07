// What the programs share of reading, of comparing, and of saying why a call failed, over std's readers and writers. It allocates nothing.
#![tactic(auto)]

mod entry;

ghost use Rattle.std.specs.Prelude.{◌≡◌, ◌⊎◌, ◌↔◌, ◌≤◌, true, length, take, IfOk};
ghost use Rattle.std.specs.Io.{ReadsAtMost};
ghost use Rattle.std.specs.Io.KnownBytes.{Consumes, IsAtEnd};

pub use entry::{NoEntry, read_head, read_part};
use std::io::{Read, Write};
use std::{fmt, io};

// Reads until buf is full or the reader ends, and answers how many bytes it put at the start of buf. Where a read fails, the bytes of the
// reads before it are lost.
pub fn read_full<R: Read>(from: &mut R, buf: &mut [u8]) -> io::Result<usize>
    ensures bound { ReadsAtMost result buf.new }
    ensures bytes { IfOk result (λ n. Consumes (R.remaining from.old) (R.remaining from.new) (take n buf.new)) }
    ensures end { IfOk result (λ n. (n ≡ length buf.new) ⊎ IsAtEnd (R.remaining from.new)) }
{
    let mut done = 0;
    // no `for`: a read says itself how far it came
    while done < buf.len() {
        let more = from.read(&mut buf[done..])?;
        if more == 0 {
            break;
        }
        done += more;
    }
    Ok(done)
}

// Whether the first n bytes are these.
pub fn same_front(bytes: &[u8], n: usize, told: &[u8]) -> bool
    ensures { (result ≡ true) ↔ ((n ≤ length bytes.now) × (take n bytes.now ≡ told.now)) }
{
    bytes.get(..n) == Some(told)
}

// Why a call of the system failed, in the C library's words. What std prints has the error's number after them.
#[derive(Clone, Copy)]
pub struct Reason(pub io::Error);

// More bytes than any error prints: a fixed buffer, as there is no heap.
const TEXT: usize = 512;

impl fmt::Display for Reason {
    fn fmt<W: fmt::Write>(&self, f: &mut fmt::Formatter<W>) -> fmt::Result {
        let error = self.0;
        let mut text = [0u8; TEXT];
        let mut room: &mut [u8] = &mut text;
        write!(room, "{error}").map_err(|_| fmt::Error)?;
        let left = room.len();
        f.write_str(words(&text, left))
    }
}

// What stands before the number in a text, whose last bytes are unused.
fn words(text: &[u8], unused: usize) -> &str {
    let n = text.len().saturating_sub(unused);
    let shown = std::str::from_utf8(&text[..n]).unwrap_or("");
    shown
        .split_once(" (os error ")
        .map_or(shown, |(words, _)| words)
}

#[cfg(test)]
mod tests {
    use super::*;
    use std::test::Fail;

    #[test]
    fn reasons_have_no_number(rt: HostRuntime) -> Result<(), Fail> {
        let missing = Reason(io::Error::from_raw_os_error(2));
        assert_eq!(rt;
            format!(in rt.alloc(); "{missing}")?.as_str(),
            "No such file or directory"
        );
        let short = Reason(io::Error::new(io::ErrorKind::WriteZero, "nothing was written"));
        assert_eq!(rt;
            format!(in rt.alloc(); "{short}")?.as_str(),
            "nothing was written"
        );
        Ok(())
    }
}
