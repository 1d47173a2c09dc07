// Replays what the Rust answered. data/ holds what `target/release/layout-rust leaves 2000 1 ../crates/leaves_replay/data` writes in
// differential/ (its README.md, "The files of `leaves`"): texts with the number that the unchanged i128_try_parse reads in them, images
// with the number that document 01's check gives them, and lists of tokens with the image that the unchanged token_stream_to_ast makes
// of them. Each entry is read, asked of our own code and compared; an entry that is cut off or too long counts as different.
// The files give lengths, numbers of refusals and `found`, 1 or 0, as bytes, which agree, same_image and the entries read and compare as such.
#![tactic(auto)]

mod tokens;

ghost use Rattle.std.specs.Prelude.{◌≡◌, true, ◌≤◌, eqb};
ghost use Rattle.definition.specs.Numbers.{try_parse};
ghost use Rattle.definition.specs.Check.{check_image};
ghost use Rattle.errors.specs.Refused.{number_in};
ghost use Rattle.leaves_replay.specs.Told.{u64_at, told, agrees};

use numbers::I128;
use std::io;
use std::io::Read;
use std::rt::Files;
use streams::{NoEntry, Reason, read_head, read_part};

#[derive(Clone, Copy, Default)]
struct Tally {
    equal: u64,
    different: u64,
}

impl Tally {
    fn print(self, rt: &impl Print, path: &str) -> io::Result<()> {
        println!(rt; "{path} {} equal {} different", self.equal, self.different)
    }
}

// 8 bytes, the lowest first. Not u64::from_le_bytes, which takes an array, cut out of the slice first.
fn u64_at(s: &[u8], at: usize) -> u64
    requires { at ≤ 9 }
    ensures { result ≡ u64_at s.now at }
{
    (image::token_tree::u32_at(s, at) as u64)
        + 0x1_0000_0000 * (image::token_tree::u32_at(s, at + 4) as u64)
}

fn agree(o: Option<I128>, found: u8, told: I128) -> bool
    ensures { result ≡ agrees o found told }
{
    match o {
        Some(x) => found == 1 && x == told,
        None => found == 0 && told == I128::ZERO,
    }
}

// Whether the text reads as the answer says.
fn same_number(text: &[u8], answer: &[u8]) -> bool
    ensures { result ≡ true → try_parse text.now ≡ told answer.now }
{
    let told = I128 {
        high: u64_at(answer, 9),
        low: u64_at(answer, 1),
    };
    let found = image::token_tree::byte_at(answer, 0);
    agree(numbers::parse::i128_try_parse(text), found, told)
}

// Whether the check gives this number.
fn same_image(image: &[u8], told: u8) -> bool
    ensures { result ≡ eqb (number_in (check_image image.now)) told }
{
    errors::number_of(image::check::check_image(image)) == told as u32
}

// `from` and `buf` stand side by side: a method of both would lend both, and what was read lies in buf while the rest is read.
// The next entry of `numbers`, the text's length in 2 bytes, the text and the answer: whether our own is equal.
fn number_entry<F: Read>(from: &mut F, buf: &mut [u8]) -> Result<bool, NoEntry> {
    let length = u16::from_le_bytes(read_head(from)?);
    let text = read_part(from, buf, length as usize)?;
    let mut answer = [0u8; 17];
    read_part(from, &mut answer, 17)?;
    Ok(same_number(text, &answer))
}

// Not one with number_entry: length, answer and comparison all differ, and what is left is two calls.
// The next entry of `images`, the image's length in 4 bytes, the image and the number that the check gives it.
fn image_entry<F: Read>(from: &mut F, buf: &mut [u8]) -> Result<bool, NoEntry> {
    let length = u32::from_le_bytes(read_head(from)?);
    let image = read_part(from, buf, length as usize)?;
    let mut answer = [0u8; 1];
    read_part(from, &mut answer, 1)?;
    Ok(same_image(image, answer[0]))
}

// All entries of a file, each read and compared by `entry`. Nothing says that a file ends, so the turns are counted up to a number that no
// run uses up. This and replay_file are like run_replay's, whose entries come to more than equal or different: shared ones would be told how
// to count, and what to do where a file is missing.
fn replay<F: Read, E>(from: &mut F, entry: E, buf: &mut [u8]) -> io::Result<Tally>
where
    E: Fn(&mut F, &mut [u8]) -> Result<bool, NoEntry>,
    requires { E.IsAlwaysCallable entry }
{
    let mut tally = Tally::default();
    for _turn in 0..1_000_000u64 {
        match entry(from, buf) {
            Ok(true) => tally.equal += 1,
            Ok(false) | Err(NoEntry::Cut) => tally.different += 1,
            Err(NoEntry::End) => break,
            Err(NoEntry::Failed(error)) => return Err(error),
        }
    }
    Ok(tally)
}

// A file that cannot be opened is named on standard error, and the others are replayed all the same.
fn replay_file<R: Files + Print + Eprint, E>(
    rt: &R,
    path: &str,
    entry: E,
    buf: &mut [u8],
) -> io::Result<()>
where
    E: Fn(&mut R::File, &mut [u8]) -> Result<bool, NoEntry>,
    requires { E.IsAlwaysCallable entry }
{
    match std::fs::open(rt, path) {
        Ok(mut from) => {
            let tally = replay(&mut from, entry, buf)?;
            tally.print(rt, path)
        }
        Err(error) => eprintln!(rt; "{path}: {}", Reason(error)),
    }
}

fn main(rt: HostRuntime) -> io::Result<()> {
    let mut buf = [0u8; limits::MAX_INPUT];
    replay_file(&rt, "numbers", number_entry, &mut buf)?;
    replay_file(&rt, "images", image_entry, &mut buf)?;
    replay_file(&rt, "tokens", tokens::entry, &mut buf)
}
