// Replays what the Rust answered. data/ holds what `target/release/layout-rust replay 2400 1 ../crates/run_replay/data` writes in
// differential/ (its README.md, "The files of `replay`"): inputs with the listing that the unchanged stages give them; pairs of inputs,
// the second with a fixed literal cut in pieces, with the listing of both; and inputs under a default, with the starting value in force.
// Each input is run over an area filled with a known pattern, and its listing is compared byte by byte; the area must hold the pattern
// beyond the answer, and everywhere after a refusal. An entry that is cut off or too long counts as different.
#![tactic(auto)]

mod compare;
mod counts;
mod entries;

ghost use Rattle.std.specs.Prelude.{◌≡◌, ◌+◌, ◌*◌, length};
ghost use Rattle.definition.specs.Limits.{max_input};
ghost use Rattle.listing_length.specs.run.Listing.{longest_listing};

use counts::{Came, Counts};
use std::io;
use std::io::Read;
use std::rt::Files;
use streams::{NoEntry, Reason};

// No two inputs and a listing have more bytes than these.
const ENTRY: usize = 2 * limits::MAX_INPUT + limits::MAX_LISTING;

fn entry_buffer() -> [u8; ENTRY]
    ensures { 2 * max_input + longest_listing ≡ length result }
{
    [0; ENTRY]
}

// All entries of a file, each read and compared by `entry`. Nothing says that a file ends, so the turns are counted up to a number that no
// run uses up. leaves_replay says why its own is another.
fn replay<F: Read, E>(from: &mut F, entry: E, counts: &mut Counts) -> io::Result<()>
where
    E: Fn(&mut F, &mut [u8]) -> Result<Option<Came>, NoEntry>,
    requires { E.IsAlwaysCallable entry }
{
    let mut buf = entry_buffer();
    for _ in 0..1_000_000u64 {
        match entry(from, &mut buf) {
            Ok(came) => counts.count(came),
            Err(NoEntry::Cut) => counts.count(None),
            Err(NoEntry::End) => break,
            Err(NoEntry::Failed(error)) => return Err(error),
        }
    }
    Ok(())
}

// A file that cannot be opened is named on standard error and counts as different, and the others are replayed all the same.
fn replay_file<R: Files + Eprint, E>(
    rt: &R,
    path: &str,
    entry: E,
    counts: &mut Counts,
) -> io::Result<()>
where
    E: Fn(&mut R::File, &mut [u8]) -> Result<Option<Came>, NoEntry>,
    requires { E.IsAlwaysCallable entry }
{
    match std::fs::open(rt, path) {
        Ok(mut from) => replay(&mut from, entry, counts),
        Err(error) => {
            counts.count(None);
            eprintln!(rt; "{path}: {}", Reason(error))
        }
    }
}

fn main(rt: HostRuntime) -> io::Result<()> {
    let mut counts = Counts::default();
    replay_file(&rt, "runs", entries::run, &mut counts)?;
    replay_file(&rt, "cuts", entries::cut, &mut counts)?;
    replay_file(&rt, "defaults", entries::default, &mut counts)?;
    counts.print(&rt)
}
