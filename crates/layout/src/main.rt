// The program of document 01: reads one mode byte and an image, and prints the listing. What it prints for an input is proved of
// `output::answer`; here it is only read and written.
//
// It reads standard input, or the file that its one argument names. Where a file cannot be opened, or a read or a write fails, the reason
// goes to standard error. After a failed read nothing is printed. The exit status is 0 even then. Standard output gets nothing but a
// listing, so that a script can go by its first word; the words for who asks what is read go to standard error.
#![tactic(auto)]

ghost use Rattle.std.specs.Prelude.{◌≡◌, length, take, IfErr, IfOk, IfSome, OnOk};
ghost use Rattle.std.specs.Io.{ReadsAtMost};
ghost use Rattle.std.specs.Io.KnownBytes.{Appends, Keeps};
ghost use Rattle.definition.specs.Limits.{max_input};
ghost use Rattle.definition.specs.Listing.{output};
ghost use Rattle.layout.specs.Failure.{IfUnread};
ghost use Rattle.listing_length.specs.run.Listing.{longest_listing};

use std::env::FillError;
use std::fs::File;
use std::io;
use std::io::{IsTerminal, Read, Write};
use std::rt::{Env, Files};
use streams::Reason;

// The C library's numbers of three reasons that are this program's own to give.
const EINVAL: i32 = 22;

const ENAMETOOLONG: i32 = 36;

const EILSEQ: i32 = 84;

// A name that fills more than these bytes is longer than any path.
const PATH_MAX: usize = 4096;

// What failed, and why: opening or reading the input, or printing.
#[derive(Clone, Copy)]
enum Failure {
    Input(io::Error),
    Output(io::Error),
}

// No more than these bytes of an input are looked at. No heap: each buffer is an array, and a function so that a clause says its length.
fn input_buffer() -> [u8; limits::MAX_INPUT]
    ensures { max_input ≡ length result }
{
    [0; limits::MAX_INPUT]
}

// No listing is longer.
fn listing_buffer() -> [u8; limits::MAX_LISTING]
    ensures { longest_listing ≡ length result }
{
    [0; limits::MAX_LISTING]
}

// Reads until buf is full, the input ends or a read fails.
fn read_input<I: Read>(from: &mut I, buf: &mut [u8]) -> io::Result<usize>
    ensures bound { ReadsAtMost result buf.new }
    ensures front { IfOk result (λ n. IfSome (I.remaining from.old) (λ input. take n buf.new ≡ take (length buf.new) input)) }
{
    streams::read_full(from, buf)
}

// The line that says of what name stands for why it failed.
fn write_reason(err: &mut impl Write, name: &[u8], error: io::Error) -> io::Result<()> {
    err.write_all(b"layout: ")?;
    err.write_all(name)?;
    writeln!(err, ": {}", Reason(error))
}

fn print_listing<O: Write>(out: &mut O, listing: &[u8]) -> io::Result<()>
    ensures { OnOk result (Appends (O.contents out.old) (O.contents out.new) listing.now) }
{
    out.write_all(listing)
}

// Answers an input. Its listing is never cut, since none is longer than the buffer.
fn answer<O: Write>(out: &mut O, input: &[u8]) -> io::Result<()>
    ensures { OnOk result (Appends (O.contents out.old) (O.contents out.new) (output input.now)) }
{
    let mut listing = listing_buffer();
    let n = output::answer(input, &mut listing).unwrap();
    print_listing(out, &listing[..n])
}

// Answers what there is to read. After a failed read nothing is printed.
fn answer_open<I: Read, O: Write>(from: &mut I, out: &mut O) -> Result<(), Failure>
    ensures printed { OnOk result (IfSome (I.remaining from.old) (λ input. Appends (O.contents out.old) (O.contents out.new) (output input))) }
    ensures unread { IfErr result (λ failure. IfUnread failure (Keeps (O.contents out.old) (O.contents out.new))) }
{
    let mut buf = input_buffer();
    let n = read_input(from, &mut buf).map_err(Failure::Input)?;
    answer(out, &buf[..n]).map_err(Failure::Output)
}

// Opens a file for reading. std takes a file's name as text alone, so a name that is not UTF-8 is refused.
fn open<F: Files>(files: &F, name: &[u8]) -> io::Result<F::File> {
    let name = std::str::from_utf8(name).map_err(|_| io::Error::from_raw_os_error(EILSEQ))?;
    File::open(files, name)
}

fn answer_file(files: &impl Files, out: &mut impl Write, name: &[u8]) -> Result<(), Failure> {
    let mut file = open(files, name).map_err(Failure::Input)?;
    answer_open(&mut file, out)
}

// Why an argument was not copied. No From: both types are std's.
fn argument_error(error: FillError) -> io::Error {
    match error {
        FillError::NotPresent => io::Error::from_raw_os_error(EINVAL),
        FillError::TooLong => io::Error::from_raw_os_error(ENAMETOOLONG),
    }
}

// The two lines that say what is read.
const HELP: &[u8] =
    b"layout [FILE]: prints the listing of one mode byte (0, 1, 2) and a prepared image, from FILE or standard input.\n\
A line of text is read by ./line; docs/FORMAT.md has the image's bytes, README.md the listing and the numbers.\n";

// Where the program reads, prints and says what failed. Where that cannot be written either, nobody is left to tell.
#[derive(Drop)]
struct Streams<I, O, E> {
    input: I,
    out: O,
    err: E,
}

impl<I: Read, O: Write, E: Write> Streams<I, O, E> {
    fn help(&mut self) {
        let _ = self.err.write_all(HELP);
    }

    // Says of what name stands for why it failed, or of standard output.
    fn fail(&mut self, name: &[u8], failure: Failure) {
        let _ = match failure {
            Failure::Input(error) => write_reason(&mut self.err, name, error),
            Failure::Output(error) => write_reason(&mut self.err, b"standard output", error),
        };
    }

    // Says why, where an answer failed.
    fn tell(&mut self, name: &[u8], answered: Result<(), Failure>) {
        if let Err(failure) = answered {
            self.fail(name, failure);
        }
    }

    // Answers standard input.
    fn answer_input(&mut self) {
        let answered = answer_open(&mut self.input, &mut self.out);
        self.tell(b"standard input", answered);
    }

    // Answers an argument: a file's name, or `-` for standard input. What else begins with `-` asks for help, as `--help` (a file of such a
    // name is given as `./-name`).
    fn answer_named(&mut self, files: &impl Files, name: &[u8]) {
        match name {
            [b'-'] => self.answer_input(),
            [b'-', ..] => self.help(),
            _ => {
                let answered = answer_file(files, &mut self.out, name);
                self.tell(name, answered);
            }
        }
    }

    // Answers the program's one argument. One that is longer than any path is not cut short: it would name another file.
    fn answer_argument(&mut self, rt: &(impl Env + Files)) {
        let mut name = [0u8; PATH_MAX];
        match rt.arg(1, &mut name) {
            Ok(n) => self.answer_named(rt, &name[..n]),
            Err(error) => self.fail(b"the argument", Failure::Input(argument_error(error))),
        }
    }
}

// Whether the program was started with so many arguments, its own name not counted.
fn has_arguments(env: &impl Env, count: usize) -> bool {
    let mut name = [0u8; 1];
    !matches!(env.arg(count, &mut name), Err(FillError::NotPresent))
}

fn main(rt: HostRuntime) {
    let mut streams = Streams {
        input: rt.stdin(),
        out: rt.stdout(),
        err: rt.stderr(),
    };
    if has_arguments(&rt, 2) {
        streams.help();
    } else if has_arguments(&rt, 1) {
        streams.answer_argument(&rt);
    } else if streams.input.is_terminal() {
        streams.help();
    } else {
        streams.answer_input();
    }
}
