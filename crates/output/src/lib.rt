// What the program `layout` prints, on lent bytes: the program itself only reads and writes.
#![tactic(auto)]

ghost use Rattle.definition.specs.Prelude.{[]};
ghost use Rattle.definition.specs.Listing.{listing, output, program_area};
ghost use Rattle.definition.specs.Run.{under, run};
ghost use Rattle.listing.specs.Shown.{Shown};

use errors::Reason;

// The listing of one run, which has no default, in an area that is long enough for any image: an array, as there is no heap. The mode
// is a number, since the run is promised for every one.
fn listed(image: &[u8], mode: u32, out: &mut [u8]) -> Option<usize>
    ensures { Shown out.old (listing image.now (run image.now (under mode) program_area)) out.new result }
{
    let mut area = [0; limits::ANY_AREA];
    let ran = stages::run::run(image, mode, b"", &mut area);
    listing::write_listing(image, &area, ran.outcome, out)
}

// "Empty input is number 2."
fn write_empty(out: &mut [u8]) -> Option<usize>
    ensures { Shown out.old (output []) out.new result }
{
    listing::write_listing(b"", b"", Err(Reason::ShortImage.into()), out)
}

// The whole output for an input, one mode byte and an image: "input above 51,306 bytes is judged on its first 51,306, which no image
// can fill." The answer is its length, or None where it is longer than the buffer.
pub fn answer(input: &[u8], out: &mut [u8]) -> Option<usize>
    ensures { Shown out.old (output input.now) out.new result }
{
    match input {
        [] => write_empty(out),
        [mode, rest @ ..] => {
            let judged = &rest[..(limits::MAX_INPUT - 1).min(rest.len())];
            listed(judged, *mode as u32, out)
        }
    }
}
