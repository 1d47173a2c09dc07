// The run for C and Rust (include/layout.h, bindings/). The C interface gives modes, outcomes, refusals and places as numbers,
// 0 for none, and has the parameters side by side.
#![tactic(auto)]

mod outcome;
mod start;

ghost use Rattle.std.specs.Prelude.{◌≡◌};
ghost use Rattle.definition.specs.Check.{check_image};
ghost use Rattle.definition.specs.Run.{under, with_default};
ghost use Rattle.layout_c.specs.Code.{coded_on, coded_with, tokens_coded, listed_in};
ghost use Rattle.errors.specs.Refused.{number_in};

// The whole run, without a default: the answer's length, or, from 2^32 on, a refusal. The area at exit is the definition's.
#[unsafe(no_mangle)]
pub extern "C" fn layout_run(image: &[u8], mode: u32, area: &mut [u8]) -> u64
    ensures { (result, area.new) ≡ coded_on image.now (under mode) area.old }
{
    let ran = stages::run::run(image, mode, b"", area);
    crate::outcome::coded(ran.outcome)
}

// The same under a default, and where the starting value in force stands, as one number.
#[unsafe(no_mangle)]
pub extern "C" fn layout_run_with(
    image: &[u8],
    mode: u32,
    default: &[u8],
    area: &mut [u8],
    told: &mut u64,
) -> u64
    ensures { (result, area.new, told.new) ≡ coded_with image.now (with_default mode default.now) area.old }
{
    let ran = stages::run::run(image, mode, default, area);
    *told = crate::start::told(image, ran.start);
    crate::outcome::coded(ran.outcome)
}

// The text that the program `layout` prints for an input, one mode byte and an image: its length, or 0 where it is longer than the
// buffer, which then has the first part of it.
#[unsafe(no_mangle)]
pub extern "C" fn layout_listing(input: &[u8], out: &mut [u8]) -> usize
    ensures { (result, out.new) ≡ listed_in input.now out.old }
{
    output::answer(input, out).unwrap_or(0)
}

// The layout editor's tokens as an image: its length, or, from 2^32 on, a refusal. The area at exit is the definition's.
#[unsafe(no_mangle)]
pub extern "C" fn layout_tokens(list: &[u8], text: &[u8], area: &mut [u8]) -> u64
    ensures { (result, area.new) ≡ tokens_coded list.now text.now area.old }
{
    crate::outcome::coded(token_stream::token_stream_to_image(list, text, area))
}

// 0 for an image that passes document 01's check, else the refusal's number.
#[unsafe(no_mangle)]
pub extern "C" fn layout_check(image: &[u8]) -> u32
    ensures { result ≡ number_in (check_image image.now) }
{
    errors::number_of(image::check::check_image(image))
}
