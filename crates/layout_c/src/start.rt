// Where the starting value in force stands as one number, for callers in C. No From: neither InForce nor u64 is this crate's.
ghost use Rattle.std.specs.Prelude.{◌≡◌};
ghost use Rattle.stages.specs.in_force.InForce.{Lies};
ghost use Rattle.layout_c.specs.start.Told.{number_at};

use stages::in_force::InForce;

// 0 for nothing, 2^63 for the whole default, else its place in the image times 2^32, and its length.
pub(crate) fn told(image: &[u8], f: InForce) -> u64
    requires { Lies image.now f }
    ensures { result ≡ number_at f }
{
    match f {
        InForce::Nothing => 0,
        InForce::Image(at, length) => (at as u64) * 0x1_0000_0000 + (length as u64),
        InForce::Default => 0x8000_0000_0000_0000,
    }
}
