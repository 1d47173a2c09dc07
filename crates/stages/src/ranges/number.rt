// The number that a text is.
ghost use Rattle.std.specs.Prelude.{◌≡◌, ◌+◌, ◌≤◌, length};
ghost use Rattle.definition.specs.Numbers.{try_parse};
ghost use Rattle.definition.specs.Image.{bytes_at};
ghost use Rattle.numbers.specs.Value.{option_of};

use numbers::I128;

// Of one byte or more. A text that begins above `9` is no number, as a variable's.
pub(crate) fn number_in(image: &[u8], p: usize, len: usize) -> Option<I128>
    requires { (1 ≤ len) × (p + len ≤ length image.now) }
    ensures { option_of result ≡ try_parse (bytes_at image.now p len) }
{
    if b'9' < image[p] {
        return None;
    }
    numbers::parse::i128_try_parse(&image[p..p + len])
}
