// FillerAlign, and how the alignment of one concatenation joins the overall one.
ghost use Rattle.std.specs.Prelude.{◌≡◌, not, ◌&&◌};
ghost use Rattle.definition.specs.Concatenation.{align_number, is_align, align_of as placed_align};
ghost use Rattle.definition.specs.Overall.{join_align, is_sided};
ghost use Rattle.stages.specs.concatenation.alignment.Align.{align_of};

#[derive(Clone, Copy, Debug, PartialEq, Eq)]
pub enum FillerAlign {
    None,
    Single,
    Lsb,
    Msb,
    Mid,
    Multiple,
}

// 0 to 5, as in the answer: a name for the cast, which says that it is the definition's number.
pub(crate) fn align_number(a: FillerAlign) -> u32
    ensures { result ≡ align_number (align_of a) }
{
    a as u32
}

// What an unbounded filler gives, by whether it is the first and the last component.
pub(crate) fn filler_align(first: bool, last: bool) -> FillerAlign
    ensures { align_of result ≡ placed_align first last }
{
    match (first, last) {
        (true, true) => FillerAlign::Single,
        (true, false) => FillerAlign::Lsb,
        (false, true) => FillerAlign::Msb,
        (false, false) => FillerAlign::Mid,
    }
}

// None stays none; a filler standing alone takes the other's; two that differ are multiple.
pub(crate) fn join_align(overall: FillerAlign, this: FillerAlign) -> FillerAlign
    ensures { align_of result ≡ join_align (align_of overall) (align_of this) }
{
    match (overall, this) {
        (FillerAlign::None, _) | (_, FillerAlign::None) => FillerAlign::None,
        (FillerAlign::Single, _) => this,
        (_, FillerAlign::Single) => overall,
        _ if overall == this => overall,
        _ => FillerAlign::Multiple,
    }
}

// Neither none nor single.
fn is_sided(a: FillerAlign) -> bool
    ensures { result ≡ is_sided (align_of a) }
{
    !matches!(a, FillerAlign::None | FillerAlign::Single)
}

pub(crate) fn is_opposite(a: FillerAlign, b: FillerAlign) -> bool
    ensures { result ≡ (is_sided (align_of a) && is_sided (align_of b) && not (is_align (align_of a) (align_of b))) }
{
    is_sided(a) & is_sided(b) & (a != b)
}
