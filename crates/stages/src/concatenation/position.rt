// The first of some items that passes a test.
ghost use Rattle.std.specs.Prelude.{◌≡◌, Bool, ◌+◌, ◌<◌, ◌^◌, length};
ghost use Rattle.definition.specs.Overall.{place_from};
ghost use Rattle.stages.specs.concatenation.Overall.{place_of};

// Its place, counted from n. One loop for three tests: std's `position` counts from 0 in a usize, and each caller would add and cast.
pub(crate) fn position<T: Copy, F: Fn(T) -> bool>(items: &[T], n: u32, test: F) -> Option<u32>
    requires few { n + length items.now < 2 ^ 32 }
    requires callable { (x : T) → F.pre test x }
    ensures { (p : T → Bool) → ((x : T) (b : Bool) → F.post test x b → b ≡ p x) → place_of result ≡ place_from p n items.now }
{
    for (i, item) in items.iter().enumerate() {
        if test(*item) {
            return Some(n + i as u32);
        }
    }
    None
}
