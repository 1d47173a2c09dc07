// What a run asks before the stages.
ghost use Rattle.std.specs.Prelude.{◌≡◌, nat_le};
ghost use Rattle.definition.specs.Limits.{area_needed};
ghost use Rattle.definition.specs.Image.{counts};
ghost use Rattle.definition.specs.Run.{under};
ghost use Rattle.errors.specs.Refused.{result_of};
ghost use Rattle.stages.specs.admission.Asked.{admitted_of};

use errors::{Reason, Refusal};

// Whether an area of this length has room for the answer of any image with these counts: 32 + 20·C + 72·N + B.
fn enough(image: &[u8], area: usize) -> bool
    ensures { result ≡ nat_le (area_needed (counts image.now).c (counts image.now).n (counts image.now).b) area }
{
    let c = image::token_tree::u32_at(image, 0) as usize;
    let n = image::token_tree::u32_at(image, 4) as usize;
    let b = image::token_tree::u32_at(image, 16) as usize;
    limits::HEAD_SIZE + limits::CONCATENATION_SIZE * c + limits::COMPONENT_SIZE * n + b <= area
}

// 1, the image check, 8. The mode is any number of 32 bits, as the C interface hands it over and the definition tests it.
pub(crate) fn admitted(image: &[u8], mode: u32, area: usize) -> Result<(), Refusal>
    ensures { result_of result ≡ admitted_of image.now (under mode) area }
{
    if 2 < mode {
        return Err(Reason::ModeAbove2.into());
    }
    image::check::check_image(image)?;
    if !enough(image, area) {
        return Err(Reason::ShortArea.into());
    }
    Ok(())
}
