// The entries of `tokens`: five numbers of 4 bytes, the lengths of a list of tokens, of its text and of the lent area, 0 or the number of a
// refusal, and the length of the written image; list, text and image follow. same_outcome and judge are told 0 or the number as it stands there.
use errors::Refusal;
use image::token_tree::u32_at;
use std::io::Read;
use streams::{NoEntry, read_head, read_part, same_front};

// Some bytes more than any image needs: they are never lent.
const AREA: usize = 43200;

// What stands in the area before.
const BEFORE: u8 = 0xa5;

// Whether the bytes from place n on are as they were: slices, which are compared some bytes at once.
fn untouched(area: &[u8], n: usize) -> bool {
    area.get(n..) == [BEFORE; AREA].get(n..)
}

// Whether the outcome is the one told: the image stands in front and the bytes beyond it are as they were; or the number is this one, with
// no place, and all bytes are as they were.
fn same_outcome(area: &[u8], outcome: Result<usize, Refusal>, number: u32, image: &[u8]) -> bool {
    match outcome {
        Ok(n) => number == 0 && same_front(area, n, image) && untouched(area, n),
        Err(refusal) => refusal == errors::refuse(number) && untouched(area, 0),
    }
}

// A list and its text, over an area of so many bytes.
fn judge(list: &[u8], text: &[u8], lent: usize, number: u32, image: &[u8]) -> bool {
    let mut area = [BEFORE; AREA];
    let Some(room) = area.get_mut(..lent) else {
        return false;
    };
    let outcome = token_stream::token_stream_to_image(list, text, room);
    same_outcome(&area, outcome, number, image)
}

// The next entry: whether our own answer is equal. The head's numbers are read at their places: it is bytes of a file, as in run_replay.
pub(crate) fn entry<F: Read>(from: &mut F, buf: &mut [u8]) -> Result<bool, NoEntry> {
    let head: [u8; 20] = read_head(from)?;
    let list = u32_at(&head, 0) as usize;
    let text = u32_at(&head, 4) as usize;
    let lent = u32_at(&head, 8) as usize;
    let number = u32_at(&head, 12);
    let image = u32_at(&head, 16) as usize;
    let parts = read_part(from, buf, list + text + image)?;
    let (list, rest) = parts.split_at(list);
    let (text, image) = rest.split_at(text);
    Ok(judge(list, text, lent, number, image))
}
