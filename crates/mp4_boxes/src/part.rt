//! The boxes whose headers are in a part of the input.

ghost use Rattle.std.specs.Prelude.{◌≡◌, ◌≢◌, ◌+◌, ◌<◌, ◌≤◌, ◌^◌, ℕ, List, length, IfOk, IfErr, IfSome, IfNone};
ghost use Rattle.mp4_frame.specs.declared.error.Error.TheVariants.{IoError};
ghost use Rattle.mp4_frame.specs.Heads.{content_in};
ghost use Rattle.mp4_boxes.specs.Parts.{HasPart, HeadIn, IsFew, LinesTo, ListsTo};

use crate::line::push_line;
use mp4_frame::{BoxType, Error, Frame, Result};

/// The box after those that are listed.
#[derive(Clone, Copy, Debug)]
pub enum Next {
    /// The box at this offset, whose header is not read yet or not whole. At the end of the input there is none.
    Box(u64),
    /// The last box, at this offset and with this name, which extends to the end of the input.
    Last(u64, BoxType),
}

/// Returns the head of the box at the offset `at` of the input, or `None` if `part`, which is at the offset `from`,
/// ends before the header does.
fn head_in(part: &[u8], from: u64, at: u64) -> Result<Option<Frame>>
    requires room { from + length part.now < 2 ^ 64 }
    requires within { from ≤ at }
    ensures head { (B rest : List ℕ) → HasPart B from part.now rest → HeadIn B (from + length part.now) at result }
    ensures begins { IfOk result (λ found. IfSome found (λ h. (h.begin ≡ at) × (at ≤ h.start))) }
    ensures room { IfOk result (λ found. IfSome found (λ h. content_in h ≤ from + length part.now)) }
    ensures few { IfOk result (λ found. IfNone found (from + length part.now < at + 16)) }
    ensures whole { IfErr result (λ e. e ≢ IoError) }
{
    match Frame::at(part, at - from) {
        Ok(head) => Ok(Some(Frame {
            begin: from + head.begin,
            start: from + head.start,
            ..head
        })),
        Err(e) => match e {
            Error::IoError => Ok(None),
            e => Err(e),
        },
    }
}

/// Appends the lines of the boxes starting at the offset `next` whose headers are in `part`, which is at the offset
/// `from` of the input. The error is a fault of a header that is whole.
pub fn list_part(lines: &mut Vec<u8>, part: &[u8], from: u64, mut next: u64) -> Result<Next>
    requires room { from + length part.now < 2 ^ 64 }
    requires within { from ≤ next }
    ensures few { IfOk result (λ after. IsFew (from + length part.now) next after) }
    ensures lines { (B rest : List ℕ) → HasPart B from part.now rest → LinesTo B lines.old.items next
        → ListsTo B (from + length part.now) lines.new.items result }
    ensures whole { IfErr result (λ e. e ≢ IoError) }
{
    let read = from + part.len() as u64;
    while next < read {
        let found = head_in(part, from, next)?;
        let head = match found {
            Some(head) => head,
            None => return Ok(Next::Box(next)),
        };
        if head.size == 0 {
            return Ok(Next::Last(next, head.name()));
        }
        let frame = head.within(u64::MAX)?;
        push_line(lines, frame.span())?;
        next = frame.end();
    }
    Ok(Next::Box(next))
}
