//! The texts of paths, for messages.

use mp4_frame::FourCC;
use mp4_walk::{BoxPath, TreeBox};
use std::alloc::{AllocError, Global};

/// Adds `code` to `text` as a path has it: a character for each byte, or its number if that is not printed.
fn push_code(text: &mut String, code: FourCC) -> Result<(), AllocError> {
    for byte in code.value {
        if 0x20 <= byte && byte < 0x7f || byte >= 0xa0 {
            text.push(char::from(byte))?;
        } else {
            write!(text, "\\x{byte:02x}")?;
        }
    }
    Ok(())
}

/// Adds the number of boxes before a box to `text`, unless it is 0.
fn push_index(text: &mut String, index: u64) -> Result<(), AllocError> {
    if index > 0 {
        write!(text, "[{index}]")?;
    }
    Ok(())
}

/// Returns the text of `path`, such as `moov/trak[1]`.
pub(crate) fn path_text(alloc: Global, path: &BoxPath) -> Result<String, AllocError> {
    let mut text = String::new(alloc);
    for part in &path.parts {
        if !text.is_empty() {
            text.push('/')?;
        }
        push_code(&mut text, part.code)?;
        push_index(&mut text, part.index)?;
    }
    Ok(text)
}

/// Returns the number of the boxes before the box of number `index` that are in the same box and have the same code.
fn alike_before(boxes: &[TreeBox], index: usize) -> u64 {
    let mut count: u64 = 0;
    let mut at = index;
    if at >= boxes.len() {
        return 0;
    }
    let meant = boxes[at];
    while at > 0 {
        at -= 1;
        let found = boxes[at];
        if found.depth < meant.depth {
            return count;
        }
        if found.depth == meant.depth && found.code == meant.code {
            count = count.saturating_add(1);
        }
    }
    count
}

/// Returns the number of the box around the box of number `index`, if there is one.
fn parent_of(boxes: &[TreeBox], index: usize) -> Option<usize> {
    let mut at = index;
    if at >= boxes.len() {
        return None;
    }
    let depth = boxes[at].depth;
    while at > 0 {
        at -= 1;
        if boxes[at].depth < depth {
            return Some(at);
        }
    }
    None
}

/// Returns the text of the path of the box of number `index`.
pub fn text_of(alloc: Global, boxes: &[TreeBox], index: usize) -> Result<String, AllocError> {
    let mut text = String::new(alloc);
    let mut next = Some(index);
    // A box is in at most as many boxes as the walk enters.
    for _ in 0..64 {
        let Some(at) = next else {
            break;
        };
        if at >= boxes.len() {
            break;
        }
        let before = alike_before(boxes, at);
        let tail = text;
        text = String::new(alloc);
        if let Some(code) = boxes[at].code {
            push_code(&mut text, code)?;
        }
        push_index(&mut text, before)?;
        if !tail.is_empty() {
            text.push('/')?;
            text.push_str(tail.as_str())?;
        }
        next = parent_of(boxes, at);
    }
    Ok(text)
}
