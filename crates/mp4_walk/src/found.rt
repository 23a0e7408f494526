//! The box at a position of a level, or the reason why none can be read there.

ghost use Rattle.std.specs.Prelude.{◌≡◌, ◌+◌, ◌<◌, ◌≤◌, ◌&&◌, ◌||◌, nat_lt, length};
ghost use Rattle.mp4_frame.specs.Heads.{head, content_in};
ghost use Rattle.mp4_walk.specs.Found.{code_at, found_as, unread, found_of_head, found_of, later};
ghost use Rattle.mp4_walk.specs.Found.{content_begin, end_within};

use crate::level::Level;
use crate::tree_box::{BoxState, TreeBox};
use mp4_frame::{Error, FourCC, Frame, u32_at};

/// Returns the code of the box whose header starts `window`, or `None` if `window` has fewer than 8 bytes.
fn code_at(window: &[u8]) -> Option<FourCC>
    ensures { result ≡ code_at window.now 0 }
{
    if window.len() < 8 {
        return None;
    }
    Some(FourCC::from(u32_at(window, 4)))
}

/// Makes the box at position `at` of `level` from the other parameters. It has no `front` and no `children` yet.
fn found_as(
    level: Level,
    at: u64,
    code: Option<FourCC>,
    header_length: u64,
    length: u64,
    state: BoxState,
) -> TreeBox
    ensures { result ≡ found_as level at code header_length length state }
{
    TreeBox {
        depth: level.depth,
        code,
        position: at,
        header_length,
        length,
        front: None,
        children: None,
        state,
        context: level.context,
    }
}

/// Makes the item for bytes that cannot be read as a box: the rest of `level`, starting at `at`.
fn unread(level: Level, at: u64, code: Option<FourCC>, state: BoxState) -> TreeBox
    requires inside { at ≤ level.end }
    ensures { result ≡ unread level at code state }
{
    found_as(level, at, code, level.end - at, level.end - at, state)
}

/// Returns whether `size` is too small for a box at `depth`. At the top level, size 0 means up to the end of the file.
fn is_too_small(depth: u64, size: u64) -> bool
    ensures { result ≡ (nat_lt size 8 && (nat_lt 0 size || nat_lt 0 depth)) }
{
    size < 8 && (size > 0 || depth > 0)
}

/// Returns the box at position `at` of `level` whose header is `head`, or the reason why there is none.
fn found_of_head(level: Level, at: u64, head: Frame) -> TreeBox
    requires start { at ≤ head.start }
    requires content { content_in head ≤ level.end }
    ensures { result ≡ found_of_head level at head }
{
    let code = Some(FourCC::from(head.code));
    if is_too_small(level.depth, head.size) {
        return unread(level, at, code, BoxState::Small);
    }
    let header_length = head.content() - at;
    match head.within(level.end) {
        Ok(frame) => found_as(
            level,
            at,
            code,
            header_length,
            frame.end() - at,
            BoxState::Leaf,
        ),
        Err(_) => found_as(
            level,
            at,
            code,
            header_length,
            (head.start - at).saturating_add(head.size),
            BoxState::Cut,
        ),
    }
}

/// Returns the box at position `at` of `level`, or the reason why there is none. `window` is the bytes starting at
/// `at`.
pub fn found_at(window: &[u8], level: Level, at: u64) -> TreeBox
    requires inside { at < level.end }
    requires within { at + length window.now ≤ level.end }
    ensures found { result ≡ found_of level at (code_at window.now 0) (later at (head window.now 0).outcome) }
    ensures inside { (result.position ≡ at) × (0 < result.header_length)
        × (content_begin result ≤ end_within level result) }
    ensures near { content_begin result < end_within level result → result.header_length ≤ 16 }
{
    match Frame::at(window, 0) {
        Ok(head) => {
            let head = Frame {
                begin: head.begin + at,
                start: head.start + at,
                ..head
            };
            found_of_head(level, at, head)
        }
        Err(Error::IoError) => unread(level, at, code_at(window), BoxState::NoHeader),
        Err(_) => unread(level, at, code_at(window), BoxState::Small),
    }
}

/// Returns the position at which `found` ends, but at most the end of `level`.
pub fn end_within(level: Level, found: TreeBox) -> u64
    ensures { result ≡ end_within level found }
{
    found.position.saturating_add(found.length).min(level.end)
}
