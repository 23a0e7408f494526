//! The fields before the boxes of a container, by the rule of `mp4_walk`. A tree knows a box, and nothing around it.

ghost use Rattle.std.specs.Prelude.{◌≡◌, length};
ghost use Rattle.mp4_walk.specs.Peek.{peek};
ghost use Rattle.mp4_box_tree.specs.Fronts.{context_of, front_in, is_parent, width_in, audio_fields};
ghost use Rattle.mp4_box_tree.specs.Fronts.{handler_of, is_entry, is_other_entry, is_sound_entry, is_video_entry};
ghost use Rattle.mp4_box_tree.specs.Fronts.{parent_of};

use crate::entry_codes::{is_item, is_more_sound, is_more_video};
use mp4_frame::codes::{GMHD, ILST, MP4S, SOUN, STSD, TMCD, TX3G, URIM, VIDE, WVTT};
use mp4_walk::{
    Front, NO_CONTENT, Peek, WalkContext, front_of, is_sound, is_video, peek_at, sound_front,
};

/// Returns whether boxes with this `code` are video entries.
#[tactic(auto, unfolding(crate::specs::Fronts::is_video_entry))]
pub(crate) fn is_video_entry(code: u32) -> bool
    ensures { result ≡ is_video_entry code }
{
    is_video(code) || is_more_video(code)
}

/// Returns whether boxes with this `code` are sound entries.
#[tactic(auto, unfolding(crate::specs::Fronts::is_sound_entry))]
pub(crate) fn is_sound_entry(code: u32) -> bool
    ensures { result ≡ is_sound_entry code }
{
    is_sound(code) || is_more_sound(code)
}

/// Returns whether boxes with this `code` are other entries that hold boxes.
fn is_other_entry(code: u32) -> bool
    ensures { result ≡ is_other_entry code }
{
    matches!(code, TX3G | WVTT | MP4S | URIM)
}

/// Returns whether boxes with this `code` are sample entries that hold boxes.
fn is_entry(code: u32) -> bool
    ensures { result ≡ is_entry code }
{
    is_video_entry(code) || (is_sound_entry(code) || is_other_entry(code))
}

/// Returns the code of the box in which boxes with this `code` hold boxes, or 0 if that does not matter.
fn parent_of(code: u32) -> u32
    ensures { result ≡ parent_of code }
{
    if is_entry(code) {
        STSD
    } else if is_item(code) {
        ILST
    } else if code == TMCD {
        GMHD
    } else {
        0
    }
}

/// Returns the handler of media with entries of this `code`, or 0 if there is none.
fn handler_of(code: u32) -> u32
    ensures { result ≡ handler_of code }
{
    if is_video_entry(code) {
        VIDE
    } else if is_sound_entry(code) {
        SOUN
    } else {
        0
    }
}

/// Returns the context in which a tree reads a box with this `code`. The code of an entry or of an item means that the
/// box is one, in an `stsd` of version 0 or in an `ilst`.
fn context_of(code: u32) -> WalkContext
    ensures { result ≡ context_of code }
{
    WalkContext {
        parent: parent_of(code),
        handler: handler_of(code),
        stsd_version: 0,
    }
}

/// Returns whether a `Container` holds boxes with this `code`.
#[tactic(auto, unfolding(crate::specs::Fronts::is_parent))]
pub fn is_parent(code: u32) -> bool
    ensures { result ≡ is_parent code }
{
    front_of(context_of(code), code, NO_CONTENT).is_some()
}

/// Returns the first numbers of `content`.
fn peek_of(content: &[u8]) -> Peek
    ensures { result ≡ peek content.now 0 (length content.now) }
{
    peek_at(content, 0, content.len() as u64)
}

/// Returns the fields before the boxes in the `content` of a container with this `code`.
fn front_in(code: u32, content: &[u8]) -> Option<Front>
    ensures { result ≡ front_in code content.now }
{
    front_of(context_of(code), code, peek_of(content))
}

/// Returns the number of bytes before the boxes in the `content` of a container with this `code`.
#[tactic(auto, unfolding(crate::specs::Fronts::width_in))]
pub(crate) fn width_in(code: u32, content: &[u8]) -> usize
    ensures { result ≡ width_in code content.now }
{
    match front_in(code, content) {
        Some(front) => front.length() as usize,
        None => 0,
    }
}

/// Returns the number of bytes of the fields of a sound entry, by its version in this `content`.
#[tactic(auto, unfolding(crate::specs::Fronts::audio_fields))]
pub(crate) fn audio_fields(content: &[u8]) -> usize
    ensures { result ≡ audio_fields content.now }
{
    sound_front(0, peek_of(content).entry_version).length() as usize
}
