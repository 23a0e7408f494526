//! The ways in which a box is read to be shown.

ghost use Rattle.std.specs.Prelude.{◌≡◌};
ghost use Rattle.mp4_content.specs.Kind.{entry_kind, is_another, leaf_kind, parent_kind, bytes_before, end_kind};
ghost use Rattle.mp4_content.specs.Kind.{kind_of};

use crate::shown::Shown;
use crate::terminator::may_end;
use mp4_frame::codes::{
    ALAC, DREF, FREE_FORM, GMHD, MEAN, META, MP4A, STSD, TAG_NAME, TEXT, URL, UUID, WAVE,
};
use mp4_stream::BoxType;
use mp4_walk::{BoxState, Front, TreeBox, WalkContext};

/// The way in which a box is read to be shown.
#[derive(Clone, Copy, Debug, PartialEq, Eq)]
pub enum Kind {
    /// Not at all: the box contains only boxes.
    Boxes,
    /// Not at all: the box is too deep.
    Deep,
    /// Not at all: boxes of this type are not read.
    Unread,
    /// Not at all: the box ends after the box around it or after the file, or has no header.
    Cut,
    /// Not at all: the size of the box is smaller than its header.
    Small,
    /// Whole, as a box with this name.
    Known(BoxType),
    /// As a data reference, whose location may not be UTF-8.
    Reference,
    /// Version and flags.
    Full,
    /// Version, flags and a count of boxes.
    List,
    /// The common fields of a sample entry.
    Entry,
    /// The common fields of a sample entry of video.
    Visual,
    /// The common fields of a sample entry of audio.
    Sound,
    /// The type of a `uuid` box.
    Uuid,
    /// The last four bytes of the box around. Four zero bytes are QuickTime's terminator.
    Terminator,
}

/// Returns how a sample entry with these fields before its boxes is read.
fn entry_kind(front: Option<Front>) -> Kind
    ensures { result ≡ entry_kind front }
{
    match front {
        Some(Front::VideoEntry) => Kind::Visual,
        Some(Front::SoundEntry | Front::QuickTimeSound1 | Front::QuickTimeSound2) => Kind::Sound,
        Some(Front::TextEntry) => Kind::Known(BoxType::Tx3gBox),
        _ => Kind::Entry,
    }
}

/// Returns whether a box with this `code` in `context` is another one than `mp4_extra` declares for the code: a sample
/// entry of Apple Lossless, a `text` outside of a `gmhd`, or a `mean` or `name` outside of an item of metadata.
fn is_another(code: u32, context: WalkContext) -> bool
    ensures { result ≡ is_another code context }
{
    if code == ALAC {
        context.parent == STSD
    } else if code == TEXT {
        context.parent != GMHD
    } else if code == MEAN || code == TAG_NAME {
        context.parent != FREE_FORM
    } else {
        false
    }
}

/// Returns how to read a box that the walk does not enter. It contains no boxes, or is too short for the fields before
/// them.
fn leaf_kind<B: Shown>(code: u32, front: Option<Front>, context: WalkContext) -> Kind
    ensures { result ≡ leaf_kind B.known code front context }
{
    let name = BoxType::from(code);
    if code == URL {
        Kind::Reference
    } else if code == UUID {
        Kind::Uuid
    } else if code == MP4A && context.parent == WAVE {
        Kind::Unread
    } else if !is_another(code, context) && B::knows(name) {
        Kind::Known(name)
    } else if context.parent == STSD {
        entry_kind(front)
    } else {
        Kind::Unread
    }
}

/// Returns how to read a box that the walk enters, with `before` bytes before its first child.
fn parent_kind(code: u32, front: Option<Front>, before: u64, context: WalkContext) -> Kind
    ensures { result ≡ parent_kind code front before context }
{
    if context.parent == STSD {
        entry_kind(front)
    } else if before >= 8 && (code == STSD || code == DREF) {
        Kind::List
    } else if before >= 4 && code == META {
        Kind::Full
    } else {
        Kind::Boxes
    }
}

/// Returns the number of content bytes before the first child of a box, or 0 if the walk does not enter it.
fn bytes_before(found: &TreeBox) -> u64
    ensures { result ≡ bytes_before found.now found.now.children }
{
    match found.children {
        Some(first) => first.saturating_sub(found.content_position()),
        None => 0,
    }
}

/// Returns how bytes without a whole header are read: as the last four bytes of a box that four zero bytes may end, or
/// as a cut box.
fn end_kind(length: u64, context: WalkContext) -> Kind
    ensures { result ≡ end_kind length context }
{
    if length == 4 && may_end(context) {
        Kind::Terminator
    } else {
        Kind::Cut
    }
}

/// Returns how the box `found` is read, if `B` is the type of the boxes that are read whole.
pub fn kind_of<B: Shown>(found: &TreeBox) -> Kind
    ensures { result ≡ kind_of B.known found.now }
{
    let Some(code) = found.code else {
        return end_kind(found.length, found.context);
    };
    match found.state {
        BoxState::Cut | BoxState::NoHeader => Kind::Cut,
        BoxState::Small => Kind::Small,
        BoxState::TooDeep => Kind::Deep,
        BoxState::Parent => parent_kind(
            u32::from(code),
            found.front,
            bytes_before(found),
            found.context,
        ),
        BoxState::Leaf => leaf_kind::<B>(u32::from(code), found.front, found.context),
    }
}
