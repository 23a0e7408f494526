//! The content of a box that is shown.

ghost use Rattle.std.specs.Prelude.{◌≡◌, ◌-◌, ◌≤◌, ◌∷◌, [], false, length, min, IsTrue, IfOk, OnOk, IfSome};
ghost use Rattle.mp4_show.specs.FrontFields.{sound_fields, usertype_fields};
ghost use Rattle.mp4_shown.specs.Event.{shown_of};
ghost use Rattle.mp4_shown.specs.Hands.{Hands};
ghost use Rattle.mp4_shown.specs.declared.value.Value.{Value as AValue};
ghost use Rattle.uuid.specs.Text.{hyphenated_text, lower};
ghost use Rattle.mp4_frame.specs.Reading.{Answers};
ghost use Rattle.mp4_io.specs.Ends.{is_write};
ghost use Rattle.mp4_content.specs.Content.{leaf, is_faulty, front, Shows, ShowsKnown, ShowsFront, ShowsEnd, ShowsAs};
ghost use Rattle.mp4_content.specs.Fields.{content_fields, front_fields, has_version, plain_fields};
ghost use Rattle.mp4_content.specs.Kind.{kind_of};
ghost use Rattle.mp4_content.specs.declared.kind.Kind.TheVariants as kinds;

use crate::kind::{Kind, kind_of};
use crate::shown::Shown;
use mp4_frame::u16_at;
use mp4_io::{Failure, or_read};
use mp4_show::{
    BoxFields, Result, put_entry, put_fields, put_full_head, put_list_head, put_reference,
    put_sound, put_terminator, put_usertype, put_visual,
};
use mp4_shown::FieldSink;
use mp4_stream::{BoxHeader, BoxType, ByteCursor, Error};
use mp4_walk::{BoxWalk, Source, TreeBox};
use std::alloc::Global;
use uuid::Uuid;

/// The content of a box that is shown. `B` is the type of the boxes that are read whole.
#[derive(Drop)]
pub enum Content<B: Drop> {
    /// Nothing, since the box contains only boxes.
    Boxes,
    /// Nothing, since the box is too deep.
    Deep,
    /// Nothing, since boxes of this type are not read.
    Unread,
    /// The whole box.
    Known(B),
    /// The first bytes of the content, and how the box is read.
    Front(Kind, Vec<u8>),
    /// Nothing, since the box has this fault.
    Faulty(Error),
}

impl<B: Drop> Content<B> {
    /// Returns whether the box has a fault.
    pub fn is_faulty(&self) -> bool
        ensures { result ≡ is_faulty self.now }
    {
        matches!(self, Content::Faulty(_))
    }
}

/// Reads the box with the name `name` whose header is at `at`, in `bytes`, which end where the box ends.
fn read_leaf<B: Shown>(
    alloc: Global,
    own: &[u8],
    position: u64,
    name: BoxType,
) -> mp4_stream::Result<B>
    requires { IsTrue (B.known name) }
    ensures { Answers result (leaf B.named_reading name own.now position) }
{
    let mut reader = ByteCursor::new(own);
    reader.set_position(position);
    BoxHeader::read(&mut reader)?;
    let start = reader.position() - 8;
    B::read_shown(
        alloc,
        name,
        &mut reader,
        (own.len() as u64).saturating_sub(start),
    )
}

/// Returns what is shown of the box with the name `name` and the bytes `bytes`.
fn shown<B: Shown>(
    alloc: Global,
    own: &[u8],
    name: BoxType,
) -> std::result::Result<Content<B>, Failure>
    requires { IsTrue (B.known name) }
    ensures shows { IfOk result (λ content. Shows (leaf B.named_reading name own.now 0) content) }
    ensures not_write { is_write result ≡ false }
{
    match read_leaf::<B>(alloc, own, 0, name) {
        Ok(value) => Ok(Content::Known(value)),
        Err(Error::OutOfMemory) => Err(Failure::Memory),
        Err(fault) => Ok(Content::Faulty(fault)),
    }
}

/// Reads a whole box, if boxes of its name are read.
fn known<B: Shown, S: Source>(
    alloc: Global,
    tree: &mut BoxWalk<S>,
    found: &TreeBox,
    name: BoxType,
) -> std::result::Result<Content<B>, Failure>
    ensures shows { IfSome tree.old.bytes
        (λ bytes. IfOk result (λ content. ShowsKnown B.known B.named_reading name bytes found.now content)) }
    ensures kept { tree.new ≡ tree.old }
    ensures not_write { is_write result ≡ false }
{
    if !B::knows(name) {
        return Ok(Content::Unread);
    }
    let own = or_read(tree.read_box(alloc, found))?;
    shown(alloc, &own, name)
}

/// Returns `found` with its content cut to at most `most` bytes.
fn shortened(found: &TreeBox, most: u64) -> TreeBox
    ensures position { result.position ≡ found.now.position }
    ensures header { result.header_length ≡ found.now.header_length }
    ensures content { result.length - result.header_length ≡ min (found.now.length - found.now.header_length) most }
{
    TreeBox {
        length: found.header_length + found.content_length().min(most),
        ..*found
    }
}

/// Returns the first `most` bytes of the content of a box, or all if there are fewer.
pub fn front_of<S: Source>(
    alloc: Global,
    tree: &mut BoxWalk<S>,
    found: &TreeBox,
    most: u64,
) -> std::result::Result<Vec<u8>, Failure>
    ensures bytes { IfSome tree.old.bytes (λ bytes. IfOk result (λ v. v.items ≡ front bytes found.now most)) }
    ensures kept { tree.new ≡ tree.old }
    ensures not_write { is_write result ≡ false }
{
    or_read(tree.read_content(alloc, &shortened(found, most)))
}

/// Reads the front of the content of a box: at most `most` bytes, and a fault if there are fewer than `least`.
fn front<B: Drop, S: Source>(
    alloc: Global,
    tree: &mut BoxWalk<S>,
    found: &TreeBox,
    kind: Kind,
    least: u64,
    most: u64,
) -> std::result::Result<Content<B>, Failure>
    ensures shows { IfSome tree.old.bytes
        (λ bytes. IfOk result (λ content. ShowsFront kind least most bytes found.now content)) }
    ensures kept { tree.new ≡ tree.old }
    ensures not_write { is_write result ≡ false }
{
    if found.content_length() < least {
        return Ok(Content::Faulty(Error::IoError));
    }
    Ok(Content::Front(kind, front_of(alloc, tree, found, most)?))
}

/// Reads the last four bytes of a box that four zero bytes may end. Any other bytes are a cut header.
fn terminator<B: Drop, S: Source>(
    alloc: Global,
    tree: &mut BoxWalk<S>,
    found: &TreeBox,
) -> std::result::Result<Content<B>, Failure>
    ensures shows { IfSome tree.old.bytes (λ bytes. IfOk result (ShowsEnd bytes found.now)) }
    ensures kept { tree.new ≡ tree.old }
    ensures not_write { is_write result ≡ false }
{
    let own = or_read(tree.read_box(alloc, found))?;
    if own.as_slice() == [0, 0, 0, 0].as_slice() {
        Ok(Content::Front(Kind::Terminator, own))
    } else {
        Ok(Content::Faulty(Error::IoError))
    }
}

/// Reads the content of the box `found` that is shown.
pub fn content_of<B: Shown, S: Source>(
    alloc: Global,
    tree: &mut BoxWalk<S>,
    found: &TreeBox,
) -> std::result::Result<Content<B>, Failure>
    ensures shows { IfSome tree.old.bytes
        (λ bytes. IfOk result
        (λ content. ShowsAs B.known B.named_reading bytes found.now (kind_of B.known found.now) content)) }
    ensures kept { tree.new ≡ tree.old }
    ensures not_write { is_write result ≡ false }
{
    match kind_of::<B>(found) {
        Kind::Boxes => Ok(Content::Boxes),
        Kind::Deep => Ok(Content::Deep),
        Kind::Unread => Ok(Content::Unread),
        Kind::Cut => Ok(Content::Faulty(Error::IoError)),
        Kind::Small => Ok(Content::Faulty(Error::InvalidData("box size too small"))),
        Kind::Known(name) => known(alloc, tree, found, name),
        Kind::Reference => front(alloc, tree, found, Kind::Reference, 4, u64::MAX),
        Kind::Full => front(alloc, tree, found, Kind::Full, 4, 4),
        Kind::List => front(alloc, tree, found, Kind::List, 8, 8),
        Kind::Entry => front(alloc, tree, found, Kind::Entry, 8, 8),
        Kind::Visual => front(alloc, tree, found, Kind::Visual, 78, 78),
        Kind::Sound => front(alloc, tree, found, Kind::Sound, 28, 64),
        Kind::Uuid => front(alloc, tree, found, Kind::Uuid, 16, 16),
        Kind::Terminator => terminator(alloc, tree, found),
    }
}

/// Sends the type of a `uuid` box to `sink`.
fn put_uuid<K: FieldSink>(bytes: [u8; 16], sink: &mut K) -> Result<()>
    ensures fields { OnOk result (Hands K.trace K.after sink.old
        (usertype_fields (hyphenated_text lower bytes)) sink.new) }
{
    let id = Uuid::from_bytes(bytes);
    let mut buffer = Uuid::encode_buffer();
    let text = id.hyphenated().encode_lower(&mut buffer);
    put_usertype(text.as_bytes(), sink)
}

/// Returns whether QuickTime's version of a sound entry is shown: it is left out if it is 0.
fn has_version(bytes: &[u8], is_quicktime: bool) -> bool
    requires { 28 ≤ length bytes.now }
    ensures { result ≡ has_version is_quicktime bytes.now }
{
    is_quicktime && u16_at(bytes, 8) > 0
}

/// Sends the fields of a sound entry, the first of `bytes`, to `sink`.
fn put_sound_entry<K: FieldSink>(bytes: &[u8], is_quicktime: bool, sink: &mut K) -> Result<()>
    requires { 28 ≤ length bytes.now }
    ensures fields { OnOk result ((rate : AValue) × Hands K.trace K.after sink.old
        (sound_fields (has_version is_quicktime bytes.now) bytes.now (shown_of rate)) sink.new) }
{
    put_sound(bytes, has_version(bytes, is_quicktime), sink)
}

/// Sends the fields at the front of the content of a box that isn't a sound entry to `sink`.
fn put_plain<K: FieldSink>(kind: Kind, bytes: &[u8], sink: &mut K) -> Result<()>
    ensures fields { OnOk result (Hands K.trace K.after sink.old (plain_fields kind bytes.now) sink.new) }
{
    match kind {
        Kind::Full if bytes.len() >= 4 => put_full_head(bytes, sink),
        Kind::List if bytes.len() >= 8 => put_list_head(bytes, sink),
        Kind::Entry if bytes.len() >= 8 => put_entry(bytes, sink),
        Kind::Visual if bytes.len() >= 78 => put_visual(bytes, sink),
        Kind::Terminator => put_terminator(sink),
        Kind::Reference if bytes.len() >= 4 => put_reference(bytes, sink),
        Kind::Uuid => match <[u8; 16]>::try_from(bytes) {
            Ok(id) => put_uuid(id, sink),
            Err(_) => Ok(()),
        },
        _ => Ok(()),
    }
}

/// Sends the fields at the front of the content of a box to `sink`.
fn put_front<K: FieldSink>(kind: Kind, bytes: &[u8], is_quicktime: bool, sink: &mut K) -> Result<()>
    ensures fields { OnOk result ((rate : AValue) × Hands K.trace K.after sink.old
        (front_fields kind is_quicktime bytes.now (shown_of rate)) sink.new) }
{
    match kind {
        Kind::Sound if bytes.len() >= 28 => put_sound_entry(bytes, is_quicktime, sink),
        Kind::Sound => Ok(()),
        _ => put_plain(kind, bytes, sink),
    }
}

/// Sends the fields that were read to `sink`, as much of them as it wants.
pub fn put_content<B: BoxFields + Drop, K: FieldSink>(
    content: &Content<B>,
    is_quicktime: bool,
    sink: &mut K,
) -> Result<()>
    ensures fields { OnOk result ((rate : AValue) × Hands K.trace K.after sink.old
        (content_fields (B.shown (K.wanted sink.old)) is_quicktime content.now (shown_of rate)) sink.new) }
{
    match content {
        Content::Known(value) => put_fields(value, sink),
        Content::Front(kind, bytes) => put_front(*kind, bytes, is_quicktime, sink),
        _ => Ok(()),
    }
}
