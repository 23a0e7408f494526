//! The first walk over a stream, which finds its changes.

ghost use Rattle.std.specs.Prelude.{◌≡◌, ◌+◌, ◌<◌, ◌≤◌, ◌^◌, ◌++◌, ◌∷◌, [], false, length, IsTrue, MatchResult, OnOk};
ghost use Rattle.std.specs.Prelude.{IfErr, IfOk};
ghost use Rattle.mp4_frame.specs.BoxType.{code_of};
ghost use Rattle.mp4_frame.specs.Bytes.{bytes_of_fields, number};
ghost use Rattle.mp4_frame.specs.Format.{IsNormalForm};
ghost use Rattle.mp4_frame.specs.Heads.{name_in, end_in};
ghost use Rattle.mp4_frame.specs.Laws.{AreBytes};
ghost use Rattle.mp4_frame.specs.Streams.{reading_in};
ghost use Rattle.mp4_frame.specs.declared.error.Error.TheVariants.{OutOfMemory};
ghost use Rattle.mp4_stream.specs.KeptBox.{reading_kept, format_kept};
ghost use Rattle.mp4_stream.specs.Other.{is_typed};
ghost use Rattle.mp4_stream.specs.OtherBox.{format_other};
ghost use Rattle.mp4_normal.specs.Changes.{AppendsIf, AreBefore, OneMade, made_of, other_at, part};
ghost use Rattle.mp4_normal.specs.Normal.{Normalizes, NormalRefuses};

use crate::change::Changes;
use mp4_frame::{BoxHeader, BoxType, Frame, frame_at};
use mp4_stream::{AnyBox, Error, Result, StreamBox, WriteBox};
use std::alloc::Global;

/// For the prover: the numbers in a slice of bytes are bytes, and its length is one of 64 bits.
fn are_bytes(bytes: &[u8])
    ensures are { AreBytes bytes.now }
    ensures short { length bytes.now < 2 ^ 64 }
{
    let _length = bytes.len();
}

/// Replaces `stream[begin..end]` with the encoding of `value`. The only error is out of memory.
fn replace_by<B: WriteBox>(
    changes: &mut Changes,
    stream: &[u8],
    value: &B,
    begin: usize,
    end: usize,
) -> Result<()>
    requires writable { B.format.Writable value.now }
    requires order { begin ≤ end }
    requires within { end ≤ length stream.now }
    requires before { AreBefore changes.old (length changes.old.fresh.items) begin }
    ensures made { OnOk result
        (made_of changes.new stream.now end ≡ made_of changes.old stream.now begin ++ B.format.bytes value.now) }
    ensures before { OnOk result (AreBefore changes.new (length changes.new.fresh.items) end) }
    ensures error { IfErr result (λ e. e ≡ OutOfMemory) }
{
    let from = changes.fresh.len();
    value.write_box(&mut changes.fresh)?;
    changes.replace(stream, from, begin, end)
}

/// Replaces the header in `stream[begin..content]` with one of 8 bytes. The only error is out of memory.
fn replace_header(
    changes: &mut Changes,
    stream: &[u8],
    header: BoxHeader,
    begin: usize,
    content: usize,
) -> Result<()>
    requires small { header.size < 2 ^ 32 }
    requires order { begin ≤ content }
    requires within { content ≤ length stream.now }
    requires before { AreBefore changes.old (length changes.old.fresh.items) begin }
    ensures made { OnOk result
        (made_of changes.new stream.now content ≡ made_of changes.old stream.now begin
        ++ bytes_of_fields ((4, header.size) ∷ (4, code_of header.name) ∷ [])) }
    ensures before { OnOk result (AreBefore changes.new (length changes.new.fresh.items) content) }
    ensures error { IfErr result (λ e. e ≡ OutOfMemory) }
{
    let from = changes.fresh.len();
    header.write(&mut changes.fresh)?;
    changes.replace(stream, from, begin, content)
}

/// Finds the change of the box in `frame`, which has the name `name` and a type that the codec does not read: at most
/// its header changes. Returns whether the box can be written. The only error is out of memory.
fn find_in_other(changes: &mut Changes, stream: &[u8], name: BoxType, frame: &Frame) -> Result<bool>
    requires untyped { is_typed (code_of name) ≡ false }
    requires start { frame.now.begin ≤ frame.now.start }
    requires size { 8 ≤ frame.now.size }
    requires within { end_in frame.now ≤ length stream.now }
    requires before { AreBefore changes.old (length changes.old.fresh.items) frame.now.begin }
    ensures made { IfOk result
        (λ can. AppendsIf format_other (other_at (code_of name) stream.now frame.now.start frame.now.size)
        (made_of changes.old stream.now frame.now.begin) (made_of changes.new stream.now (end_in frame.now)) can) }
    ensures before { OnOk result (AreBefore changes.new (length changes.new.fresh.items) (end_in frame.now)) }
    ensures error { IfErr result (λ e. e ≡ OutOfMemory) }
{
    are_bytes(stream);
    let _code = u32::from(name);
    let size = frame.size;
    if size >= 1 << 32 {
        return Ok(false);
    }
    let header = BoxHeader { name, size };
    replace_header(
        changes,
        stream,
        header,
        frame.begin as usize,
        frame.content() as usize,
    )?;
    Ok(true)
}

/// Returns whether the bytes of the box in `frame` show that it is in normal form.
fn is_kept<B: StreamBox>(stream: &[u8], frame: &Frame) -> bool
    requires start { frame.now.begin ≤ frame.now.start }
    requires size { 8 ≤ frame.now.size }
    requires within { end_in frame.now ≤ length stream.now }
    ensures short { IsTrue result → frame.now.start ≡ frame.now.begin }
    ensures bytes { IsTrue result → IsNormalForm B.format (part stream.now frame.now.begin (end_in frame.now)) }
{
    are_bytes(stream);
    let (begin, end) = (frame.begin as usize, frame.end() as usize);
    frame.start == frame.begin && B::is_normal_form(&stream[begin..end])
}

/// Finds the change of the box in `frame`, which has the name `name` and a type of the codec. Returns whether the box
/// can be written. The box is read into `slot`, unless its bytes show that they are in normal form.
fn find_in_typed<B: StreamBox>(
    alloc: Global,
    changes: &mut Changes,
    stream: &[u8],
    name: BoxType,
    frame: &Frame,
    slot: &mut Vec<B>,
) -> Result<bool>
    requires known { IsTrue (B.known name) }
    requires start { frame.now.begin ≤ frame.now.start }
    requires size { 8 ≤ frame.now.size }
    requires within { end_in frame.now ≤ length stream.now }
    requires named { name ≡ name_in frame.now }
    requires code { frame.now.code ≡ number stream.now (frame.now.begin + 4) 4 }
    requires before { AreBefore changes.old (length changes.old.fresh.items) frame.now.begin }
    ensures made { OneMade B.format (B.named_reading name stream.now frame.now.start frame.now.size)
        (made_of changes.old stream.now frame.now.begin) (made_of changes.new stream.now (end_in frame.now)) result }
    ensures before { OnOk result (AreBefore changes.new (length changes.new.fresh.items) (end_in frame.now)) }
{
    are_bytes(stream);
    let kept = is_kept::<B>(stream, frame);
    if kept {
        return Ok(true);
    }
    slot.clear();
    B::push_named(alloc, name, stream, frame.start, frame.size, slot)?;
    let value = &slot[0];
    if !value.is_writable() {
        return Ok(false);
    }
    replace_by(
        changes,
        stream,
        value,
        frame.begin as usize,
        frame.end() as usize,
    )?;
    Ok(true)
}

/// Finds the change of the box in `frame`. Returns whether the box can be written.
fn find_in_box(
    alloc: Global,
    changes: &mut Changes,
    stream: &[u8],
    frame: &Frame,
    slot: &mut Vec<AnyBox>,
) -> Result<bool>
    requires start { frame.now.begin ≤ frame.now.start }
    requires size { 8 ≤ frame.now.size }
    requires within { end_in frame.now ≤ length stream.now }
    requires code { frame.now.code ≡ number stream.now (frame.now.begin + 4) 4 }
    requires before { AreBefore changes.old (length changes.old.fresh.items) frame.now.begin }
    ensures made { OneMade format_kept (reading_in reading_kept stream.now frame.now)
        (made_of changes.old stream.now frame.now.begin) (made_of changes.new stream.now (end_in frame.now)) result }
    ensures before { OnOk result (AreBefore changes.new (length changes.new.fresh.items) (end_in frame.now)) }
{
    let name = frame.name();
    if AnyBox::knows(name) {
        find_in_typed(alloc, changes, stream, name, frame, slot)
    } else {
        are_bytes(stream);
        find_in_other(changes, stream, name, frame)
    }
}

/// Returns the changes that turn `stream` into its boxes in normal form. Fails with the first fault of the boxes, with
/// invalid data if a box that was read can't be written, and with out of memory.
pub fn find_changes(alloc: Global, stream: &[u8]) -> Result<Changes>
    ensures answer { MatchResult result (λ c. Normalizes stream.now (made_of c stream.now (length stream.now)))
        (λ e. NormalRefuses stream.now e) }
    ensures before { IfOk result (λ c. AreBefore c (length c.fresh.items) (length stream.now)) }
{
    let mut changes = Changes::none(alloc);
    let mut slot = Vec::new(alloc);
    let mut can = true;
    let mut at = 0;
    while at < stream.len() {
        let frame = frame_at(stream, at)?;
        let fits = find_in_box(alloc, &mut changes, stream, &frame, &mut slot)?;
        let end = frame.end();
        can = can && fits;
        at = end as usize;
    }
    if !can {
        return Err(Error::InvalidData("value does not fit its field"));
    }
    Ok(changes)
}
