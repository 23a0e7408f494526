//! Calls of the codec while one request for memory, or one and all later ones, may be refused. A call that is out of
//! memory leaves everything unchanged and is made again. Then it has its usual result, or is out of memory once more.

use example_boxes::mark::MarkBox;
use mp4_stream::{
    AnyBox, AvcConfig, ByteCursor, Co64Box, Error, KeptBox, MdhdBox, MediaConfig, NalUnit, StcoBox,
    StreamBox, TryClone, WriteBox, language_string, list_boxes, read_boxes_as, write_boxes,
};
use std::alloc::Global;
use std::slice;
use test_shared::vectors::Vector;

/// A reason for which a series of calls stops early.
#[derive(Debug, Drop)]
pub enum Ending {
    /// A call was out of memory twice, and left everything unchanged.
    Refused,
    /// A call had an error other than out of memory, returned something wrong, or left something changed.
    Wrong,
}

/// Returns the reason to stop for the error of a call.
fn why(error: Error) -> Ending {
    match error {
        Error::OutOfMemory => Ending::Refused,
        _ => Ending::Wrong,
    }
}

/// The result of a call. If the call is out of memory, it is made once more.
macro_rules! again {
    ($call:expr) => {
        match $call {
            Err(Error::OutOfMemory) => $call.map_err(why),
            outcome => outcome.map_err(why),
        }
    };
}

/// Appends the bytes of `boxes` to `out`, by `write_box` for a single box if `as_list` is false, and by `write_boxes`
/// otherwise.
fn append<B: StreamBox>(boxes: &[B], out: &mut Vec<u8>, as_list: bool) -> mp4_stream::Result<u64> {
    match boxes {
        [only] if !as_list => only.write_box(out),
        _ => write_boxes(boxes, out),
    }
}

/// Appends the bytes of `boxes` to a vector with a 7. If that is out of memory and leaves only the 7, tries once more.
fn write<B: StreamBox>(alloc: Global, boxes: &[B], as_list: bool) -> Result<Vec<u8>, Ending> {
    let mut out = Vec::new(alloc);
    if out.push(7).is_err() && out.push(7).is_err() {
        return Err(Ending::Refused);
    }
    for is_last in [false, true] {
        match append(boxes, &mut out, as_list) {
            Ok(_) => return Ok(out),
            Err(_) if out.as_slice() != [7].as_slice() => return Err(Ending::Wrong),
            Err(Error::OutOfMemory) if !is_last => {}
            Err(e) => return Err(why(e)),
        }
    }
    Err(Ending::Wrong)
}

/// Reads the boxes after the first of `bytes`. If that is out of memory and leaves the cursor after the first byte,
/// tries once more. A success must leave the cursor at the end of the buffer.
fn read<B: StreamBox>(alloc: Global, bytes: &[u8]) -> Result<Vec<B>, Ending> {
    let mut reader = ByteCursor::new(bytes);
    reader.set_position(1);
    for is_last in [false, true] {
        match read_boxes_as(alloc, &mut reader) {
            Ok(found) if reader.position() == bytes.len() as u64 => return Ok(found),
            Err(Error::OutOfMemory) if reader.position() == 1 && !is_last => {}
            Err(e) if reader.position() == 1 => return Err(why(e)),
            _ => return Err(Ending::Wrong),
        }
    }
    Err(Ending::Wrong)
}

/// Writes `boxes`, compares the result with `bytes`, and reads the boxes back.
fn round_trip<B: StreamBox + Eq>(alloc: Global, boxes: &[B], bytes: &[u8]) -> Result<(), Ending> {
    for as_list in [false, true] {
        let out = write(alloc, boxes, as_list)?;
        if out.as_slice().split_first() != Some((&7, bytes)) {
            return Err(Ending::Wrong);
        }
        let found = read::<B>(alloc, &out)?;
        if found.as_slice() != boxes {
            return Err(Ending::Wrong);
        }
    }
    Ok(())
}

fn boxes_of_all<V: Vector>(alloc: Global, vectors: &[V]) -> mp4_stream::Result<Vec<AnyBox>> {
    let mut boxes = Vec::new(alloc);
    for vector in vectors {
        boxes.push(vector.make(alloc)?)?;
    }
    Ok(boxes)
}

fn bytes_of_all<V: Vector>(alloc: Global, vectors: &[V]) -> mp4_stream::Result<Vec<u8>> {
    let mut bytes = Vec::new(alloc);
    for vector in vectors {
        bytes.extend_from_slice(vector.bytes())?;
    }
    Ok(bytes)
}

/// Writes and reads all `vectors` as one stream.
pub fn write_and_read_all<V: Vector>(alloc: Global, vectors: &[V]) -> Result<(), Ending> {
    let boxes = again!(boxes_of_all(alloc, vectors))?;
    let bytes = again!(bytes_of_all(alloc, vectors))?;
    round_trip(alloc, &boxes, &bytes)
}

/// Lists the boxes of all `vectors` as one stream.
pub fn list_all<V: Vector>(alloc: Global, vectors: &[V]) -> Result<(), Ending> {
    let bytes = again!(bytes_of_all(alloc, vectors))?;
    let mut reader = ByteCursor::new(&bytes);
    let spans = again!(list_boxes(alloc, &mut reader))?;
    if spans.len() == vectors.len() && reader.position() == bytes.len() as u64 {
        Ok(())
    } else {
        Err(Ending::Wrong)
    }
}

/// Returns the bytes of all `vectors` and of a box whose type the codec does not read.
fn bytes_to_keep<V: Vector>(alloc: Global, vectors: &[V]) -> mp4_stream::Result<Vec<u8>> {
    let mut bytes = bytes_of_all(alloc, vectors)?;
    bytes.extend_from_slice(b"\0\0\0\x09moov\xaa")?;
    Ok(bytes)
}

fn kept_boxes(alloc: Global, bytes: &[u8]) -> mp4_stream::Result<Vec<KeptBox>> {
    read_boxes_as(alloc, &mut ByteCursor::new(bytes))
}

/// Reads all `vectors` and a box whose type the codec does not read as one stream. Then writes the boxes and reads them
/// back.
pub fn keep_all<V: Vector>(alloc: Global, vectors: &[V]) -> Result<(), Ending> {
    let bytes = again!(bytes_to_keep(alloc, vectors))?;
    let boxes = again!(kept_boxes(alloc, &bytes))?;
    if boxes.len().saturating_sub(1) == vectors.len() {
        round_trip(alloc, &boxes, &bytes)
    } else {
        Err(Ending::Wrong)
    }
}

/// Makes the box of `vector`.
fn made<V: Vector>(alloc: Global, vector: V) -> Result<AnyBox, Ending> {
    again!(vector.make(alloc))
}

/// Clones `original`, compares the two, and returns the clone.
fn clone_of<T: TryClone + PartialEq + Drop>(original: &T) -> Result<T, Ending> {
    let clone = again!(original.try_clone())?;
    if clone == *original {
        Ok(clone)
    } else {
        Err(Ending::Wrong)
    }
}

/// Clones `original`, compares the two, drops the original and returns the clone.
fn only_clone_of<T: TryClone + PartialEq + Drop>(original: T) -> Result<T, Ending> {
    clone_of(&original)
}

/// Makes the box of `vector`, and returns a clone of it.
fn clone_made<V: Vector>(alloc: Global, vector: V) -> Result<AnyBox, Ending> {
    only_clone_of(made(alloc, vector)?)
}

/// Makes, clones, writes and reads the box of `vector`.
fn write_and_read<V: Vector>(alloc: Global, vector: V) -> Result<(), Ending> {
    let clone = clone_made(alloc, vector)?;
    round_trip(alloc, slice::from_ref(&clone), vector.bytes())
}

/// Makes, clones, writes and reads the box of each vector by itself. Goes on if a vector is out of memory, and stops at
/// any other failure.
pub fn write_and_read_each<V: Vector>(alloc: Global, vectors: &[V]) -> Result<(), Ending> {
    let mut outcome = Ok(());
    for vector in vectors {
        match write_and_read(alloc, *vector) {
            Ok(()) => {}
            Err(Ending::Refused) => outcome = Err(Ending::Refused),
            Err(Ending::Wrong) => return Err(Ending::Wrong),
        }
    }
    outcome
}

/// Writes and reads a list of boxes of a type from outside the codec.
pub fn write_and_read_marks(alloc: Global) -> Result<(), Ending> {
    let marks = [MarkBox { mark: 1 }, MarkBox { mark: 0xffff_ffff }];
    round_trip(
        alloc,
        marks.as_slice(),
        b"\0\0\0\x0cmark\0\0\0\x01\0\0\0\x0cmark\xff\xff\xff\xff",
    )
}

fn config(alloc: Global) -> mp4_stream::Result<MediaConfig> {
    Ok(MediaConfig::AvcConfig(AvcConfig {
        width: 320,
        height: 240,
        seq_param_set: Vec::from_slice(alloc, &[0x67, 0x64, 0])?.into(),
        pic_param_set: Vec::from_slice(alloc, &[0x68, 0xeb])?.into(),
    }))
}

/// Makes and clones the configuration of a track.
pub fn clone_config(alloc: Global) -> Result<(), Ending> {
    let original = again!(config(alloc))?;
    clone_of(&original)?;
    Ok(())
}

/// Makes and clones a parameter set.
pub fn clone_set(alloc: Global) -> Result<(), Ending> {
    let original = again!(NalUnit::from_bytes(alloc, &[0x67, 0x64, 0, 0x0d]))?;
    clone_of(&original)?;
    Ok(())
}

fn offsets(alloc: Global) -> mp4_stream::Result<Co64Box> {
    Ok(Co64Box {
        version: 0,
        flags: 0,
        entries: Vec::from_slice(alloc, &[267, 1970])?.into(),
    })
}

/// Converts chunk offsets to 32 bits.
pub fn shorten_offsets(alloc: Global) -> Result<(), Ending> {
    let offsets = again!(offsets(alloc))?;
    let short = again!(StcoBox::try_from_co64(alloc, &offsets))?;
    if short.entries.as_slice() == [267, 1970].as_slice() {
        Ok(())
    } else {
        Err(Ending::Wrong)
    }
}

/// Makes the text of a language and a default media header, and compares their languages.
pub fn make_texts(alloc: Global) -> Result<(), Ending> {
    let language = again!(language_string(alloc, 0x55c4))?;
    let header = again!(MdhdBox::default_in(alloc))?;
    if language.as_str() == header.language.as_str() {
        Ok(())
    } else {
        Err(Ending::Wrong)
    }
}
