//! For the tests of the codec: a program that reads records from standard input, and writes records to standard output
//! with what the codec reads in them. `tests/rows/test_rows.py` compares the output with expected rows, and
//! `tests/readers/test_differential.py` with the output of a second reader.
//!
//! A record of the input is a position, a number of bytes, and these bytes. A record of the output is a number of bytes
//! and a text of these bytes. Positions and numbers have 8 bytes and are big-endian. The program ends at the first
//! record of the input that isn't whole.
//!
//! In a text, a result is printed by `Debug`. The result of reading is followed by a space and the cursor's position
//! after the call. The result of writing is followed by a space and the list of the bytes, and the text is empty if
//! there is nothing to write. Each record of the input gives fourteen records of the output:
//!
//! 1. The result of reading the box whose header is at the position as an `AnyBox`, if its name is known.
//! 2. The result of reading the list of `AnyBox` values that starts at the position.
//! 3. The result of writing that list.
//! 4. The result of 1 with `KeptBox` instead of `AnyBox`.
//! 5. The result of 2 with `KeptBox` instead of `AnyBox`.
//! 6. The result of writing that list.
//! 7. The result of reading the box at the position if its type is declared, and an empty text otherwise.
//! 8. The result of writing that box.
//! 9. The result of writing the list that starts at the position if it is read as trees, or the error of reading it.
//! 10. The result of `read_counted` for the box at the position, followed by a space and the number of descriptor
//!     headers. The text is empty if the box isn't an `esds`.
//! 11. The result of 2 with `AllBoxes` instead of `AnyBox`.
//! 12. The result of writing that list.
//! 13. The result of `list_boxes` at the position, which lists the spans of the boxes.
//! 14. The structure of the trees of 9. The text is empty after a fault.
//!
//! With the argument `movies` the bytes of each record of the input are a file, and it gives one record of the output:
//! the text of its movie (`movie.rt`). With the argument `json` the position is the code of a box, and the bytes are
//! its JSON. The two records of the output have the bytes that are written of the declared box and of the codec's, or
//! why the JSON is refused (`taken.rt`). With the argument `back` the record of the output has a line for each box in
//! the bytes: `same`, if the JSON that is shown of the box gives the box back.
#![tactic(auto)]

mod declared;
mod movie;
mod structure;
mod taken;

use crate::declared::{show_declared, show_trees};
use crate::movie::show_movie;
use crate::taken::{show_back, show_taken};
use mp4_box_tree::AllBoxes;
use mp4_stream::{
    AnyBox, BoxHeader, BoxType, ByteCursor, EsdsBox, KeptBox, StreamBox, list_boxes, read_boxes_as,
    write_boxes,
};
use std::alloc::{AllocError, Global};
use std::fmt::Debug;
use std::io::{Read, Write};
use std::{env, io};

/// Returns the position and the bytes of the first record in `input`, and the input after it. Returns `None` if the
/// record isn't whole.
fn first_record(input: &[u8]) -> Option<(u64, &[u8], &[u8])> {
    let (position, rest) = input.split_first_chunk::<8>()?;
    let (length, rest) = rest.split_first_chunk::<8>()?;
    let (bytes, rest) = rest.split_at_checked(u64::from_be_bytes(*length) as usize)?;
    Some((u64::from_be_bytes(*position), bytes, rest))
}

/// Reads the box whose header is at the cursor. Returns `None` if its name is unknown.
fn read_one<B: StreamBox>(alloc: Global, reader: &mut ByteCursor) -> mp4_stream::Result<Option<B>> {
    let header = BoxHeader::read(reader)?;
    if !B::knows(header.name) {
        return Ok(None);
    }
    B::read_named(alloc, header.name, reader, header.size).map(Some)
}

/// Appends a record of `text` to `out`.
pub(crate) fn push_bytes(text: &[u8], out: &mut Vec<u8>) -> Result<(), AllocError> {
    out.extend_from_slice(&(text.len() as u64).to_be_bytes())?;
    out.extend_from_slice(text)
}

/// Appends a record of `text` to `out`.
pub(crate) fn push_record(text: &str, out: &mut Vec<u8>) -> Result<(), AllocError> {
    push_bytes(text.as_bytes(), out)
}

/// Appends a record of the result `found` of a call, and the cursor's position after it.
pub(crate) fn show(
    alloc: Global,
    found: &impl Debug,
    reader: &ByteCursor,
    out: &mut Vec<u8>,
) -> Result<(), AllocError> {
    let text = format!(in alloc; "{found:?} {}", reader.position())?;
    push_record(&text, out)
}

/// Appends a record of the result of writing `boxes`, and the bytes that were written.
fn show_written<B: StreamBox>(
    alloc: Global,
    boxes: &[B],
    out: &mut Vec<u8>,
) -> Result<(), AllocError> {
    let mut written = Vec::new(alloc);
    let result = write_boxes(boxes, &mut written);
    let text = format!(in alloc; "{result:?} {written:?}")?;
    push_record(&text, out)
}

/// Appends a record of the result of reading the box whose header is at the cursor, and the cursor's position after it.
fn show_box<B: StreamBox + Debug + Drop>(
    alloc: Global,
    reader: &mut ByteCursor,
    out: &mut Vec<u8>,
) -> Result<(), AllocError> {
    let found = read_one::<B>(alloc, reader);
    show(alloc, &found, reader, out)
}

/// Appends two records: the result `found` of reading a list with the cursor's position after it, and the result of
/// writing the list, which is empty after an error.
fn show_list<B: StreamBox + Debug + Drop>(
    alloc: Global,
    found: &mp4_stream::Result<Vec<B>>,
    reader: &ByteCursor,
    out: &mut Vec<u8>,
) -> Result<(), AllocError> {
    show(alloc, found, reader, out)?;
    match found {
        Ok(boxes) => show_written(alloc, boxes, out),
        Err(_) => push_record("", out),
    }
}

/// Reads the list of the boxes starting at the cursor, and appends the two records of `show_list`.
fn show_boxes<B: StreamBox + Debug + Drop>(
    alloc: Global,
    reader: &mut ByteCursor,
    out: &mut Vec<u8>,
) -> Result<(), AllocError> {
    let found = read_boxes_as::<B>(alloc, reader);
    show_list(alloc, &found, reader, out)
}

/// Appends a record of reading the `esds` whose header is at the cursor: the result, the cursor's position after it,
/// and the number of descriptor headers. If the box is no `esds`, the record is empty.
fn show_counted(
    alloc: Global,
    reader: &mut ByteCursor,
    out: &mut Vec<u8>,
) -> Result<(), AllocError> {
    let size = match BoxHeader::read(reader) {
        Ok(header) if header.name == BoxType::EsdsBox => header.size,
        _ => return push_record("", out),
    };
    let (found, headers) = EsdsBox::read_counted(reader, size);
    let text = format!(in alloc; "{found:?} {} {headers}", reader.position())?;
    push_record(&text, out)
}

/// Appends a record of the spans of the boxes starting at the cursor, and the cursor's position after the call.
fn show_places(
    alloc: Global,
    reader: &mut ByteCursor,
    out: &mut Vec<u8>,
) -> Result<(), AllocError> {
    let found = list_boxes(alloc, reader);
    show(alloc, &found, reader, out)
}

/// Appends the fourteen records of `bytes` with the cursor at `position`.
fn show_all(
    alloc: Global,
    position: u64,
    bytes: &[u8],
    out: &mut Vec<u8>,
) -> Result<(), AllocError> {
    let mut reader = ByteCursor::new(bytes);
    reader.set_position(position);
    show_box::<AnyBox>(alloc, &mut reader, out)?;
    reader.set_position(position);
    show_boxes::<AnyBox>(alloc, &mut reader, out)?;
    reader.set_position(position);
    show_box::<KeptBox>(alloc, &mut reader, out)?;
    reader.set_position(position);
    show_boxes::<KeptBox>(alloc, &mut reader, out)?;
    reader.set_position(position);
    show_declared(alloc, &mut reader, out)?;
    let mut structure = Vec::new(alloc);
    show_trees(alloc, bytes, position, &mut structure, out)?;
    reader.set_position(position);
    show_counted(alloc, &mut reader, out)?;
    reader.set_position(position);
    show_boxes::<AllBoxes>(alloc, &mut reader, out)?;
    reader.set_position(position);
    show_places(alloc, &mut reader, out)?;
    push_bytes(&structure, out)
}

/// The kinds of text that the program prints for a record.
#[derive(Clone, Copy)]
enum Shown {
    /// The boxes that are read.
    Boxes,
    /// The text of its movie.
    Movie,
    /// The box that is made of its JSON.
    Json,
    /// A line for each box, by the JSON that is shown of it.
    Back,
}

/// Returns what is shown of each record, by the program's argument.
fn shown_by(rt: &HostRuntime) -> io::Result<Shown> {
    let mut words = env::args(rt)?;
    let _program = words.next();
    Ok(match words.next() {
        None => Shown::Boxes,
        Some(word) => {
            if word.as_str() == "json" {
                Shown::Json
            } else if word.as_str() == "back" {
                Shown::Back
            } else {
                Shown::Movie
            }
        }
    })
}

fn main(rt: HostRuntime) -> io::Result<()> {
    let by = shown_by(&rt)?;
    let mut input = Vec::new(rt.alloc());
    rt.stdin().read_to_end(&mut input)?;
    let mut out = Vec::new(rt.alloc());
    let mut rest = input.as_slice();
    for _ in 0..input.len() {
        let Some((position, bytes, after)) = first_record(rest) else {
            break;
        };
        match by {
            Shown::Boxes => show_all(rt.alloc(), position, bytes, &mut out)?,
            Shown::Movie => show_movie(rt.alloc(), bytes, &mut out)?,
            Shown::Json => show_taken(rt.alloc(), position, bytes, &mut out)?,
            Shown::Back => show_back(rt.alloc(), position, bytes, &mut out)?,
        }
        rest = after;
    }
    rt.stdout().write_all(&out)
}
