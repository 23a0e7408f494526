//! Writes a box from the JSON of its fields, and says what is wrong with such a JSON.

ghost use Rattle.std.specs.Prelude.{◌≡◌, ◌≤◌, IfOk, length};
ghost use Rattle.mp4_c.specs.FromJson.{ChecksJson, PutsJson, TellsOrRefuses, reason_number, row_of, texts_of};

use crate::fields::UNKNOWN_BOX;
use crate::text_part::{TextPart, part_at, put_front};
use mp4_c_boxes::status::{INVALID_DATA, NO_ROOM, OK, OUT_OF_MEMORY};
use mp4_c_boxes::written::put_box;
use mp4_content::{FromJson, ShownBox};
use mp4_frame::{Mp4Box, WriteBox};
use mp4_shown::taken::{Error, Reason, Refusal};
use std::alloc::{AllocError, Global};
use std::str;

/// A fault of the JSON of a box. Its texts are in an array of bytes, one after the other.
#[repr(C)]
#[derive(Clone, Copy)]
pub struct JsonFault {
    /// The path of the member that is refused, or no bytes for the whole text.
    pub path: TextPart,
    /// The words for people.
    pub text: TextPart,
    /// The number of bytes of both texts.
    pub text_bytes: usize,
    /// The number of the reason, or 0 if there is no fault.
    pub reason: u32,
}

/// Returns the number of `reason`. It never changes.
fn reason_number(reason: Reason) -> u32
    ensures { result ≡ reason_number reason }
{
    match reason {
        Reason::NotJson => 1,
        Reason::NotObject => 2,
        Reason::NotArray => 3,
        Reason::NotWhole => 4,
        Reason::NotNumber => 5,
        Reason::NotText => 6,
        Reason::NotHex => 7,
        Reason::NotCode => 8,
        Reason::OutOfRange => 9,
        Reason::NoVersion => 10,
        Reason::WrongLength => 11,
        Reason::TooMany => 12,
        Reason::WrongCount => 13,
        Reason::ZeroByte => 14,
        Reason::Unknown => 15,
        Reason::Twice => 16,
        Reason::Missing => 17,
        Reason::Contradiction => 18,
        Reason::NotKept => 19,
    }
}

/// Writes the box with the code `code` whose JSON is `json` to the front of `bytes`, and its length to `length`.
/// Returns the status: `INVALID_DATA` if `json` is refused or the box can't be written, and `UNKNOWN_BOX` if no type
/// has the code.
fn put_json<B: FromJson + WriteBox>(
    alloc: Global,
    code: u32,
    json: &[u8],
    bytes: &mut [u8],
    length: &mut usize,
) -> u32
    ensures { PutsJson (B.FromJson.taken code) B.format json.now result bytes.old bytes.new length.old length.new }
{
    let Ok(text) = str::from_utf8(json) else {
        return INVALID_DATA;
    };
    match B::read_json(alloc, code, text) {
        Ok(Some(value)) => put_box(&value, bytes, length),
        Ok(None) => UNKNOWN_BOX,
        Err(Error::OutOfMemory) => OUT_OF_MEMORY,
        Err(Error::Refused(_)) => INVALID_DATA,
    }
}

/// Returns the texts of a fault: the path `path`, and then the words of `reason`.
fn texts_of(alloc: Global, path: &str, reason: Reason) -> Result<Vec<u8>, AllocError>
    ensures { IfOk result (λ texts. texts.items ≡ texts_of (path.now, reason)) }
{
    let text = format!(in alloc; "{path}{reason}")?;
    Ok(text.into_bytes())
}

/// Returns the fault of the member at the path `path`, which is refused for `reason`. Its texts have `text_bytes`
/// bytes.
fn row_of(path: &str, text_bytes: usize, reason: Reason) -> JsonFault
    requires { length path.now ≤ text_bytes }
    ensures { text_bytes ≡ length (texts_of (path.now, reason)) → result ≡ row_of (path.now, reason) }
{
    let position = path.len();
    JsonFault {
        path: part_at(0, path.as_bytes()),
        text: TextPart {
            position,
            length: text_bytes - position,
        },
        text_bytes,
        reason: reason_number(reason),
    }
}

/// Fills `fault` and copies its texts to `text`: the member at the path `path` is refused for `reason`. Returns the
/// status.
fn tell_fault(
    alloc: Global,
    path: &str,
    reason: Reason,
    text: &mut [u8],
    fault: &mut JsonFault,
) -> u32
    ensures { TellsOrRefuses (path.now, reason) result text.old text.new fault.old fault.new }
{
    let Ok(texts) = texts_of(alloc, path, reason) else {
        return OUT_OF_MEMORY;
    };
    *fault = row_of(path, texts.len(), reason);
    if text.len() < texts.len() {
        return NO_ROOM;
    }
    put_front(text, &texts);
    OK
}

/// The fault of a JSON that has none.
const NO_FAULT: JsonFault = JsonFault {
    path: TextPart {
        position: 0,
        length: 0,
    },
    text: TextPart {
        position: 0,
        length: 0,
    },
    text_bytes: 0,
    reason: 0,
};

/// Fills `fault` with what is wrong with `json`, the JSON of a box with the code `code`, and copies its texts to
/// `text`. Returns the status, which is `UNKNOWN_BOX` if no type has the code.
fn check_json<B: FromJson>(
    alloc: Global,
    code: u32,
    json: &[u8],
    text: &mut [u8],
    fault: &mut JsonFault,
) -> u32
    ensures { ChecksJson (B.FromJson.taken code) json.now result text.old text.new fault.old fault.new }
{
    let Ok(given) = str::from_utf8(json) else {
        return tell_fault(alloc, "", Reason::NotJson, text, fault);
    };
    match B::read_json(alloc, code, given) {
        Ok(Some(_)) => {
            *fault = NO_FAULT;
            OK
        }
        Ok(None) => UNKNOWN_BOX,
        Err(Error::OutOfMemory) => OUT_OF_MEMORY,
        Err(Error::Refused(Refusal { path, reason })) => {
            tell_fault(alloc, path.as_str(), reason, text, fault)
        }
    }
}

/// Writes the box with the code `code` whose JSON is `json`, an object with its fields in UTF-8, to the front of
/// `bytes`, and its length to `length`. The types of boxes are those of the codec and of `mp4_extra`. Returns the
/// status.
#[unsafe(no_mangle)]
pub extern "C" fn mp4_box_from_json(
    alloc: Global,
    code: u32,
    json: &[u8],
    bytes: &mut [u8],
    length: &mut usize,
) -> u32
    ensures { PutsJson (⟦<ShownBox as FromJson>⟧.taken code) ⟦<ShownBox as Mp4Box>⟧.format json.now result
        bytes.old bytes.new length.old length.new }
{
    put_json::<ShownBox>(alloc, code, json, bytes, length)
}

/// Fills `fault` with what is wrong with `json`, the JSON of a box with the code `code`, and copies its texts to
/// `text`. Returns the status.
#[unsafe(no_mangle)]
pub extern "C" fn mp4_check_json(
    alloc: Global,
    code: u32,
    json: &[u8],
    text: &mut [u8],
    fault: &mut JsonFault,
) -> u32
    ensures { ChecksJson (⟦<ShownBox as FromJson>⟧.taken code) json.now result text.old text.new fault.old fault.new }
{
    check_json::<ShownBox>(alloc, code, json, text, fault)
}
