//! The version of the library, and the meanings of its statuses.

ghost use Rattle.std.specs.Prelude.{◌≡◌, length};
ghost use Rattle.mp4_c_boxes.specs.Calls.{CopiesSome};
ghost use Rattle.mp4_c.specs.declared.about.TheConstants as constants;

use crate::fields::UNKNOWN_BOX;
use crate::new_file::REFUSED;
use mp4_c_boxes::status::{
    BOX_NOT_FOUND, CHUNK_COUNT, CHUNK_ORDER, CHUNKS, DURATIONS, END_OF_INPUT, FIRST_CHUNK,
    INVALID_DATA, NO_ROOM, NO_TRACK, OFFSET, OK, OUT_OF_MEMORY, SAMPLE_SIZES, SYNC_SAMPLES,
};
use mp4_c_boxes::to_rows::copy_rows;

/// The version of the codec as a number: 1000000 for each major version, 1000 for each minor version, and 1 for each
/// patch.
pub const VERSION: u32 = 1_000;

/// Returns the version of the library.
#[unsafe(no_mangle)]
pub extern "C" fn mp4_version() -> u32
    ensures { result ≡ constants.VERSION }
{
    VERSION
}

/// Returns the meaning of `status`, in English.
fn text_of(status: u32) -> &'static str {
    match status {
        OK => "done",
        END_OF_INPUT => "unexpected end of input",
        INVALID_DATA => "invalid data",
        BOX_NOT_FOUND => "box not found",
        OUT_OF_MEMORY => "out of memory",
        NO_ROOM => "the array has too few places",
        NO_TRACK => "no track has the track_ID",
        UNKNOWN_BOX => "boxes of this type are not read",
        REFUSED => "there is no such new file",
        SAMPLE_SIZES => "stsz lists another number of sizes than it counts samples",
        FIRST_CHUNK => "stsc begins at another chunk than 1",
        CHUNK_ORDER => "an entry of stsc begins no later than the one before it",
        CHUNK_COUNT => "there are 2^32 chunks or more, or runs of a fragment",
        CHUNKS => "the chunks hold fewer samples than stsz counts",
        DURATIONS =>
            "stts has a duration for fewer samples than stsz counts, or a fragment ends too late",
        SYNC_SAMPLES => "an entry of stss is not above the one before it",
        OFFSET =>
            "a chunk begins too far out for the bytes of all samples, or a fragment's are outside",
        _ => "unknown status",
    }
}

/// Copies the meaning of `status` to `text`, in English: ASCII characters without a zero after them. Their number is
/// written to `count`. Returns the status of this call.
#[unsafe(no_mangle)]
pub extern "C" fn mp4_status_text(status: u32, text: &mut [u8], count: &mut usize) -> u32
    ensures { CopiesSome result text.old text.new count.new }
{
    copy_rows(Ok(text_of(status)), text, count)
}
