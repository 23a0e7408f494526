//! The first numbers of a content. In some boxes they determine how to read the boxes inside or after them.

ghost use Rattle.std.specs.Prelude.{◌≡◌, ◌+◌, ◌<◌, ◌≤◌, min, length};
ghost use Rattle.mp4_walk.specs.Peek.{number_or_zero, peek};

use mp4_frame::{u8_at, u16_at, u32_at};

/// The first numbers of a content. A number is 0 if the content ends before the number does.
#[derive(Clone, Copy, Debug, PartialEq, Eq)]
pub struct Peek {
    /// The number of bytes of the content.
    pub length: u64,
    /// The first 4 bytes: version and flags, or the size of the first box.
    pub first: u32,
    /// The first byte: the version.
    pub version: u8,
    /// The 4 bytes at offset 8: the handler of an `hdlr`.
    pub handler: u32,
    /// The 2 bytes at offset 8: the version of a sound entry.
    pub entry_version: u16,
}

/// The first numbers of a content of which nothing is known, or which has no bytes.
pub const NO_CONTENT: Peek = Peek {
    length: 0,
    first: 0,
    version: 0,
    handler: 0,
    entry_version: 0,
};

/// Returns the 4-byte number at offset `at` of `window`, or 0 if it extends past offset `end`, where the box ends.
fn number_or_zero(window: &[u8], end: u64, at: u64) -> u32
    requires present { at + 4 ≤ end → at + 4 ≤ length window.now }
    requires small { at < 64 }
    ensures { result ≡ number_or_zero window.now end at 4 }
{
    if end < at + 4 {
        return 0;
    }
    u32_at(window, at as usize)
}

/// Returns the 2-byte number at offset `at` of `window`, or 0 if it extends past offset `end`, where the box ends.
fn short_or_zero(window: &[u8], end: u64, at: u64) -> u16
    requires present { at + 2 ≤ end → at + 2 ≤ length window.now }
    requires small { at < 64 }
    ensures { result ≡ number_or_zero window.now end at 2 }
{
    if end < at + 2 {
        return 0;
    }
    u16_at(window, at as usize)
}

/// Returns the byte at offset `at` of `window`, or 0 if it is not before offset `end`, where the box ends.
fn byte_or_zero(window: &[u8], end: u64, at: u64) -> u8
    requires present { at + 1 ≤ end → at + 1 ≤ length window.now }
    requires small { at < 64 }
    ensures { result ≡ number_or_zero window.now end at 1 }
{
    if end < at + 1 {
        return 0;
    }
    u8_at(window, at as usize)
}

/// Returns the first numbers of a content that starts at offset `content` of `window` and ends at offset `end`.
pub fn peek_at(window: &[u8], content: u64, end: u64) -> Peek
    requires present { content < end → min end (content + 12) ≤ length window.now }
    requires small { content < end → content < 32 }
    ensures { result ≡ peek window.now content end }
{
    if end <= content {
        return NO_CONTENT;
    }
    Peek {
        length: end - content,
        first: number_or_zero(window, end, content),
        version: byte_or_zero(window, end, content),
        handler: number_or_zero(window, end, content + 8),
        entry_version: short_or_zero(window, end, content + 8),
    }
}
