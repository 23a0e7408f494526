//! Numbers in bytes.

ghost use Rattle.std.specs.Prelude.{◌≡◌, ◌+◌, ◌≤◌, length, slice_index};
ghost use Rattle.mp4_frame.specs.Bytes.{number};

use byteorder::{BigEndian, ByteOrder};

/// Returns the byte at offset `at`, or 0 if there are fewer bytes.
#[tactic(auto, using(crate::proofs::PastEnd::past_end))]
pub fn byte_at(bytes: &[u8], at: usize) -> u8
    ensures { result ≡ slice_index bytes.now at }
{
    if at < bytes.len() { bytes[at] } else { 0 }
}

/// Returns the number of `width` bytes at offset `at`.
pub fn number_at(bytes: &[u8], at: usize, width: usize) -> u64
    requires positive { 1 ≤ width }
    requires short { width ≤ 8 }
    requires room { at + width ≤ length bytes.now }
    ensures { result ≡ number bytes.now at width }
{
    BigEndian::read_uint(&bytes[at..], width)
}
