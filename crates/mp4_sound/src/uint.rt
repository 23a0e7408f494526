//! Big-endian numbers of one to eight bytes.

ghost use Rattle.std.specs.Prelude.{◌≡◌, ◌≤◌, ◌<◌, ◌^◌, ◌+◌, ◌++◌, length, take};
ghost use Rattle.mp4_frame.specs.Bytes.{number, be_bytes};

use byteorder::{BigEndian, ByteOrder};

/// Returns the number in the `width` bytes at offset `at`.
pub(crate) fn uint_at(bytes: &[u8], at: usize, width: usize) -> u64
    requires low { 1 ≤ width }
    requires high { width ≤ 8 }
    requires room { at + width ≤ length bytes.now }
    ensures { result ≡ number bytes.now at width }
{
    BigEndian::read_uint(&bytes[at..], width)
}

/// Puts `n` in `width` bytes, and returns the offset after them.
pub(crate) fn put_uint(out: &mut [u8], at: usize, n: u64, width: usize) -> usize
    requires low { 1 ≤ width }
    requires high { width ≤ 8 }
    requires room { at + width ≤ length out.old }
    requires fits { n < 256 ^ width }
    ensures next { result ≡ at + width }
    ensures put { take result out.new ≡ take at out.old ++ be_bytes width n }
{
    BigEndian::write_uint(&mut out[at..], n, width);
    at + width
}
