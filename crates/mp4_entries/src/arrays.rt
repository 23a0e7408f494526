//! Arrays of bytes as fields.

ghost use Rattle.std.specs.Prelude.{◌≡◌, ◌≤◌, ◌+◌, ◌++◌, length, take};
ghost use Rattle.mp4_frame.specs.Bytes.{number, be_bytes};
ghost use Rattle.mp4_frame.specs.Laws.{AreBytes};
ghost use Rattle.mp4_entries.specs.Arrays.{array_at, IsArray};

use mp4_frame::put_bytes;

/// Returns the `N` bytes at offset `at`.
#[tactic(auto, using(mp4_frame::proofs::NumberBytes::bytes_there))]
pub(crate) fn array_at<const N: usize>(bytes: &[u8], at: usize) -> [u8; N]
    requires { at + N ≤ length bytes.now }
    ensures { result ≡ array_at (number bytes.now) at N }
{
    let mut array = [0; N];
    array.copy_from_slice(&bytes[at..at + N]);
    array
}

/// Does nothing. For the prover: bytes that were read have the range of their type.
fn know_bytes(bytes: &[u8])
    ensures { AreBytes bytes.now }
{}

/// Does nothing. For the prover: an array that was read has the range of its type.
#[tactic(auto, using(crate::specs::ArrayLaws::array_is))]
pub(crate) fn know_array<const N: usize>(array: &[u8; N])
    ensures { IsArray N array.now }
{
    know_bytes(array)
}

/// Puts `bytes`, and returns the offset after them.
#[tactic(auto, using(crate::specs::ArrayLaws::array_back))]
fn put_slice(out: &mut [u8], at: usize, bytes: &[u8]) -> usize
    requires { at + length bytes.now ≤ length out.old }
    ensures next { result ≡ at + length bytes.now }
    ensures put { take result out.new
        ≡ take at out.old ++ be_bytes (length bytes.now) (number bytes.now 0 (length bytes.now)) }
{
    put_bytes(out, at, bytes)
}

/// Puts `array`, and returns the offset after it.
pub(crate) fn put_array<const N: usize>(out: &mut [u8], at: usize, array: &[u8; N]) -> usize
    requires { at + N ≤ length out.old }
    ensures next { result ≡ at + N }
    ensures put { take result out.new ≡ take at out.old ++ be_bytes N (number array.now 0 N) }
{
    put_slice(out, at, array)
}
