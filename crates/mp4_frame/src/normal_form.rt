//! Checks that bytes of a box are in normal form, made without reading a value.

ghost use Rattle.std.specs.Prelude.{IsTrue};
ghost use Rattle.mp4_frame.specs.Laws.{IsWhole};
ghost use Rattle.mp4_frame.specs.Tables.{IsWholeTable};

use crate::number::u32_at;

/// Returns whether `bytes` are a whole box of the code `code`. The header is in the shortest form, and the size in it
/// is the number of bytes.
pub fn is_whole(bytes: &[u8], code: u32) -> bool
    ensures { IsTrue result → IsWhole code bytes.now }
{
    bytes.len() >= 8 && u32_at(bytes, 0) as usize == bytes.len() && u32_at(bytes, 4) == code
}

/// Returns whether `bytes` are a whole box of the code `code` with one table. The table's count is the number of its
/// rows of `E` bytes.
pub fn is_whole_table<const E: usize>(bytes: &[u8], code: u32) -> bool
    ensures { IsTrue result → IsWholeTable E code bytes.now }
{
    if bytes.len() < 16 || !is_whole(bytes, code) {
        return false;
    }
    let count = u32_at(bytes, 12) as usize;
    bytes.len() - 16 == count.saturating_mul(E)
}
