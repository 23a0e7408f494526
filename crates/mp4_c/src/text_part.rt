//! Texts of several elements in one array of bytes of C, one after the other.

ghost use Rattle.std.specs.Prelude.{◌≡◌, ◌≤◌, ◌++◌, IfOk, OnOk, drop, length};
ghost use Rattle.mp4_c.specs.TextParts.{part_at};

use std::alloc::AllocError;

/// A part of a text: the position of its first byte in the array of the text, and the number of its bytes.
#[repr(C)]
#[derive(Clone, Copy)]
pub struct TextPart {
    /// The position of the first byte.
    pub position: usize,
    /// The number of bytes.
    pub length: usize,
}

/// Returns the part of a text that begins at `position` and has the bytes `bytes`.
pub(crate) fn part_at(position: usize, bytes: &[u8]) -> TextPart
    ensures { result ≡ part_at position bytes.now }
{
    TextPart {
        position,
        length: bytes.len(),
    }
}

/// Appends `bytes` to `text`. Returns the part that they are.
pub(crate) fn push_part(bytes: &[u8], text: &mut Vec<u8>) -> Result<TextPart, AllocError>
    ensures part { IfOk result (λ part. part ≡ part_at (length text.old.items) bytes.now) }
    ensures text { OnOk result (text.new.items ≡ text.old.items ++ bytes.now) }
{
    let part = part_at(text.len(), bytes);
    text.extend_from_slice(bytes)?;
    Ok(part)
}

/// Copies `rows` to the front of `out`, which is long enough for them.
pub(crate) fn put_front<R: Copy>(out: &mut [R], rows: &[R])
    requires { length rows.now ≤ length out.old }
    ensures { out.new ≡ rows.now ++ drop (length rows.now) out.old }
{
    out[..rows.len()].copy_from_slice(rows);
}
