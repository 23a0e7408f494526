//! Reading the bytes of a box.

ghost use Rattle.std.specs.Prelude.{◌≡◌, ◌+◌, length, IfOk, IfSome};
ghost use Rattle.mp4_walk.specs.Source.{piece, content_of};

use crate::source::Source;
use crate::tree_box::TreeBox;
use std::alloc::Global;
use std::io;

/// Reads `len` bytes of `source`, starting `skip` bytes after position `at`, or all up to the end if there are
/// fewer. `total` is the number of bytes of `source`.
pub fn read_piece<S: Source>(
    alloc: Global,
    source: &mut S,
    total: u64,
    at: u64,
    skip: u64,
    len: u64,
) -> io::Result<Vec<u8>>
    ensures bytes { IfSome (S.all source.old)
        (λ B. total ≡ length B → IfOk result (λ bytes. bytes.items ≡ piece B (at + skip) len)) }
    ensures keeps { S.all source.new ≡ S.all source.old }
{
    let available = total.saturating_sub(at).saturating_sub(skip).min(len);
    let mut bytes = Vec::new(alloc);
    if available > 0 {
        bytes.resize(available as usize, 0)?;
        source.read_at(at + skip, &mut bytes)?;
    }
    Ok(bytes)
}

/// Reads the content of `found`: the bytes after its header. For a box that ends after the file, returns the bytes up
/// to the end of the file.
pub fn read_content<S: Source>(
    alloc: Global,
    source: &mut S,
    found: &TreeBox,
) -> io::Result<Vec<u8>>
    ensures bytes { IfSome (S.all source.old) (λ B. IfOk result (λ bytes. bytes.items ≡ content_of B found.now)) }
    ensures keeps { S.all source.new ≡ S.all source.old }
{
    let total = source.length()?;
    read_piece(
        alloc,
        source,
        total,
        found.position,
        found.header_length,
        found.content_length(),
    )
}

/// Reads `found` with its header. For a box that ends after the file, returns the bytes up to the end of the file.
pub fn read_box<S: Source>(alloc: Global, source: &mut S, found: &TreeBox) -> io::Result<Vec<u8>>
    ensures bytes { IfSome (S.all source.old)
        (λ B. IfOk result (λ bytes. bytes.items ≡ piece B found.now.position found.now.length)) }
    ensures keeps { S.all source.new ≡ S.all source.old }
{
    let total = source.length()?;
    read_piece(alloc, source, total, found.position, 0, found.length)
}
