//! The place in a file of bytes that should be media data.

ghost use Rattle.std.specs.Prelude.{◌≡◌, ◌+◌};
ghost use Rattle.mp4_check.specs.Extent.{holds, is_past, whereabouts};

/// A range of bytes of a file, from `begin` up to `end`.
#[derive(Clone, Copy, Debug, PartialEq, Eq)]
pub struct Extent {
    /// The offset of the first byte.
    pub begin: u64,
    /// The offset after the last byte, at least `begin`.
    pub end: u64,
}

/// The place of bytes that should be media data.
#[derive(Clone, Copy, Debug, PartialEq, Eq)]
pub enum Lies {
    /// In the content of one `mdat`.
    Inside,
    /// All or some are past the end of the file.
    PastFile,
    /// They end past the end of the `mdat` in which they begin. That `mdat` ends here.
    PastMedia(u64),
    /// They begin in no `mdat`.
    Nowhere,
    /// They begin before the file.
    BeforeFile,
}

/// Returns the end of `size` bytes at `offset`.
fn end_of(offset: u64, size: u64) -> u128
    ensures { result ≡ offset + size }
{
    u128::from(offset) + u128::from(size)
}

/// Returns whether `media` contains `size` bytes at `offset`. It contains 0 bytes at each of its offsets and at its
/// end.
fn holds(media: Extent, offset: u64, size: u64) -> bool
    ensures { result ≡ holds media offset size }
{
    media.begin <= offset && end_of(offset, size) <= u128::from(media.end)
}

/// Returns whether `size` bytes at `offset` begin or end past the end of a file of `length` bytes.
fn is_past(length: u64, offset: u64, size: u64) -> bool
    ensures { result ≡ is_past length offset size }
{
    length <= offset || u128::from(length) < end_of(offset, size)
}

/// Returns the place of `size` bytes at `offset` in a file of `length` bytes. `media` is the content of the last `mdat`
/// that begins at or before `offset`.
pub fn whereabouts(offset: u64, size: u64, media: Option<Extent>, length: u64) -> Lies
    ensures { result ≡ whereabouts offset size media length }
{
    match media {
        Some(media) if holds(media, offset, size) => Lies::Inside,
        _ if is_past(length, offset, size) => Lies::PastFile,
        Some(media) if offset < media.end => Lies::PastMedia(media.end),
        _ => Lies::Nowhere,
    }
}
