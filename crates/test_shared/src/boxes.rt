//! Boxes with their bytes, from the tests of the Rust crate `mp4` and from the standard.

pub mod entries;
pub mod flat;
pub mod sound;
pub mod tables;
pub mod text;

/// The bytes of a stream of an `ftyp`, a `free` and an `stco`.
pub const THREE: [u8; 52] =
    *b"\0\0\0\x18ftypisom\0\0\x02\0isommp41\0\0\0\x08free\0\0\0\x14stco\0\0\0\0\0\0\0\x01\0\0\x01\x0b";
