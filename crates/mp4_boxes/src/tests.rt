//! Tests of the program: runs over readers and writers that fail or move few bytes a call.
//! `tests/programs/test_mp4boxes.py` runs the built program.

mod fakes;
mod in_place;
mod parts;
mod runs;

/// An `ftyp`, a `free`, which is kept unchanged, and a `stco`. `normal` writes the same bytes.
const INPUT: [u8; 52] =
    *b"\0\0\0\x18ftypisom\0\0\x02\0isommp41\0\0\0\x08free\0\0\0\x14stco\0\0\0\0\0\0\0\x01\0\0\x01\x0b";

/// The output of `list` for `INPUT`.
const LISTED: [u8; 31] = *b"0 24 ftyp\n24 8 free\n32 20 stco\n";
