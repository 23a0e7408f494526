//! The tables of an `stbl`.

ghost use Rattle.std.specs.Prelude.{◌≡◌};
ghost use Rattle.mp4_frame.specs.FourCC.{four_cc_of};
ghost use Rattle.mp4_frame.specs.declared.codes.TheConstants as names;
ghost use Rattle.mp4_movie.specs.Problems.{ReturnsFor};
ghost use Rattle.mp4_movie.specs.Tables.{by_sizes, chunks_of, has_chunk, or_missing, sizes_of, table, tables_in};
ghost use Rattle.mp4_movie.specs.Tables.{with_sizes};

use crate::compact_sizes::compact_sizes;
use crate::error::{BoxError, MovieError};
use crate::found::{optional, required};
use crate::level::first_in;
use crate::sample_boxes::{ChunkBox, SampleBoxes};
use mp4_frame::{FourCC, codes};
use mp4_tables::{Co64Box, StcoBox, StszBox};
use mp4_walk::{BoxWalk, Source, TreeBox};
use std::alloc::Global;

/// The depth of the boxes of a sample table, which are inside `moov`, `trak`, `mdia`, `minf` and `stbl`.
pub const DEPTH: u64 = 5;

/// Returns the sizes of the samples of a sample table, if it has any: those of `stsz`, or those of `stz2` if there is
/// no `stsz`.
fn sizes_of<S: Source>(
    alloc: Global,
    walk: &mut BoxWalk<S>,
    stbl: &[TreeBox],
) -> Result<Option<StszBox>, MovieError>
    ensures value { ReturnsFor walk.old.bytes result
        (λ file. sizes_of file (table names.STSZ stbl.now) (table names.STZ2 stbl.now)) }
    ensures kept { walk.new ≡ walk.old }
{
    if let Some(stsz) = optional::<StszBox, S>(alloc, walk, stbl, DEPTH, codes::STSZ)? {
        return Ok(Some(stsz));
    }
    match first_in(stbl, DEPTH, codes::STZ2) {
        Some(place) => Ok(Some(compact_sizes(alloc, walk, &place.found)?)),
        None => Ok(None),
    }
}

/// Returns the chunk offsets of a sample table, if it has any: those of `stco`, or those of `co64` if there is no
/// `stco`. `stbl` begins with the boxes inside the `stbl`.
pub fn chunks_of<S: Source>(
    alloc: Global,
    walk: &mut BoxWalk<S>,
    stbl: &[TreeBox],
) -> Result<Option<ChunkBox>, MovieError>
    ensures value { ReturnsFor walk.old.bytes result
        (λ file. chunks_of file (table names.STCO stbl.now) (table names.CO64 stbl.now)) }
    ensures kept { walk.new ≡ walk.old }
{
    if let Some(stco) = optional::<StcoBox, S>(alloc, walk, stbl, DEPTH, codes::STCO)? {
        return Ok(Some(ChunkBox::Stco(stco)));
    }
    match optional::<Co64Box, S>(alloc, walk, stbl, DEPTH, codes::CO64)? {
        Some(co64) => Ok(Some(ChunkBox::Co64(co64))),
        None => Ok(None),
    }
}

/// Returns whether there is a chunk.
fn has_chunk(offsets: &Option<ChunkBox>) -> bool
    ensures { result ≡ has_chunk offsets.now }
{
    match offsets {
        None => false,
        Some(ChunkBox::Stco(stco)) => !stco.entries.is_empty(),
        Some(ChunkBox::Co64(co64)) => !co64.entries.is_empty(),
    }
}

/// Returns the error of a track without the table of `code`.
fn missing(code: u32) -> MovieError
    ensures { result ≡ MovieError.Box (BoxError.Missing (four_cc_of code)) }
{
    MovieError::Box(BoxError::Missing {
        code: FourCC::from(code),
    })
}

/// Returns the sample tables of a track that has sizes.
fn with_sizes<S: Source>(
    alloc: Global,
    walk: &mut BoxWalk<S>,
    stbl: &[TreeBox],
    offsets: Option<ChunkBox>,
    stsz: StszBox,
) -> Result<SampleBoxes, MovieError>
    ensures value { ReturnsFor walk.old.bytes result (λ file. with_sizes file stbl.now offsets stsz) }
    ensures kept { walk.new ≡ walk.old }
{
    let Some(chunk_offsets) = offsets else {
        return Err(missing(codes::STCO));
    };
    let stsc = required(alloc, walk, stbl, DEPTH, codes::STSC)?;
    let stts = required(alloc, walk, stbl, DEPTH, codes::STTS)?;
    let ctts = optional(alloc, walk, stbl, DEPTH, codes::CTTS)?;
    let stss = optional(alloc, walk, stbl, DEPTH, codes::STSS)?;
    Ok(SampleBoxes {
        stsz,
        stsc,
        chunk_offsets,
        stts,
        ctts,
        stss,
    })
}

/// Returns the sample tables of an `stbl`. `stbl` begins with the boxes inside it. Returns `None` if there are no sizes
/// and no chunk: then the track has no samples except those of fragments.
pub fn tables_in<S: Source>(
    alloc: Global,
    walk: &mut BoxWalk<S>,
    stbl: &[TreeBox],
) -> Result<Option<SampleBoxes>, MovieError>
    ensures value { ReturnsFor walk.old.bytes result (λ file. tables_in file stbl.now) }
    ensures kept { walk.new ≡ walk.old }
{
    let sizes = sizes_of(alloc, walk, stbl)?;
    let offsets = chunks_of(alloc, walk, stbl)?;
    match sizes {
        Some(stsz) => Ok(Some(with_sizes(alloc, walk, stbl, offsets, stsz)?)),
        None if has_chunk(&offsets) => Err(missing(codes::STSZ)),
        None => Ok(None),
    }
}
