//! The chunks of a track, by its sample tables.

ghost use Rattle.std.specs.Prelude.{◌≡◌, Ok, IfOk, IfSome};
ghost use Rattle.mp4_check.specs.TrackTables.{chunk_table, first_bytes, firsts_of, loose_chunks, sample_table};
ghost use Rattle.mp4_check.specs.TrackTables.{loose_bytes, readable, track_chunks, value_of_chunks, whole_chunks};
ghost use Rattle.mp4_movie.specs.Levels.{found_of};
ghost use Rattle.mp4_movie.specs.Tables.{tables_in};

use mp4_frame::codes::{CO64, MDIA, MINF, STBL, STCO};
use mp4_io::{Failure, read_failure};
use mp4_movie::{BoxLocation, ChunkBox, MovieError, SampleBoxes, chunks_of, first_in, tables_in};
use mp4_samples::{ChunkExtent, Disagreement, SampleTables};
use mp4_walk::{BoxWalk, Source, TreeBox};
use std::alloc::{AllocError, Global};

/// The chunks of a track.
#[derive(Debug, Drop)]
pub struct TrackChunks {
    /// The bytes of each chunk. If the tables can't be used together, the first byte of each.
    pub chunks: Vec<ChunkExtent>,
    /// The end of the last sample, in ticks of the timescale of the media, if the tables can be used together.
    pub time_end: Option<u64>,
    /// The disagreement of the tables, if they disagree.
    pub disagreement: Option<Disagreement>,
}

/// A chunk table and its code.
#[derive(Clone, Copy, Debug, PartialEq, Eq)]
pub struct ChunkTable {
    /// The code: `stco` or `co64`.
    pub code: u32,
    /// The position of the box.
    pub position: u64,
}

/// Returns the place of the sample table of a track, if it has one. `trak` begins with the boxes inside its `trak`.
pub fn sample_table(trak: &[TreeBox]) -> Option<BoxLocation<'_>>
    ensures { found_of result ≡ sample_table trak.now }
{
    let mdia = first_in(trak, 2, MDIA)?;
    let minf = first_in(mdia.after, 3, MINF)?;
    first_in(minf.after, 4, STBL)
}

/// Returns the chunk table in an `stbl`: its `stco`, or its `co64` if there is no `stco`. `stbl` begins with the boxes
/// inside the `stbl`.
pub fn chunk_table(stbl: &[TreeBox]) -> Option<ChunkTable>
    ensures { result ≡ chunk_table stbl.now }
{
    if let Some(place) = first_in(stbl, 5, STCO) {
        return Some(ChunkTable {
            code: STCO,
            position: place.found.position,
        });
    }
    match first_in(stbl, 5, CO64) {
        Some(place) => Some(ChunkTable {
            code: CO64,
            position: place.found.position,
        }),
        None => None,
    }
}

/// Returns the first byte of a chunk.
fn first_byte(offset: u64) -> ChunkExtent
    ensures { result ≡ record { offset = offset; size = 1 } }
{
    ChunkExtent { offset, size: 1 }
}

/// Returns the first byte at each of `offsets`.
fn short_offsets(alloc: Global, offsets: &[u32]) -> Result<Vec<ChunkExtent>, AllocError>
    ensures { IfOk result (λ chunks. chunks.items ≡ firsts_of offsets.now) }
{
    let mut chunks = Vec::new(alloc);
    for offset in offsets {
        chunks.push(first_byte(u64::from(*offset)))?;
    }
    Ok(chunks)
}

/// Returns the first byte at each of `offsets`.
fn long_offsets(alloc: Global, offsets: &[u64]) -> Result<Vec<ChunkExtent>, AllocError>
    ensures { IfOk result (λ chunks. chunks.items ≡ firsts_of offsets.now) }
{
    let mut chunks = Vec::new(alloc);
    for offset in offsets {
        chunks.push(first_byte(*offset))?;
    }
    Ok(chunks)
}

/// Returns the first byte of each chunk.
fn first_bytes(alloc: Global, offsets: &ChunkBox) -> Result<Vec<ChunkExtent>, AllocError>
    ensures { IfOk result (λ chunks. chunks.items ≡ first_bytes offsets.now) }
{
    match offsets {
        ChunkBox::Stco(table) => short_offsets(alloc, table.entries.as_slice()),
        ChunkBox::Co64(table) => long_offsets(alloc, table.entries.as_slice()),
    }
}

/// Returns the chunks by `tables`.
fn whole_chunks(alloc: Global, tables: &SampleBoxes) -> Result<TrackChunks, Failure>
    ensures { IfOk result (λ r. value_of_chunks r ≡ whole_chunks tables.now) }
{
    match SampleTables::new(tables.tables()) {
        Ok(agreed) => match agreed.chunks(alloc) {
            Ok(chunks) => Ok(TrackChunks {
                chunks,
                time_end: Some(tables.time_end()),
                disagreement: None,
            }),
            Err(_) => Err(Failure::Memory),
        },
        Err(disagreement) => Ok(TrackChunks {
            chunks: first_bytes(alloc, &tables.chunk_offsets)?,
            time_end: None,
            disagreement: Some(disagreement),
        }),
    }
}

/// Returns the first byte of each chunk of a chunk table, if there is one.
fn loose_bytes(alloc: Global, offsets: &Option<ChunkBox>) -> Result<Vec<ChunkExtent>, AllocError>
    ensures { IfOk result (λ chunks. chunks.items ≡ loose_bytes (Ok offsets.now)) }
{
    match offsets {
        Some(offsets) => first_bytes(alloc, offsets),
        None => Ok(Vec::new(alloc)),
    }
}

/// Returns the chunks of a track whose tables can't be used together. `stbl` begins with the boxes inside its `stbl`.
pub fn loose_chunks<S: Source>(
    alloc: Global,
    walk: &mut BoxWalk<S>,
    stbl: &[TreeBox],
) -> Result<TrackChunks, Failure>
    ensures value { IfSome walk.old.bytes
        (λ file. IfOk result (λ r. value_of_chunks r ≡ loose_chunks file stbl.now)) }
    ensures kept { walk.new ≡ walk.old }
{
    let chunks = match chunks_of(alloc, walk, stbl) {
        Ok(offsets) => loose_bytes(alloc, &offsets)?,
        Err(MovieError::Box(_)) => Vec::new(alloc),
        Err(MovieError::Io(error)) => return Err(read_failure(&error)),
    };
    Ok(TrackChunks {
        chunks,
        time_end: None,
        disagreement: None,
    })
}

/// Returns the sample tables in an `stbl`, or `None` if one is missing or has a fault.
fn readable_tables<S: Source>(
    alloc: Global,
    walk: &mut BoxWalk<S>,
    stbl: &[TreeBox],
) -> Result<Option<SampleBoxes>, Failure>
    ensures value { IfSome walk.old.bytes
        (λ file. IfOk result (λ r. r ≡ readable (tables_in file stbl.now))) }
    ensures kept { walk.new ≡ walk.old }
{
    match tables_in(alloc, walk, stbl) {
        Ok(tables) => Ok(tables),
        Err(MovieError::Box(_)) => Ok(None),
        Err(MovieError::Io(error)) => Err(read_failure(&error)),
    }
}

/// Returns the chunks of a track. `stbl` begins with the boxes inside its `stbl`.
pub fn track_chunks<S: Source>(
    alloc: Global,
    walk: &mut BoxWalk<S>,
    stbl: &[TreeBox],
) -> Result<TrackChunks, Failure>
    ensures value { IfSome walk.old.bytes
        (λ file. IfOk result (λ r. value_of_chunks r ≡ track_chunks file stbl.now)) }
    ensures kept { walk.new ≡ walk.old }
{
    match readable_tables(alloc, walk, stbl)? {
        Some(tables) => whole_chunks(alloc, &tables),
        None => loose_chunks(alloc, walk, stbl),
    }
}
