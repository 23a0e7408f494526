//! The chunks of a track, or the runs of a fragment, that lie outside the media data.

ghost use Rattle.std.specs.Prelude.{◌≡◌};
ghost use Rattle.mp4_check.specs.Media.{AreInOrder};
ghost use Rattle.mp4_check.specs.Outside.{chunk_place, chunks_outside, counted, found_in, none_yet, run_place};
ghost use Rattle.mp4_check.specs.Outside.{runs_outside};

use crate::extent::{Lies, whereabouts};
use crate::media::{Media, media_at};
use mp4_samples::{ChunkExtent, RunExtent};

/// A chunk or run that lies outside the media data.
#[derive(Clone, Copy, Debug, PartialEq, Eq)]
pub struct Stray {
    /// Its number, counted from 1.
    pub number: u64,
    /// The offset of its first byte; 0 if it begins before the file.
    pub offset: u64,
    /// The number of its bytes.
    pub size: u64,
    /// Its place.
    pub lies: Lies,
}

/// The number of chunks or runs, and of those outside the media data.
#[derive(Clone, Copy, Debug, PartialEq, Eq)]
pub struct Tally {
    /// The number of all chunks or runs.
    pub all: u64,
    /// The number outside the media data.
    pub outside: u64,
    /// The first one outside.
    pub first: Option<Stray>,
}

/// Chunks or runs outside the media data.
#[derive(Clone, Copy, Debug, PartialEq, Eq)]
pub struct Outside {
    /// The number of all chunks or runs.
    pub all: u64,
    /// The number outside the media data.
    pub outside: u64,
    /// The first one outside.
    pub first: Stray,
    /// The length of the file.
    pub length: u64,
}

/// The place of bytes that should be media data.
#[derive(Clone, Copy, Debug, PartialEq, Eq)]
pub struct Place {
    /// The offset of the first byte; 0 if it is before the file.
    pub offset: u64,
    /// The number of bytes.
    pub size: u64,
    /// The place of these bytes.
    pub lies: Lies,
}

/// Returns the tally before the first chunk.
fn none_yet() -> Tally
    ensures { result ≡ none_yet }
{
    Tally {
        all: 0,
        outside: 0,
        first: None,
    }
}

/// Returns `tally` after one more chunk or run, which is at `place`.
fn counted(tally: Tally, place: Place) -> Tally
    ensures { result ≡ counted tally place }
{
    let all = tally.all.saturating_add(1);
    let Place { offset, size, lies } = place;
    match lies {
        Lies::Inside => Tally { all, ..tally },
        _ => Tally {
            all,
            outside: tally.outside.saturating_add(1),
            first: match tally.first {
                None => Some(Stray {
                    number: all,
                    offset,
                    size,
                    lies,
                }),
                first => first,
            },
        },
    }
}

/// Returns the place of `chunk`.
fn chunk_place(chunk: ChunkExtent, media: &Media) -> Place
    requires { AreInOrder 0 media.now.extents.items }
    ensures { result ≡ chunk_place media.now.extents.items media.now.length chunk }
{
    Place {
        offset: chunk.offset,
        size: chunk.size,
        lies: whereabouts(
            chunk.offset,
            chunk.size,
            media_at(&media.extents, chunk.offset),
            media.length,
        ),
    }
}

/// Returns the place of `run`. A run that begins after 2^64 - 1 is past the end of the file.
fn run_place(run: RunExtent, media: &Media) -> Place
    requires { AreInOrder 0 media.now.extents.items }
    ensures { result ≡ run_place media.now.extents.items media.now.length run }
{
    if run.begin < 0 {
        return Place {
            offset: 0,
            size: run.size,
            lies: Lies::BeforeFile,
        };
    }
    let offset = run.begin.min(i128::from(u64::MAX)) as u64;
    chunk_place(
        ChunkExtent {
            offset,
            size: run.size,
        },
        media,
    )
}

/// Returns what is outside by `tally`, if anything is, in a file of `length` bytes.
fn found_in(tally: Tally, length: u64) -> Option<Outside>
    ensures { result ≡ found_in length tally }
{
    match tally.first {
        Some(first) => Some(Outside {
            all: tally.all,
            outside: tally.outside,
            first,
            length,
        }),
        None => None,
    }
}

/// Returns the chunks outside the media data, if any are.
pub fn chunks_outside(chunks: &[ChunkExtent], media: &Media) -> Option<Outside>
    requires { AreInOrder 0 media.now.extents.items }
    ensures { result ≡ chunks_outside media.now.extents.items media.now.length chunks.now }
{
    let mut tally = none_yet();
    for chunk in chunks {
        tally = counted(tally, chunk_place(*chunk, media));
    }
    found_in(tally, media.length)
}

/// Returns the runs outside the media data, if any are.
pub fn runs_outside(runs: &[RunExtent], media: &Media) -> Option<Outside>
    requires { AreInOrder 0 media.now.extents.items }
    ensures { result ≡ runs_outside media.now.extents.items media.now.length runs.now }
{
    let mut tally = none_yet();
    for run in runs {
        tally = counted(tally, run_place(*run, media));
    }
    found_in(tally, media.length)
}
