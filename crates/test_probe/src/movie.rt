//! What the movie of a file is, as text: a line for each track, its samples, and each fragment.
//!
//! The fields of a line are separated by tabs. A value begins with `=`, and a problem with `!`.

use crate::push_bytes;
use mp4_movie::{
    BoxError, MoofFragments, Movie, MovieError, SampleBoxes, TrackFragment, TrackInfo,
};
use mp4_samples::{Sample, SampleTables};
use std::alloc::{AllocError, Global};
use std::collections::BTreeMap;
use std::fmt::Display;
use std::io;

/// The text, and where its memory comes from.
#[derive(Drop)]
struct Text<'a> {
    alloc: Global,
    out: &'a mut Vec<u8>,
}

impl Text<'_> {
    /// Appends a word.
    fn word(&mut self, word: &str) -> Result<(), AllocError> {
        self.out.extend_from_slice(word.as_bytes())
    }

    /// Appends a value.
    fn value(&mut self, value: &impl Display) -> Result<(), AllocError> {
        let text = format!(in self.alloc; "\t={value}")?;
        self.word(&text)
    }

    /// Appends a problem.
    fn problem(&mut self, problem: &impl Display) -> Result<(), AllocError> {
        let text = format!(in self.alloc; "\t!{problem}")?;
        self.word(&text)
    }

    /// Appends a number, or why there is none.
    fn number(&mut self, found: &Result<u32, BoxError>) -> Result<(), AllocError> {
        match found {
            Ok(number) => self.value(number),
            Err(error) => self.problem(error),
        }
    }

    /// Appends a sample: its offset, size, time, duration, composition offset, sync flag and description.
    fn sample(&mut self, sample: &Sample) -> Result<(), AllocError> {
        let text = format!(in self.alloc;
            "\t={},{},{},{},{},{},{}",
            sample.offset,
            sample.size,
            sample.start_time,
            sample.duration,
            sample.rendering_offset,
            u8::from(sample.is_sync),
            sample.sample_description_index
        )?;
        self.word(&text)
    }
}

/// Appends the line of a track: its position, track_ID, handler and timescale.
fn put_track(info: &TrackInfo, text: &mut Text) -> Result<(), AllocError> {
    text.word("track")?;
    text.value(&info.position)?;
    text.number(&info.track_id)?;
    match &info.handler {
        Ok(handler) => text.value(&u32::from(*handler))?,
        Err(error) => text.problem(error)?,
    }
    text.number(&info.timescale)?;
    text.word("\n")
}

/// Appends the samples of tables.
fn put_samples(tables: &SampleTables<'_>, text: &mut Text) -> Result<(), AllocError> {
    for sample in tables.samples() {
        text.sample(&sample)?;
    }
    Ok(())
}

/// Appends the samples of the tables in `boxes`, or how the tables disagree.
fn put_boxes(boxes: &SampleBoxes, text: &mut Text) -> Result<(), AllocError> {
    match SampleTables::new(boxes.tables()) {
        Ok(tables) => put_samples(&tables, text),
        Err(disagreement) => text.problem(&disagreement),
    }
}

/// Appends the samples of the tables of a track, or why there are none.
fn put_answer(
    answer: Result<Option<SampleBoxes>, MovieError>,
    text: &mut Text,
) -> Result<(), AllocError> {
    match answer {
        Ok(Some(boxes)) => put_boxes(&boxes, text),
        Ok(None) => Ok(()),
        Err(error) => text.problem(&error),
    }
}

/// Appends the line of the samples of the tables of track `number`.
fn put_tables(movie: &mut Movie<&[u8]>, number: usize, text: &mut Text) -> Result<(), AllocError> {
    text.word("tables")?;
    let answer = movie.samples(text.alloc, number);
    put_answer(answer, text)?;
    text.word("\n")
}

/// Appends the samples of a fragment of the `moof` at the position `moof`. Its track ends at `time` before it. Returns
/// the time at which the fragment ends, or `None` after a fault.
fn put_fragment(
    fragment: &TrackFragment,
    moof: u64,
    time: u64,
    text: &mut Text,
) -> Result<Option<u64>, AllocError> {
    let fragment = fragment.fragment(time);
    let mut samples = fragment.samples();
    while let Some(found) = samples.next() {
        match found {
            Ok(sample) => text.sample(&sample)?,
            Err(fault) => {
                let fault = format!(in text.alloc; "moof at {moof}: {fault}")?;
                text.problem(&fault)?;
                return Ok(None);
            }
        }
    }
    Ok(Some(samples.time()))
}

/// Appends the samples of the fragments in `moofs` of the track `track_id`, whose tables end at `time`. Ends after a
/// fault.
fn put_own(
    moofs: &[MoofFragments],
    track_id: u32,
    time: u64,
    text: &mut Text,
) -> Result<(), AllocError> {
    let mut time = time;
    for moof in moofs {
        for found in &moof.fragments {
            if let Ok(fragment) = found {
                if fragment.header.track_id == track_id {
                    match put_fragment(fragment, moof.position, time, text)? {
                        Some(end) => time = end,
                        None => return Ok(()),
                    }
                }
            }
        }
    }
    Ok(())
}

/// Appends the line of the samples of the fragments of track `number`, whose track_ID is `track_id`.
fn put_fragments(
    movie: &mut Movie<&[u8]>,
    moofs: &[MoofFragments],
    number: usize,
    track_id: u32,
    text: &mut Text,
) -> Result<(), AllocError> {
    text.word("fragments")?;
    match movie.time_end(text.alloc, number) {
        Ok(time) => put_own(moofs, track_id, time, text)?,
        Err(error) => text.problem(&error)?,
    }
    text.word("\n")
}

/// Appends a line for each fragment: the position of its `moof`, and the track_ID of its track or why it is none.
fn put_trafs(moofs: &[MoofFragments], text: &mut Text) -> Result<(), AllocError> {
    for moof in moofs {
        for found in &moof.fragments {
            text.word("traf")?;
            text.value(&moof.position)?;
            match found {
                Ok(fragment) => text.value(&fragment.header.track_id)?,
                Err(error) => text.problem(error)?,
            }
            text.word("\n")?;
        }
    }
    Ok(())
}

/// Appends all lines of a movie. The first track of a track_ID has the fragments.
fn put_movie(movie: &mut Movie<&[u8]>, text: &mut Text) -> io::Result<()> {
    let moofs = movie.fragments(text.alloc)?;
    let mut met = BTreeMap::new(text.alloc);
    for info in movie.tracks(text.alloc)? {
        put_track(&info, text)?;
        put_tables(movie, info.number, text)?;
        if let Ok(track_id) = info.track_id {
            if !met.contains_key(&track_id) {
                put_fragments(movie, &moofs, info.number, track_id, text)?;
                met.insert(track_id, ())?;
            }
        }
    }
    put_trafs(&moofs, text)?;
    Ok(())
}

/// Returns the text of the movie of `file`.
fn text_of(alloc: Global, file: &[u8]) -> io::Result<Vec<u8>> {
    let mut out = Vec::new(alloc);
    let mut movie = Movie::open(alloc, file)?;
    let mut text = Text {
        alloc,
        out: &mut out,
    };
    put_movie(&mut movie, &mut text)?;
    Ok(out)
}

/// Appends a record of the movie of `file`.
pub(crate) fn show_movie(alloc: Global, file: &[u8], out: &mut Vec<u8>) -> io::Result<()> {
    let text = text_of(alloc, file)?;
    push_bytes(&text, out)?;
    Ok(())
}
