//! A copy of a `moov` with other sample tables.

use crate::forms::new_bytes::{begin_box, end_box, set_u32, set_u64};
use crate::forms::refusal::{FormRefusal, FormStop};
use crate::refusal::{Stop, TrackPlace};
use mp4_frame::{FourCC, codes, u8_at, u32_at, u64_at};
use mp4_walk::{BoxState, BoxWalk, Source, TreeBox};
use std::alloc::Global;

/// The duration of a header: it replaces a missing duration, and one that is less than the least.
#[derive(Clone, Copy, Debug, PartialEq, Eq)]
pub struct NewDuration {
    /// The duration.
    pub value: u64,
    /// The least duration, at most `value`. A track with an edit list may be shorter than its media.
    pub least: u64,
}

/// The durations of a track.
#[derive(Clone, Copy, Debug, PartialEq, Eq)]
pub struct TrackDurations {
    /// The duration in the timescale of the media.
    pub media: NewDuration,
    /// The duration in the timescale of the movie.
    pub movie: NewDuration,
}

/// The durations of a movie.
#[derive(Debug, Drop)]
pub struct Durations {
    /// The duration of the longest track, in the timescale of the movie.
    pub movie: NewDuration,
    /// The durations of each track.
    pub tracks: Vec<TrackDurations>,
    /// The new `edts` of each track, which is put after its `tkhd`. The old one is left out. If it is empty, all edit
    /// lists are kept.
    pub edits: Vec<Vec<u8>>,
}

/// The new parts of a `moov`.
#[derive(Clone, Copy)]
pub struct NewMovie<'a> {
    /// The tables of each track, which are put after the `stsd`. The other tables of the `stbl` are left out.
    pub tables: &'a [Vec<u8>],
    /// The `mvex`, which is put after the last `trak`, or nothing. The old one is left out.
    pub extends: &'a [u8],
    /// The durations, if they are set.
    pub durations: Option<&'a Durations>,
}

/// A new `moov`.
#[derive(Debug, Drop)]
pub struct CopiedMovie {
    /// Its bytes.
    pub bytes: Vec<u8>,
    /// The index at which the tables of each track begin.
    pub tables_at: Vec<usize>,
}

/// A box that is copied box by box, and has not ended.
#[derive(Clone, Copy, Debug, PartialEq, Eq)]
struct Unended {
    depth: u64,
    code: u32,
    at: usize,
}

/// A copy that is not finished.
#[derive(Drop)]
struct Copying<'a> {
    new: NewMovie<'a>,
    out: Vec<u8>,
    unended: Vec<Unended>,
    tables_at: Vec<usize>,
    /// The number of tracks that have begun.
    begun: usize,
    /// The position of the track that has begun last.
    position: u64,
    /// The depth of a box that is copied or left out whole.
    whole: Option<u64>,
}

/// The way in which a box of the `moov` is copied.
#[derive(Clone, Copy, Debug, PartialEq, Eq)]
enum Action {
    /// Its header is copied, and then the boxes inside it, one by one.
    Enter,
    /// It is copied whole.
    Keep,
    /// It is left out.
    Leave,
}

/// Returns the code of the box that is entered at `depth`.
fn entered(depth: u64) -> Option<u32> {
    match depth {
        0 => Some(codes::MOOV),
        1 => Some(codes::TRAK),
        2 => Some(codes::MDIA),
        3 => Some(codes::MINF),
        4 => Some(codes::STBL),
        _ => None,
    }
}

/// Returns whether a box with `code` in an `stbl` is left out: a table of samples, which the new tables replace.
fn is_replaced(code: u32) -> bool {
    matches!(
        code,
        codes::STTS
            | codes::CTTS
            | codes::STSS
            | codes::STSC
            | codes::STSZ
            | codes::STZ2
            | codes::STCO
            | codes::CO64
            | codes::SDTP
            | codes::SBGP
    )
}

/// Returns how `found` is copied. Bytes that are no box, at the end of another box, are copied.
fn action_for(found: &TreeBox) -> Result<Action, FormRefusal> {
    let Some(code) = found.code else {
        return Ok(Action::Keep);
    };
    if found.state == BoxState::Cut {
        return Err(FormRefusal::NotWhole(found.position));
    }
    let number = u32::from(code);
    if found.state == BoxState::Parent && entered(found.depth) == Some(number) {
        return Ok(Action::Enter);
    }
    let is_dropped = match found.depth {
        1 => number == codes::MVEX,
        5 => is_replaced(number),
        _ => false,
    };
    Ok(if is_dropped {
        Action::Leave
    } else {
        Action::Keep
    })
}

/// Returns the index, in the content of a header of version 0 or 1, of its duration. `code` is that of an `mvhd`, a
/// `tkhd` or an `mdhd` (ISO/IEC 14496-12, 8.2.2, 8.3.2, 8.4.2).
fn duration_at(code: u32, version: u8) -> usize {
    let others = if code == codes::TKHD { 4 } else { 0 };
    if version == 0 {
        16 + others
    } else {
        24 + others
    }
}

/// Returns the duration at the index `at` of a header of this version. It is 0 if it is missing: then all its bits are
/// set, or none. Returns `None` if the header has no room for it.
fn old_duration(bytes: &[u8], at: usize, version: u8) -> Option<u64> {
    if version == 0 {
        if at > bytes.len() || bytes.len() - at < 4 {
            return None;
        }
        let duration = u32_at(bytes, at);
        return Some(if duration == u32::MAX {
            0
        } else {
            u64::from(duration)
        });
    }
    if at > bytes.len() || bytes.len() - at < 8 {
        return None;
    }
    let duration = u64_at(bytes, at);
    Some(if duration == u64::MAX { 0 } else { duration })
}

/// Sets the duration of the header `found` with `code`, whose bytes are `bytes`.
fn set_duration(
    bytes: &mut [u8],
    found: &TreeBox,
    code: u32,
    duration: NewDuration,
) -> Result<(), FormRefusal> {
    let content = found.header_length.min(bytes.len() as u64) as usize;
    if content >= bytes.len() {
        return Ok(());
    }
    let version = u8_at(bytes, content);
    let at = content.saturating_add(duration_at(code, version));
    match old_duration(bytes, at, version) {
        Some(old) if old == 0 || old < duration.least => {}
        _ => return Ok(()),
    }
    if version > 0 {
        set_u64(bytes, at, duration.value);
        return Ok(());
    }
    match u32::try_from(duration.value) {
        Ok(short) => {
            set_u32(bytes, at, short);
            Ok(())
        }
        Err(_) => Err(FormRefusal::Duration {
            code: FourCC::from(code),
            position: found.position,
            duration: duration.value,
        }),
    }
}

impl<'a> Copying<'a> {
    /// Returns the duration that `found` gets, a box with `code`, if it is a header and gets one.
    fn duration_for(&self, found: &TreeBox, code: u32) -> Option<NewDuration> {
        let durations = self.new.durations?;
        let number = self.begun.saturating_sub(1);
        match (found.depth, code) {
            (1, codes::MVHD) => Some(durations.movie),
            (2, codes::TKHD) => Some(durations.tracks.get(number)?.movie),
            (3, codes::MDHD) => Some(durations.tracks.get(number)?.media),
            _ => None,
        }
    }

    /// Copies `found` whole, and sets its duration if it is a header.
    fn copy<S: Source>(
        &mut self,
        alloc: Global,
        walk: &mut BoxWalk<S>,
        found: &TreeBox,
    ) -> Result<(), Stop> {
        let mut bytes = walk.read_box(alloc, found)?;
        if let Some(code) = found.code {
            let number = u32::from(code);
            if let Some(duration) = self.duration_for(found, number) {
                set_duration(&mut bytes, found, number, duration)?;
            }
        }
        self.out.extend_from_slice(&bytes)?;
        Ok(())
    }

    /// Puts the tables of the track that has begun last, unless they are there.
    fn put_tables(&mut self) -> Result<(), FormStop> {
        if self.tables_at.len() >= self.begun {
            return Ok(());
        }
        self.tables_at.push(self.out.len())?;
        if let Some(tables) = self.new.tables.get(self.begun.saturating_sub(1)) {
            self.out.extend_from_slice(tables)?;
        }
        Ok(())
    }

    /// Returns whether edit lists are replaced.
    fn has_edits(&self) -> bool {
        match self.new.durations {
            Some(durations) => !durations.edits.is_empty(),
            None => false,
        }
    }

    /// Puts the edit list of the track that has begun last, if it gets one.
    fn put_edits(&mut self) -> Result<(), FormStop> {
        if let Some(durations) = self.new.durations {
            if let Some(edits) = durations.edits.get(self.begun.saturating_sub(1)) {
                self.out.extend_from_slice(edits)?;
            }
        }
        Ok(())
    }

    /// Begins `found`, a box with `code` that is entered.
    fn enter(&mut self, found: &TreeBox, code: u32) -> Result<(), FormStop> {
        if found.depth == 1 {
            self.begun = self.begun.saturating_add(1);
            self.position = found.position;
        }
        let at = begin_box(&mut self.out, code)?;
        self.unended.push(Unended {
            depth: found.depth,
            code,
            at,
        })?;
        Ok(())
    }

    /// Ends a box that was entered.
    fn close(&mut self, ended: Unended) -> Result<(), FormStop> {
        end_box(&mut self.out, ended.at, ended.code)?;
        if ended.code != codes::TRAK {
            return Ok(());
        }
        if self.tables_at.len() < self.begun {
            return Err(FormStop::Refused(FormRefusal::NoDescriptions(TrackPlace {
                number: self.begun,
                position: self.position,
            })));
        }
        if self.begun == self.new.tables.len() {
            self.out.extend_from_slice(self.new.extends)?;
        }
        Ok(())
    }

    /// Ends the boxes that were entered at `depth` or deeper.
    fn close_to(&mut self, depth: u64) -> Result<(), FormStop> {
        for _ in 0..self.unended.len() {
            let Some(last) = self.unended.pop() else {
                break;
            };
            if last.depth < depth {
                self.unended.push(last)?;
                break;
            }
            self.close(last)?;
        }
        Ok(())
    }

    /// Copies or leaves out `found`, or enters it.
    fn add<S: Source>(
        &mut self,
        alloc: Global,
        walk: &mut BoxWalk<S>,
        found: &TreeBox,
    ) -> Result<(), Stop> {
        if let Some(depth) = self.whole {
            if found.depth > depth {
                return Ok(());
            }
        }
        self.whole = None;
        self.close_to(found.depth)?;
        if found.depth == 2 && code_of(found) == codes::EDTS && self.has_edits() {
            self.whole = Some(found.depth);
            return Ok(());
        }
        match action_for(found)? {
            Action::Enter => self.enter(found, code_of(found))?,
            Action::Keep => {
                self.whole = Some(found.depth);
                self.copy(alloc, walk, found)?;
                match (found.depth, code_of(found)) {
                    (5, codes::STSD) => self.put_tables()?,
                    (2, codes::TKHD) => self.put_edits()?,
                    _ => {}
                }
            }
            Action::Leave => self.whole = Some(found.depth),
        }
        Ok(())
    }
}

/// Returns the code of `found` as a number, or 0 if it has none.
fn code_of(found: &TreeBox) -> u32 {
    match found.code {
        Some(code) => u32::from(code),
        None => 0,
    }
}

/// Returns a copy of the `moov` among `boxes`, with what is new in it. Needs the memory of the new `moov` and of its
/// largest box that is copied whole.
pub(crate) fn copy_movie<S: Source>(
    alloc: Global,
    walk: &mut BoxWalk<S>,
    boxes: &[TreeBox],
    new: NewMovie<'_>,
) -> Result<CopiedMovie, Stop> {
    let mut copy = Copying {
        new,
        out: Vec::new(alloc),
        unended: Vec::new(alloc),
        tables_at: Vec::new(alloc),
        begun: 0,
        position: 0,
        whole: None,
    };
    let mut is_in_movie = false;
    for found in boxes {
        if found.depth == 0 {
            is_in_movie = code_of(found) == codes::MOOV;
        }
        if is_in_movie {
            copy.add(alloc, walk, found)?;
        }
    }
    copy.close_to(0)?;
    let Copying {
        new: _,
        out,
        unended: _,
        tables_at,
        begun: _,
        position: _,
        whole: _,
    } = copy;
    Ok(CopiedMovie {
        bytes: out,
        tables_at,
    })
}
