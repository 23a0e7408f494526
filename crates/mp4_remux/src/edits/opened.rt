//! A file that shortcuts look at.

ghost use Rattle.std.specs.Prelude.{◌≤◌, IfOk, length};

use crate::edits::finding::box_at;
use crate::edits::path_text::path_text;
use crate::edits::refusal::EditRefusal;
use crate::refusal::{Stop, refused};
use mp4_frame::FourCC;
use mp4_movie::{Movie, TrackInfo};
use mp4_walk::{BoxPath, BoxWalk, PathPart, Source, TreeBox};
use std::alloc::{AllocError, Global};

/// A file with its boxes and tracks.
#[derive(Drop)]
pub struct Opened<S: Source> {
    /// A walk over the file, which reads its boxes.
    pub walk: BoxWalk<S>,
    /// The boxes of the file.
    pub boxes: Vec<TreeBox>,
    /// Its tracks.
    pub tracks: Vec<TrackInfo>,
}

/// Returns the path with these codes, each of which has as many boxes with its code before it.
pub(crate) fn path_of(alloc: Global, parts: &[(u32, u64)]) -> Result<BoxPath, AllocError> {
    let mut path = Vec::new(alloc);
    for part in parts {
        path.push(PathPart {
            code: FourCC::from(part.0),
            index: part.1,
        })?;
    }
    Ok(BoxPath { parts: path })
}

impl<S: Source> Opened<S> {
    /// Opens `source`.
    pub(crate) fn new(alloc: Global, source: S) -> Result<Opened<S>, Stop> {
        let mut movie = Movie::open(alloc, source)?;
        let tracks = movie.tracks(alloc)?;
        let (walk, boxes) = movie.into_parts();
        Ok(Opened {
            walk,
            boxes,
            tracks,
        })
    }

    /// Returns the box at `path`, if there is one.
    pub(crate) fn find(&self, path: &BoxPath) -> Option<TreeBox> {
        box_at(&self.boxes, path)
    }

    /// Returns the box at `path`.
    pub(crate) fn expect(&self, alloc: Global, path: &BoxPath) -> Result<TreeBox, Stop> {
        match self.find(path) {
            Some(found) => Ok(found),
            None => {
                let text = path_text(alloc, path)?;
                Err(refused(EditRefusal::Missing(text)))
            }
        }
    }

    /// Returns the first `count` bytes of the content of the box at `path`, which is `found`.
    pub fn front(
        &mut self,
        alloc: Global,
        path: &BoxPath,
        found: &TreeBox,
        count: u64,
    ) -> Result<Vec<u8>, Stop>
        ensures { IfOk result (λ bytes. count ≤ length bytes.items) }
    {
        let front = TreeBox {
            length: found.header_length.saturating_add(count),
            ..*found
        };
        let bytes = self.walk.read_content(alloc, &front)?;
        if found.content_length() < count || (bytes.len() as u64) < count {
            let text = path_text(alloc, path)?;
            return Err(refused(EditRefusal::Short {
                path: text,
                position: found.position,
            }));
        }
        Ok(bytes)
    }

    /// Returns the number of the track with this track_ID, if there is one only.
    pub(crate) fn number_of(&self, id: u32) -> Result<u64, Stop> {
        let mut number = None;
        for track in &self.tracks {
            if let Ok(found) = &track.track_id {
                if *found == id {
                    if number.is_some() {
                        return Err(refused(EditRefusal::TwoTracks(id)));
                    }
                    number = Some(track.number as u64);
                }
            }
        }
        match number {
            Some(number) => Ok(number),
            None => Err(refused(EditRefusal::NoTrackId(id))),
        }
    }
}
