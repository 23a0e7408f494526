//! Edits of the boxes of a file.

use mp4_walk::BoxPath;

/// A level of boxes.
#[derive(Debug, Drop)]
pub enum Parent {
    /// The top level of the file.
    File,
    /// The boxes in the box at a path.
    In(BoxPath),
}

/// An edit of the boxes of a file. Paths and positions are those of the file before all edits.
#[derive(Debug, Drop)]
pub enum Edit {
    /// Removes the box at a path.
    Remove(BoxPath),
    /// Replaces the box at a path by these bytes, which should be a box.
    Replace(BoxPath, Vec<u8>),
    /// Inserts these bytes, which should be boxes, before the child of this number, counted from 0, or after the last
    /// child.
    Insert(Parent, Option<u64>, Vec<u8>),
    /// Hides the `trak` or `traf` at this position, which is of the track with this track_ID: it becomes a `free` box
    /// of the same length, so the track is dropped.
    Hide(u64, u32),
}
