//! The reasons why the edits of a file are refused.

/// The reason why the edits of a file are refused. Positions are in bytes from the front of the file.
#[derive(Debug, Drop, thiserror::Error)]
pub enum EditRefusal {
    /// No box is at a path.
    #[error("there is no {0}")]
    Missing(String),
    /// A box that an edit names is not whole.
    #[error("{path} at {position}: the box is not whole")]
    Cut {
        /// The path of the box.
        path: String,
        /// The position of the box.
        position: u64,
    },
    /// A box into which boxes should be inserted is not known to hold boxes.
    #[error("{path} at {position}: the box holds no boxes, so none can be inserted")]
    Leaf {
        /// The path of the box.
        path: String,
        /// The position of the box.
        position: u64,
    },
    /// A level has fewer boxes than the number of the box before which others should be inserted.
    #[error("{path} has {count} boxes, so none can be inserted before box {number} of it")]
    Few {
        /// The path of the box, or `/` for the file.
        path: String,
        /// The number of boxes in it.
        count: u64,
        /// The number of the box, counted from 0.
        number: u64,
    },
    /// A box counts the boxes in it, so that none of them can be inserted or removed.
    #[error("{0}: boxes are counted there, so none can be inserted or removed")]
    Counted(String),
    /// A box has too few bytes for the fields that a shortcut changes.
    #[error("{path} at {position}: the box has too few bytes")]
    Short {
        /// The path of the box.
        path: String,
        /// The position of the box.
        position: u64,
    },
    /// The last box of the file has no size, so it would take in what is inserted after it.
    #[error("the box at {0} goes up to the end of the file, so nothing can be inserted after it")]
    Open(u64),
    /// No `trak` or `traf` is at the position of one that should be hidden.
    #[error("there is no trak or traf at {0}")]
    NoTrack(u64),
    /// An edit changes the sample tables of a track.
    #[error("{path} at {position}: no edit may change a sample table")]
    SampleTable {
        /// The path of the `stbl`.
        path: String,
        /// The position of the `stbl`.
        position: u64,
    },
    /// An edit changes a fragment.
    #[error("{path} at {position}: no edit may change a fragment")]
    Fragment {
        /// The path of the `moof`.
        path: String,
        /// The position of the `moof`.
        position: u64,
    },
    /// An edit changes boxes in a box of the top level that is not the `moov`.
    #[error("{path} at {position}: boxes in it can't be edited; only those of the file and those in the moov can")]
    Elsewhere {
        /// The path of the box of the top level.
        path: String,
        /// The position of the box.
        position: u64,
    },
    /// Two edits change the same bytes, or one is in a box that the other removes or replaces.
    #[error("two edits change the same box: the second one begins at {0}")]
    Overlap(u64),
    /// No track has a track_ID.
    #[error("no track has the track_ID {0}")]
    NoTrackId(u32),
    /// More than one track has a track_ID.
    #[error("more than one track has the track_ID {0}")]
    TwoTracks(u32),
    /// A shortcut would remove too many boxes, one by one.
    #[error("there are more than 1000 boxes to be removed; the next one is at {0}")]
    Many(u64),
    /// The metadata of a file are not tags of iTunes.
    #[error("{path} at {position}: the metadata are not tags of iTunes")]
    OtherTags {
        /// The path of the `meta`.
        path: String,
        /// The position of the `meta`.
        position: u64,
    },
}
