//! The faults of a file, as values.

ghost use Rattle.std.specs.Prelude.{◌≡◌};
ghost use Rattle.mp4_check.specs.Codes.{code_of, severity_of, severity_word, word_of};

use crate::duration::Duration;
use crate::outside::Outside;
use crate::overlap::Overlap;
use crate::sample_faults::SampleFaults;
use mp4_content::{NotMp4, Part};
use mp4_frame::Error;
use mp4_samples::Disagreement;

/// A cause of a fault. Positions, offsets and sizes are in bytes.
#[derive(Clone, Copy, Debug)]
pub enum What {
    /// The file is not an MP4 file.
    Foreign(NotMp4),
    /// A box of the top level declares `declared` bytes, and `present` are present.
    Lost {
        /// The number of bytes that it declares.
        declared: u64,
        /// The number of bytes from its first one to the end of the file.
        present: u64,
    },
    /// A box declares more bytes than the box around it has left, or has fewer bytes than a header.
    Cut,
    /// A box declares fewer bytes than its header has.
    Small,
    /// The content of a box can't be read.
    Invalid,
    /// A box with the code `parent` may contain only one box of `group`, and one is before this box, at `earlier`.
    Repeated {
        /// The code of the box around this one.
        parent: u32,
        /// The first code of the group.
        group: u32,
        /// The position of the last box of the group before this one.
        earlier: u64,
    },
    /// A box of this code is missing in the box.
    Missing(u32),
    /// The sizes in an `stz2` can't be listed.
    Unlisted,
    /// An `avcC` has no sequence parameter set or no picture parameter set.
    WithoutSets,
    /// The file has no movie, fragment, items or index.
    NoMovie,
    /// A track_ID is 0.
    TrackZero,
    /// The track_ID `track_id` is also that of an earlier track, whose `tkhd` is at `earlier`.
    TrackTwice {
        /// The track_ID.
        track_id: u32,
        /// The position of the `tkhd` of the first track with it.
        earlier: u64,
    },
    /// No track of the movie has this track_ID.
    NoTrack(u32),
    /// The sample tables of a track disagree.
    Disagree,
    /// Chunks lie outside the media data.
    ChunksOutside(Outside),
    /// Chunks share bytes with the chunk before them.
    ChunksOverlap(Overlap),
    /// The duration in an `mdhd` is not that of the samples.
    MediaDuration(Duration),
    /// The duration in a `tkhd` is not that of the edits, or of the samples if there are no edits.
    TrackDuration(Duration),
    /// The duration in the `mvhd` is not that of the longest track.
    MovieDuration(Duration),
    /// Runs of a fragment lie outside the media data.
    RunsOutside(Outside),
    /// A fragment starts at `time`, before the fragment of the same track that is before it in the file.
    TimeBack {
        /// The time of the fragment.
        time: u64,
        /// The time of the last fragment of the track before it.
        earlier: u64,
    },
    /// A subsegment of an index begins, or the last one ends, at `position`, where no box begins.
    IndexSizes {
        /// The number of subsegments that end there or before.
        before: u64,
        /// The position.
        position: u64,
    },
    /// NAL units don't fill samples.
    Units(SampleFaults),
    /// Samples have a part of a frame of PCM.
    Frames(SampleFaults),
}

/// The kind of a fault. Its word never changes.
#[derive(Clone, Copy, Debug, PartialEq, Eq)]
pub enum Code {
    /// See `What::Foreign`.
    NotMp4,
    /// See `What::Lost`.
    FileCut,
    /// See `What::Cut`.
    BoxCut,
    /// See `What::Small`.
    BoxTooSmall,
    /// See `What::Invalid`.
    BoxInvalid,
    /// See `What::Repeated`.
    BoxRepeated,
    /// See `What::Missing`.
    BoxMissing,
    /// See `What::Unlisted`.
    SizesUnlisted,
    /// See `What::WithoutSets`.
    AvcWithoutSets,
    /// See `What::NoMovie`.
    MovieMissing,
    /// See `What::TrackZero`.
    TrackIdZero,
    /// See `What::TrackTwice`.
    TrackIdRepeated,
    /// See `What::NoTrack`.
    TrackIdUnknown,
    /// See `What::Disagree`.
    TablesDisagree,
    /// See `What::ChunksOutside`.
    ChunkOutsideMedia,
    /// See `What::ChunksOverlap`.
    ChunksOverlap,
    /// See `What::MediaDuration`.
    MediaDuration,
    /// See `What::TrackDuration`.
    TrackDuration,
    /// See `What::MovieDuration`.
    MovieDuration,
    /// See `What::RunsOutside`.
    RunOutsideMedia,
    /// See `What::TimeBack`.
    DecodeTimeBack,
    /// See `What::IndexSizes`.
    IndexSizes,
    /// See `What::Units`.
    NalUnitsMisfit,
    /// See `What::Frames`.
    PcmFramesCut,
}

/// The severity of a fault.
#[derive(Clone, Copy, Debug, PartialEq, Eq)]
pub enum Severity {
    /// A player fails, or leaves something out.
    Failure,
    /// The standard is broken, and players cope.
    Warning,
}

/// The error that a reader of the library gave for a fault. It only adds words for people.
#[derive(Debug, Drop)]
pub enum Reason {
    /// There is none.
    None,
    /// The fault of a box.
    Content(Error),
    /// The disagreement of the tables of a track.
    Tables(Disagreement),
}

/// A fault of a file.
#[derive(Debug, Drop)]
pub struct Fault {
    /// The position of the box that has the fault, or 0 if no box has it.
    pub position: u64,
    /// The path of that box.
    pub path: Vec<Part>,
    /// The cause.
    pub what: What,
    /// The error of the library.
    pub reason: Reason,
}

impl What {
    /// Returns the kind of the fault.
    pub fn code(self) -> Code
        ensures { result ≡ code_of self }
    {
        match self {
            What::Foreign(_) => Code::NotMp4,
            What::Lost { .. } => Code::FileCut,
            What::Cut => Code::BoxCut,
            What::Small => Code::BoxTooSmall,
            What::Invalid => Code::BoxInvalid,
            What::Repeated { .. } => Code::BoxRepeated,
            What::Missing(_) => Code::BoxMissing,
            What::Unlisted => Code::SizesUnlisted,
            What::WithoutSets => Code::AvcWithoutSets,
            What::NoMovie => Code::MovieMissing,
            What::TrackZero => Code::TrackIdZero,
            What::TrackTwice { .. } => Code::TrackIdRepeated,
            What::NoTrack(_) => Code::TrackIdUnknown,
            What::Disagree => Code::TablesDisagree,
            What::ChunksOutside(_) => Code::ChunkOutsideMedia,
            What::ChunksOverlap(_) => Code::ChunksOverlap,
            What::MediaDuration(_) => Code::MediaDuration,
            What::TrackDuration(_) => Code::TrackDuration,
            What::MovieDuration(_) => Code::MovieDuration,
            What::RunsOutside(_) => Code::RunOutsideMedia,
            What::TimeBack { .. } => Code::DecodeTimeBack,
            What::IndexSizes { .. } => Code::IndexSizes,
            What::Units(_) => Code::NalUnitsMisfit,
            What::Frames(_) => Code::PcmFramesCut,
        }
    }
}

impl Severity {
    /// Returns the word of this severity.
    pub fn word(self) -> &'static str
        ensures { result.now ≡ severity_word self }
    {
        match self {
            Severity::Failure => "error",
            Severity::Warning => "warning",
        }
    }
}

impl Code {
    /// Returns the severity of all faults of this kind.
    pub fn severity(self) -> Severity
        ensures { result ≡ severity_of self }
    {
        match self {
            Code::BoxRepeated
            | Code::TrackIdZero
            | Code::ChunksOverlap
            | Code::MediaDuration
            | Code::TrackDuration
            | Code::MovieDuration
            | Code::DecodeTimeBack
            | Code::PcmFramesCut => Severity::Warning,
            _ => Severity::Failure,
        }
    }

    /// Returns the word of this kind.
    pub fn word(self) -> &'static str
        ensures { result.now ≡ word_of self }
    {
        match self {
            Code::NotMp4 => "not-mp4",
            Code::FileCut => "file-cut",
            Code::BoxCut => "box-cut",
            Code::BoxTooSmall => "box-too-small",
            Code::BoxInvalid => "box-invalid",
            Code::BoxRepeated => "box-repeated",
            Code::BoxMissing => "box-missing",
            Code::SizesUnlisted => "sizes-unlisted",
            Code::AvcWithoutSets => "avc-without-sets",
            Code::MovieMissing => "movie-missing",
            Code::TrackIdZero => "track-id-zero",
            Code::TrackIdRepeated => "track-id-repeated",
            Code::TrackIdUnknown => "track-id-unknown",
            Code::TablesDisagree => "tables-disagree",
            Code::ChunkOutsideMedia => "chunk-outside-media",
            Code::ChunksOverlap => "chunks-overlap",
            Code::MediaDuration => "media-duration",
            Code::TrackDuration => "track-duration",
            Code::MovieDuration => "movie-duration",
            Code::RunOutsideMedia => "run-outside-media",
            Code::DecodeTimeBack => "decode-time-back",
            Code::IndexSizes => "index-sizes",
            Code::NalUnitsMisfit => "nal-units-misfit",
            Code::PcmFramesCut => "pcm-frames-cut",
        }
    }
}
