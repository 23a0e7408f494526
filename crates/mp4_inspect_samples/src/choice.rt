//! The samples that are asked for.

use crate::row_text::Form;

/// The samples that are written, and their form.
#[derive(Clone, Copy, Debug, PartialEq, Eq)]
pub struct Choice {
    /// The form of rows.
    pub form: Form,
    /// The track_ID of the track whose samples are written, or `None` for all tracks.
    pub track: Option<u32>,
    /// Asks for all samples, past the end of the file too.
    pub beyond: bool,
    /// Asks for times in seconds.
    pub seconds: bool,
    /// Asks for presentation times by the edit lists of the tracks.
    pub edits: bool,
    /// Asks for sync samples only.
    pub sync: bool,
    /// Asks for a row for each `moof` instead of each sample.
    pub segments: bool,
}
