//! The names of flags, without what all flags of a box begin or end with.

use mp4_shown::Meaning;

/// The flags of a track header (ISO/IEC 14496-12, 8.3.2.3).
pub(crate) const TRACK: &[Meaning] = &[
    (0x1, "enabled"),
    (0x2, "in_movie"),
    (0x4, "in_preview"),
    (0x8, "size_is_aspect_ratio"),
];

/// The flags of a track fragment header (ISO/IEC 14496-12, 8.8.7.1).
pub(crate) const TRACK_FRAGMENT: &[Meaning] = &[
    (0x1, "base_data_offset"),
    (0x2, "sample_description_index"),
    (0x8, "default_sample_duration"),
    (0x10, "default_sample_size"),
    (0x20, "default_sample_flags"),
    (0x1_0000, "duration_is_empty"),
    (0x2_0000, "default_base_is_moof"),
];

/// The flags of a track run (ISO/IEC 14496-12, 8.8.8.1).
pub(crate) const TRACK_RUN: &[Meaning] = &[
    (0x1, "data_offset"),
    (0x4, "first_sample_flags"),
    (0x100, "sample_duration"),
    (0x200, "sample_size"),
    (0x400, "sample_flags"),
    (0x800, "sample_composition_time_offset"),
];

/// The flags of a reference to media data (ISO/IEC 14496-12, 8.7.2.1).
pub(crate) const REFERENCE: &[Meaning] = &[(0x1, "same_file")];

/// The flag of a sample that has a bit of its own (ISO/IEC 14496-12, 8.8.3.1).
pub(crate) const SAMPLE: &[Meaning] = &[(0x1_0000, "non_sync")];
