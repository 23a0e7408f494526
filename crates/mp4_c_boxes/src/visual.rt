//! The fields of a visual sample entry, which `avc1` and `hev1` share.

/// The fields of a visual sample entry (ISO/IEC 14496-12, 12.1.3).
#[repr(C)]
#[derive(Clone, Copy, Default)]
pub struct Visual {
    /// The horizontal resolution, in pixels per inch times 65536.
    pub horizresolution: u32,
    /// The vertical resolution, in pixels per inch times 65536.
    pub vertresolution: u32,
    /// The index of the data reference of the samples, counted from 1.
    pub data_reference_index: u16,
    /// The width, in pixels.
    pub width: u16,
    /// The height, in pixels.
    pub height: u16,
    /// The number of frames in each sample.
    pub frame_count: u16,
    /// The number of bits of a pixel.
    pub depth: u16,
}
