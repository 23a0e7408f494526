//! The structs for C of HEVC video: its configuration and its sample entry.

ghost use Rattle.std.specs.Prelude.{◌≡◌};
ghost use Rattle.mp4_c_boxes.specs.Hevc.{fields_hvcc, hev1_of, no_hev1, fields_hev1};
ghost use Rattle.mp4_c_boxes.specs.Visual.{visual_of_hev1};

use crate::to_struct::ToStruct;
use crate::visual::Visual;
use mp4_entries::{Hev1Box, HvcCBox};
use mp4_media::FixedPointU16;

/// The one field of an `hvcC` that the codec reads (ISO/IEC 14496-15, 8.3.3.1).
#[repr(C)]
#[derive(Clone, Copy, Default)]
pub struct Hvcc {
    /// The version of the configuration: 1 in the standard.
    pub configuration_version: u8,
}

impl ToStruct<Hvcc> for HvcCBox {
    ghost to_struct = { fields_hvcc };

    fn to_struct(&self) -> Hvcc {
        Hvcc {
            configuration_version: self.configuration_version,
        }
    }
}

/// The fields of an `hev1` (ISO/IEC 14496-15, 8.4.1).
#[repr(C)]
#[derive(Clone, Copy, Default)]
pub struct Hev1 {
    /// The fields of the visual sample entry.
    pub visual: Visual,
    /// The configuration of the decoder.
    pub hvcc: Hvcc,
}

/// Returns the fields that `found` has as a visual sample entry.
fn visual_of(found: &Hev1Box) -> Visual
    ensures { result ≡ visual_of_hev1 found.now }
{
    Visual {
        horizresolution: found.horizresolution.raw_value(),
        vertresolution: found.vertresolution.raw_value(),
        data_reference_index: found.data_reference_index,
        width: found.width,
        height: found.height,
        frame_count: found.frame_count,
        depth: found.depth,
    }
}

impl Hev1 {
    /// Returns zeros, for an `stsd` whose entry is of another type.
    pub(crate) fn none() -> Hev1
        ensures { result ≡ no_hev1 }
    {
        Hev1::default()
    }
}

impl ToStruct<Hev1> for Hev1Box {
    ghost to_struct = { fields_hev1 };

    fn to_struct(&self) -> Hev1 {
        Hev1 {
            visual: visual_of(self),
            hvcc: self.hvcc.to_struct(),
        }
    }
}

/// Returns the box with `fields`.
pub(crate) fn hev1_of(fields: &Hev1) -> Hev1Box
    ensures { result ≡ hev1_of fields.now }
{
    Hev1Box {
        data_reference_index: fields.visual.data_reference_index,
        width: fields.visual.width,
        height: fields.visual.height,
        horizresolution: FixedPointU16::new_raw(fields.visual.horizresolution),
        vertresolution: FixedPointU16::new_raw(fields.visual.vertresolution),
        frame_count: fields.visual.frame_count,
        depth: fields.visual.depth,
        hvcc: HvcCBox {
            configuration_version: fields.hvcc.configuration_version,
        },
    }
}
