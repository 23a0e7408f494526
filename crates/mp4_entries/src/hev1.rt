//! The sample entry of HEVC video, `hev1`.

ghost use Rattle.std.specs.Prelude.{◌≡◌};
ghost use Rattle.mp4_frame.specs.declared.box_type.BoxType.TheVariants as names;
ghost use Rattle.mp4_frame.specs.Format.{write_laws};
ghost use Rattle.mp4_entries.specs.Hev1.{visual_hev1, hev1_of, made_hev1, reads_hev1, size_hev1, format_hev1};
ghost use Rattle.mp4_entries.specs.Hev1Laws.{laws_hev1, hev1_takes_none};

use crate::hvcc::HvcCBox;
use crate::visual::{Visual, is_writable_entry, put_visual, visual_at};
use mp4_frame::{
    BoxLaws, BoxType, Mp4Box, Parent, ReadBox, ReadsWithoutMemory, Result, TryClone, WriteBox,
    codes, expect_bytes, named_child, put_child,
};
use mp4_media::{FixedPointU16, HevcConfig};
use std::alloc::Global;

/// The sample entry of HEVC video (`hev1`, ISO/IEC 14496-15, 8.4.1). Boxes after its `hvcC` are neither read nor
/// written.
#[derive(Clone, Debug, Drop, PartialEq, Eq)]
pub struct Hev1Box {
    /// The horizontal resolution in pixels per inch, usually 72.
    pub horizresolution: FixedPointU16,
    /// The vertical resolution in pixels per inch, usually 72.
    pub vertresolution: FixedPointU16,
    /// The number of the samples' data reference, starting at 1.
    pub data_reference_index: u16,
    /// The width, in pixels.
    pub width: u16,
    /// The height, in pixels.
    pub height: u16,
    /// The number of frames in a sample, usually 1.
    pub frame_count: u16,
    /// The number of bits of a pixel, usually 24.
    pub depth: u16,
    /// The configuration of the decoder.
    pub hvcc: HvcCBox,
}

/// Returns the box with the fields `visual` and the configuration `hvcc`.
fn hev1_of(visual: Visual, hvcc: HvcCBox) -> Hev1Box
    ensures { result ≡ hev1_of visual hvcc }
{
    Hev1Box {
        data_reference_index: visual.data_reference_index,
        width: visual.width,
        height: visual.height,
        horizresolution: visual.horizresolution,
        vertresolution: visual.vertresolution,
        frame_count: visual.frame_count,
        depth: visual.depth,
        hvcc,
    }
}

/// 72 pixels per inch, one frame per sample, 24 bits per pixel, and a decoder configuration of version 0.
impl Default for Hev1Box {
    ghost use Rattle.mp4_entries.specs.Hev1.{hev1_of, format_hev1};
    ghost use Rattle.mp4_entries.specs.Visual.{visual_of};

    ghost is_default = { λ v. v ≡ hev1_of (visual_of 0 0 0) (record { configuration_version = 0 }) };

    fn default() -> Hev1Box {
        hev1_of(
            Visual::new(0, 0, 0),
            HvcCBox {
                configuration_version: 0,
            },
        )
    }
}

impl Hev1Box {
    /// Creates an entry with the data reference 1, the width and height of `config`, and a decoder configuration of
    /// version 1. The other fields have their default values.
    pub fn new(config: &HevcConfig) -> Hev1Box
        ensures { result ≡ made_hev1 config.now }
    {
        hev1_of(Visual::new(1, config.width, config.height), HvcCBox::new())
    }

    /// Returns the fields that all visual sample entries have.
    fn visual(&self) -> Visual
        ensures { result ≡ visual_hev1 self.now }
    {
        Visual {
            data_reference_index: self.data_reference_index,
            width: self.width,
            height: self.height,
            horizresolution: self.horizresolution,
            vertresolution: self.vertresolution,
            frame_count: self.frame_count,
            depth: self.depth,
        }
    }

    /// Returns the type of the box, like `box_type`.
    pub fn get_type(&self) -> BoxType
        ensures { result ≡ names.Hev1Box }
    {
        self.box_type()
    }

    /// Returns the number of bytes of the box, like `box_size`.
    pub fn get_size(&self) -> u64
        ensures { result ≡ size_hev1 self.now }
    {
        self.box_size()
    }
}

impl TryClone for Hev1Box {
    fn try_clone(&self) -> Result<Hev1Box> {
        Ok(self.clone()?)
    }
}

impl Mp4Box for Hev1Box {
    ghost format = { format_hev1 };

    fn box_type(&self) -> BoxType {
        BoxType::Hev1Box
    }

    fn box_size(&self) -> u64 {
        86 + self.hvcc.box_size()
    }
}

impl ReadBox for Hev1Box {
    ghost reads = { reads_hev1 };

    const LEAST: u64 = 0;

    #[tactic(auto, unfolding(crate::specs::Hev1::reads_hev1))]
    fn read_content(alloc: Global, bytes: &[u8], start: u64, size: u64) -> Result<Hev1Box> {
        expect_bytes(bytes, 8, 78)?;
        let parent = Parent {
            bytes,
            start,
            size,
            too_large: "hev1 box contains a box with a larger size than it",
        };
        let hvcc = named_child(alloc, &parent, codes::HVCC, 86, "hvcc not found")?;
        Ok(hev1_of(visual_at(bytes), hvcc))
    }
}

impl ReadsWithoutMemory for Hev1Box {
    ghost takes_none = { hev1_takes_none };
}

impl WriteBox for Hev1Box {
    fn is_writable(&self) -> bool {
        is_writable_entry(codes::HEV1, self.visual(), &self.hvcc)
    }

    #[tactic(auto, unfolding(mp4_frame::specs::Bytes::bytes_of_fields, mp4_frame::specs::Bytes::bytes_of_fields_onto))]
    fn put_box(&self, out: &mut [u8]) {
        let size = self.box_size() as u32;
        let at = put_visual(out, size, codes::HEV1, self.visual());
        put_child(out, at, &self.hvcc);
    }

    ghost write_laws = { write_laws laws_hev1 };
}

impl BoxLaws for Hev1Box {
    ghost laws = { laws_hev1 };
}
