//! The sample entry of AVC video, `avc1`.

ghost use Rattle.std.specs.Prelude.{◌≡◌, ◌≤◌, ◌-◌, ◌^◌, [], IfOk, IfErr, length, min};
ghost use Rattle.mp4_frame.specs.declared.error.Error.TheVariants.{OutOfMemory};
ghost use Rattle.mp4_frame.specs.declared.box_type.BoxType.TheVariants as names;
ghost use Rattle.mp4_frame.specs.Format.{write_laws};
ghost use Rattle.mp4_entries.specs.Visual.{visual_of};
ghost use Rattle.mp4_entries.specs.Avc1.{visual_avc1, avc1_of, made_avc1, reads_avc1, size_avc1, format_avc1};
ghost use Rattle.mp4_entries.specs.Avc1Laws.{laws_avc1};

use crate::avcc::AvcCBox;
use crate::visual::{Visual, is_writable_entry, put_visual, visual_at};
use mp4_frame::{
    BoxLaws, BoxType, Mp4Box, Parent, ReadBox, Result, TryClone, WriteBox, codes, expect_bytes,
    named_child, put_child,
};
use mp4_media::{AvcConfig, FixedPointU16};
use std::alloc::Global;

/// The sample entry of AVC video (`avc1`, ISO/IEC 14496-15, 5.4.2). Boxes after its `avcC` are neither read nor
/// written.
#[derive(Debug, Drop, PartialEq, Eq)]
pub struct Avc1Box {
    /// The number of the samples' data reference, starting at 1.
    pub data_reference_index: u16,
    /// The width, in pixels.
    pub width: u16,
    /// The height, in pixels.
    pub height: u16,
    /// The horizontal resolution in pixels per inch, usually 72.
    pub horizresolution: FixedPointU16,
    /// The vertical resolution in pixels per inch, usually 72.
    pub vertresolution: FixedPointU16,
    /// The number of frames in a sample, usually 1.
    pub frame_count: u16,
    /// The number of bits of a pixel, usually 24.
    pub depth: u16,
    /// The configuration of the decoder.
    pub avcc: AvcCBox,
}

/// Returns the box with the fields `visual` and the configuration `avcc`.
fn avc1_of(visual: Visual, avcc: AvcCBox) -> Avc1Box
    ensures { result ≡ avc1_of visual avcc }
{
    Avc1Box {
        data_reference_index: visual.data_reference_index,
        width: visual.width,
        height: visual.height,
        horizresolution: visual.horizresolution,
        vertresolution: visual.vertresolution,
        frame_count: visual.frame_count,
        depth: visual.depth,
        avcc,
    }
}

impl Avc1Box {
    /// Creates an entry with 72 pixels per inch, one frame per sample, 24 bits per pixel, and the default
    /// configuration. This takes no memory.
    pub fn default_in(alloc: Global) -> Avc1Box
        ensures { result ≡ avc1_of (visual_of 0 0 0)
            (record {
              configuration_version = 0;
              avc_profile_indication = 0;
              profile_compatibility =
                  0;
              avc_level_indication = 0;
              length_size_minus_one = 0;
              sequence_parameter_sets =
                  [];
              picture_parameter_sets = [];
            }) }
    {
        avc1_of(Visual::new(0, 0, 0), AvcCBox::default_in(alloc))
    }

    /// Creates an entry with the data reference 1 and the width, height and parameter sets of `config`. The other
    /// fields are those of `default_in`, except that the `avcC` is made by `AvcCBox::new`. The caller ensures that the
    /// sequence set has at least four bytes. The only error is out of memory.
    pub fn new(alloc: Global, config: &AvcConfig) -> Result<Avc1Box>
        requires { 4 ≤ length config.now.seq_param_set }
        ensures made { IfOk result (λ v. v ≡ made_avc1 config.now) }
        ensures memory { IfErr result (λ e. e ≡ OutOfMemory) }
    {
        let visual = Visual::new(1, config.width, config.height);
        let sps = config.seq_param_set.as_slice();
        let pps = config.pic_param_set.as_slice();
        Ok(avc1_of(visual, AvcCBox::new(alloc, sps, pps)?))
    }

    /// Returns the fields that all visual sample entries have.
    fn visual(&self) -> Visual
        ensures { result ≡ visual_avc1 self.now }
    {
        Visual {
            data_reference_index: self.data_reference_index,
            width: self.width,
            height: self.height,
            horizresolution: self.horizresolution,
            vertresolution: self.vertresolution,
            frame_count: self.frame_count,
            depth: self.depth,
        }
    }

    /// Returns the type of the box, like `box_type`.
    pub fn get_type(&self) -> BoxType
        ensures { result ≡ names.Avc1Box }
    {
        self.box_type()
    }

    /// Returns the number of bytes of the box, like `box_size`.
    pub fn get_size(&self) -> u64
        ensures { result ≡ min (size_avc1 self.now) (2 ^ 64 - 1) }
    {
        self.box_size()
    }
}

impl TryClone for Avc1Box {
    fn try_clone(&self) -> Result<Avc1Box> {
        Ok(avc1_of(self.visual(), self.avcc.try_clone()?))
    }
}

impl Mp4Box for Avc1Box {
    ghost format = { format_avc1 };

    fn box_type(&self) -> BoxType {
        BoxType::Avc1Box
    }

    fn box_size(&self) -> u64 {
        self.avcc.box_size().saturating_add(86)
    }
}

impl ReadBox for Avc1Box {
    ghost reads = { reads_avc1 };

    const LEAST: u64 = 0;

    #[tactic(auto, unfolding(crate::specs::Avc1::reads_avc1))]
    fn read_content(alloc: Global, bytes: &[u8], start: u64, size: u64) -> Result<Avc1Box> {
        expect_bytes(bytes, 8, 78)?;
        let parent = Parent {
            bytes,
            start,
            size,
            too_large: "avc1 box contains a box with a larger size than it",
        };
        let avcc = named_child(alloc, &parent, codes::AVCC, 86, "avcc not found")?;
        Ok(avc1_of(visual_at(bytes), avcc))
    }
}

impl WriteBox for Avc1Box {
    fn is_writable(&self) -> bool {
        is_writable_entry(codes::AVC1, self.visual(), &self.avcc)
    }

    #[tactic(auto, unfolding(mp4_frame::specs::Bytes::bytes_of_fields, mp4_frame::specs::Bytes::bytes_of_fields_onto))]
    fn put_box(&self, out: &mut [u8]) {
        let size = self.box_size() as u32;
        let at = put_visual(out, size, codes::AVC1, self.visual());
        put_child(out, at, &self.avcc);
    }

    ghost write_laws = { write_laws laws_avc1 };
}

impl BoxLaws for Avc1Box {
    ghost laws = { laws_avc1 };
}
