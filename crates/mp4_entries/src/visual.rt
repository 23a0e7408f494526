//! The fields that all visual sample entries begin with.

ghost use Rattle.std.specs.Prelude.{◌≡◌, ◌≤◌, ◌↔◌, IsTrue, length, take};
ghost use Rattle.mp4_frame.specs.Bytes.{number, bytes_of_fields, FieldsFit};
ghost use Rattle.mp4_frame.specs.FieldsThenChild.{WritableParent};
ghost use Rattle.mp4_entries.specs.Visual.{visual_at, visual_of, content_visual, fields_visual, size_visual};

use mp4_frame::{WriteBox, put_u16, put_u32, put_zeros, u16_at, u32_at};
use mp4_media::FixedPointU16;

/// The fields of a visual sample entry (ISO/IEC 14496-12, 12.1.3).
#[derive(Drop)]
pub struct Visual {
    /// The number of the samples' data reference, starting at 1.
    pub data_reference_index: u16,
    /// The width, in pixels.
    pub width: u16,
    /// The height, in pixels.
    pub height: u16,
    /// The horizontal resolution in pixels per inch.
    pub horizresolution: FixedPointU16,
    /// The vertical resolution in pixels per inch.
    pub vertresolution: FixedPointU16,
    /// The number of frames in a sample.
    pub frame_count: u16,
    /// The number of bits of a pixel.
    pub depth: u16,
}

impl Visual {
    /// Creates fields with 72 pixels per inch, one frame per sample, and 24 bits per pixel.
    pub fn new(data_reference_index: u16, width: u16, height: u16) -> Visual
        ensures { result ≡ visual_of data_reference_index width height }
    {
        Visual {
            data_reference_index,
            width,
            height,
            horizresolution: FixedPointU16::new(0x48),
            vertresolution: FixedPointU16::new(0x48),
            frame_count: 1,
            depth: 24,
        }
    }
}

/// Returns the fields of the box at the start of `bytes`.
pub(crate) fn visual_at(bytes: &[u8]) -> Visual
    requires { 86 ≤ length bytes.now }
    ensures { result ≡ visual_at (number bytes.now) }
{
    Visual {
        data_reference_index: u16_at(bytes, 14),
        width: u16_at(bytes, 32),
        height: u16_at(bytes, 34),
        horizresolution: FixedPointU16::new_raw(u32_at(bytes, 36)),
        vertresolution: FixedPointU16::new_raw(u32_at(bytes, 40)),
        frame_count: u16_at(bytes, 48),
        depth: u16_at(bytes, 82),
    }
}

/// Returns true. For the prover: a value that was read has the range of its type.
fn is_visual(visual: Visual) -> bool
    ensures { IsTrue result ↔ FieldsFit (content_visual visual) }
{
    let (_index, _width, _height) = (visual.data_reference_index, visual.width, visual.height);
    let (_frame_count, _depth) = (visual.frame_count, visual.depth);
    let _horizontal = visual.horizresolution.raw_value();
    let _vertical = visual.vertresolution.raw_value();
    true
}

/// Returns whether a box with this `code`, the fields `visual` and this `child` can be written.
pub(crate) fn is_writable_entry<T: WriteBox>(code: u32, visual: Visual, child: &T) -> bool
    ensures { IsTrue result ↔ WritableParent T.format.Writable
        (fields_visual (size_visual T.format child.now) code visual) child.now }
{
    is_visual(visual) && child.is_writable() && child.box_size() < (1 << 32) - 86
}

/// Puts `size`, `code` and the fields, and returns the offset after them.
#[tactic(auto, unfolding(mp4_frame::specs::Bytes::bytes_of_fields, mp4_frame::specs::Bytes::bytes_of_fields_onto))]
pub(crate) fn put_visual(out: &mut [u8], size: u32, code: u32, visual: Visual) -> usize
    requires { 86 ≤ length out.old }
    ensures next { result ≡ 86 }
    ensures put { take result out.new ≡ bytes_of_fields (fields_visual size code visual) }
{
    let at = put_u32(out, 0, size);
    let at = put_u32(out, at, code);
    let at = put_zeros(out, at, 6);
    let at = put_u16(out, at, visual.data_reference_index);
    let at = put_zeros(out, at, 16);
    let at = put_u16(out, at, visual.width);
    let at = put_u16(out, at, visual.height);
    let at = put_u32(out, at, visual.horizresolution.raw_value());
    let at = put_u32(out, at, visual.vertresolution.raw_value());
    let at = put_zeros(out, at, 4);
    let at = put_u16(out, at, visual.frame_count);
    let at = put_zeros(out, at, 32);
    let at = put_u16(out, at, visual.depth);
    put_u16(out, at, 0xffff)
}
