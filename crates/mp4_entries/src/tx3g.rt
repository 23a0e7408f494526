//! The sample entry of timed text, `tx3g`.

ghost use Rattle.std.specs.Prelude.{◌≡◌, ◌≤◌, ◌+◌, ◌↔◌, IsTrue, length, take};
ghost use Rattle.mp4_frame.specs.Bytes.{bytes_of_fields, bytes_of_fields_onto};
ghost use Rattle.mp4_frame.specs.declared.box_type.BoxType.TheVariants as names;
ghost use Rattle.mp4_frame.specs.Format.{write_laws};
ghost use Rattle.mp4_entries.specs.Tx3g.{start_tx3g, fields_box_record, IsBoxRecord, size_tx3g, reads_tx3g};
ghost use Rattle.mp4_entries.specs.Tx3g.{format_tx3g};
ghost use Rattle.mp4_entries.specs.Tx3gLaws.{laws_tx3g, tx3g_takes_none};

use crate::arrays::{array_at, know_array, put_array};
use crate::rgba_color::RgbaColor;
use mp4_frame::{
    BoxLaws, BoxType, Mp4Box, ReadBox, ReadsWithoutMemory, Result, TryClone, WriteBox, codes,
    expect_bytes, i8_at, i16_at, put_i8, put_i16, put_u8, put_u16, put_u32, put_zeros, u8_at,
    u16_at, u32_at,
};
use std::alloc::Global;

/// The sample entry of timed text (`tx3g`, 3GPP TS 26.245, 5.16). Boxes inside it are neither read nor written.
#[derive(Clone, Debug, Drop, PartialEq, Eq)]
pub struct Tx3gBox {
    /// The flags for scrolling, for karaoke and for the direction of the text.
    pub display_flags: u32,
    /// The number of the samples' data reference, starting at 1.
    pub data_reference_index: u16,
    /// The rectangle of the text in pixels: its top, left, bottom and right.
    pub box_record: [i16; 4],
    /// The horizontal position of the text in its rectangle: 0 for left, 1 for the centre, -1 for right.
    pub horizontal_justification: i8,
    /// The vertical position of the text in its rectangle: 0 for the top, 1 for the centre, -1 for the bottom.
    pub vertical_justification: i8,
    /// The colour behind the text.
    pub bg_color_rgba: RgbaColor,
    /// The style of the text: the first and the last character in 2 bytes each, the font in 2, style flags in 1, the
    /// size in 1, and the colour in 4.
    pub style_record: [u8; 12],
}

impl Default for Tx3gBox {
    ghost use Rattle.mp4_entries.specs.Tx3g.{default_tx3g, format_tx3g};

    ghost is_default = { λ v. v ≡ default_tx3g };

    fn default() -> Tx3gBox {
        Tx3gBox {
            data_reference_index: 0,
            display_flags: 0,
            horizontal_justification: 1,
            vertical_justification: -1,
            bg_color_rgba: RgbaColor {
                red: 0,
                green: 0,
                blue: 0,
                alpha: 255,
            },
            box_record: [0, 0, 0, 0],
            style_record: [0, 0, 0, 0, 0, 1, 0, 16, 255, 255, 255, 255],
        }
    }
}

impl Tx3gBox {
    /// Returns the type of the box, like `box_type`.
    pub fn get_type(&self) -> BoxType
        ensures { result ≡ names.Tx3gBox }
    {
        self.box_type()
    }

    /// Returns the number of bytes of the box, like `box_size`.
    pub fn get_size(&self) -> u64
        ensures { result ≡ size_tx3g self.now }
    {
        self.box_size()
    }
}

impl TryClone for Tx3gBox {
    fn try_clone(&self) -> Result<Tx3gBox> {
        Ok(self.clone()?)
    }
}

impl Mp4Box for Tx3gBox {
    ghost format = { format_tx3g };

    fn box_type(&self) -> BoxType {
        BoxType::Tx3gBox
    }

    fn box_size(&self) -> u64 {
        46
    }
}

impl ReadBox for Tx3gBox {
    ghost reads = { reads_tx3g };

    const LEAST: u64 = 0;

    #[tactic(auto, unfolding(crate::specs::Tx3g::reads_tx3g))]
    fn read_content(_alloc: Global, bytes: &[u8], _start: u64, _size: u64) -> Result<Tx3gBox> {
        expect_bytes(bytes, 8, 38)?;
        Ok(Tx3gBox {
            data_reference_index: u16_at(bytes, 14),
            display_flags: u32_at(bytes, 16),
            horizontal_justification: i8_at(bytes, 20),
            vertical_justification: i8_at(bytes, 21),
            bg_color_rgba: RgbaColor {
                red: u8_at(bytes, 22),
                green: u8_at(bytes, 23),
                blue: u8_at(bytes, 24),
                alpha: u8_at(bytes, 25),
            },
            box_record: [
                i16_at(bytes, 26),
                i16_at(bytes, 28),
                i16_at(bytes, 30),
                i16_at(bytes, 32),
            ],
            style_record: array_at(bytes, 34),
        })
    }
}

/// Returns true. For the prover: a value that was read has the range of its type.
fn is_box_record(numbers: [i16; 4]) -> bool
    ensures { IsTrue result ↔ IsBoxRecord numbers }
{
    true
}

/// Puts the fields before the colour, and returns the offset after them.
#[tactic(auto, unfolding(mp4_frame::specs::Bytes::bytes_of_fields, mp4_frame::specs::Bytes::bytes_of_fields_onto))]
fn put_start(
    out: &mut [u8],
    data_reference_index: u16,
    display_flags: u32,
    horizontal: i8,
    vertical: i8,
) -> usize
    requires { 22 ≤ length out.old }
    ensures next { result ≡ 22 }
    ensures put { take result out.new
        ≡ bytes_of_fields (start_tx3g data_reference_index display_flags horizontal vertical) }
{
    let at = put_u32(out, 0, 46);
    let at = put_u32(out, at, codes::TX3G);
    let at = put_zeros(out, at, 6);
    let at = put_u16(out, at, data_reference_index);
    let at = put_u32(out, at, display_flags);
    let at = put_i8(out, at, horizontal);
    put_i8(out, at, vertical)
}

/// Puts the four numbers, and returns the offset after them.
#[tactic(auto, unfolding(mp4_frame::specs::Bytes::bytes_of_fields_onto))]
fn put_box_record(out: &mut [u8], at: usize, numbers: [i16; 4]) -> usize
    requires { at + 8 ≤ length out.old }
    ensures next { result ≡ at + 8 }
    ensures put { take result out.new ≡ bytes_of_fields_onto (take at out.old) (fields_box_record numbers) }
{
    let at = put_i16(out, at, numbers[0]);
    let at = put_i16(out, at, numbers[1]);
    let at = put_i16(out, at, numbers[2]);
    put_i16(out, at, numbers[3])
}

impl ReadsWithoutMemory for Tx3gBox {
    ghost takes_none = { tx3g_takes_none };
}

impl WriteBox for Tx3gBox {
    fn is_writable(&self) -> bool {
        // For the prover: a value that was read has the range of its type.
        let (_index, _display_flags) = (self.data_reference_index, self.display_flags);
        let _horizontal = self.horizontal_justification;
        let _vertical = self.vertical_justification;
        let RgbaColor {
            red,
            green,
            blue,
            alpha,
        } = &self.bg_color_rgba;
        let (_red, _green, _blue, _alpha) = (*red, *green, *blue, *alpha);
        know_array(&self.style_record);
        is_box_record(self.box_record)
    }

    #[tactic(auto, unfolding(crate::specs::Tx3g::bytes_tx3g, mp4_frame::specs::Bytes::bytes_of_fields, mp4_frame::specs::Bytes::bytes_of_fields_onto))]
    fn put_box(&self, out: &mut [u8]) {
        let at = put_start(
            out,
            self.data_reference_index,
            self.display_flags,
            self.horizontal_justification,
            self.vertical_justification,
        );
        let at = put_u8(out, at, self.bg_color_rgba.red);
        let at = put_u8(out, at, self.bg_color_rgba.green);
        let at = put_u8(out, at, self.bg_color_rgba.blue);
        let at = put_u8(out, at, self.bg_color_rgba.alpha);
        let at = put_box_record(out, at, self.box_record);
        put_array(out, at, &self.style_record);
    }

    ghost write_laws = { write_laws laws_tx3g };
}

impl BoxLaws for Tx3gBox {
    ghost laws = { laws_tx3g };
}
