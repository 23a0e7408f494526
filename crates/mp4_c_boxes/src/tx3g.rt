//! The sample entry of timed text.

ghost use Rattle.std.specs.Prelude.{◌≡◌};
ghost use Rattle.mp4_c_boxes.specs.Tx3g.{colour_of, no_tx3g, fields_tx3g, tx3g_of};

use crate::to_struct::ToStruct;
use mp4_entries::{RgbaColor, Tx3gBox};

/// The fields of a `tx3g` (3GPP TS 26.245, 5.16).
#[repr(C)]
#[derive(Clone, Copy, Default)]
pub struct Tx3g {
    /// Flags of scrolling, of karaoke and of the direction of the text.
    pub display_flags: u32,
    /// The index of the data reference of the samples, counted from 1.
    pub data_reference_index: u16,
    /// The box of the text, in pixels: its top, left, bottom and right.
    pub box_record: [i16; 4],
    /// The horizontal place of the text in its box: 0 is left, 1 the centre, -1 right.
    pub horizontal_justification: i8,
    /// The vertical place of the text in its box: 0 is the top, 1 the centre, -1 the bottom.
    pub vertical_justification: i8,
    /// The colour behind the text: red, green, blue and opacity.
    pub bg_color_rgba: [u8; 4],
    /// The style of the text: the first and the last character in 2 bytes each, the font in 2, the style flags in 1,
    /// the size in 1, and the colour in 4.
    pub style_record: [u8; 12],
}

impl Tx3g {
    /// Returns zeros, for an `stsd` whose entry is of another type.
    pub(crate) fn none() -> Tx3g
        ensures { result ≡ no_tx3g }
    {
        Tx3g::default()
    }
}

impl ToStruct<Tx3g> for Tx3gBox {
    ghost to_struct = { fields_tx3g };

    fn to_struct(&self) -> Tx3g {
        let colour = &self.bg_color_rgba;
        Tx3g {
            display_flags: self.display_flags,
            data_reference_index: self.data_reference_index,
            box_record: self.box_record,
            horizontal_justification: self.horizontal_justification,
            vertical_justification: self.vertical_justification,
            bg_color_rgba: [colour.red, colour.green, colour.blue, colour.alpha],
            style_record: self.style_record,
        }
    }
}

/// Returns the colour whose red, green, blue and opacity are `components`.
fn colour_of(components: &[u8; 4]) -> RgbaColor
    ensures { result ≡ colour_of components.now }
{
    RgbaColor {
        red: components[0],
        green: components[1],
        blue: components[2],
        alpha: components[3],
    }
}

/// Returns the box with `fields`.
pub(crate) fn tx3g_of(fields: &Tx3g) -> Tx3gBox
    ensures { result ≡ tx3g_of fields.now }
{
    Tx3gBox {
        data_reference_index: fields.data_reference_index,
        display_flags: fields.display_flags,
        horizontal_justification: fields.horizontal_justification,
        vertical_justification: fields.vertical_justification,
        bg_color_rgba: colour_of(&fields.bg_color_rgba),
        box_record: fields.box_record,
        style_record: fields.style_record,
    }
}
