//! The sample entry of timed text.

ghost use Rattle.mp4_extra_sound.specs.declared.tx3g.TheConstants.{COLOR_WIDTHS, CORNERS, NAMES, STYLE_WIDTHS};
ghost use Rattle.mp4_frame.specs.declared.codes.TheConstants as codes;
ghost use Rattle.std.proofs.Common.{refl, lit<};
ghost use Rattle.mp4_declared.specs.OwnBox.{layout_of};
ghost use Rattle.mp4_declared.specs.DeclaredEntry.{exact_layout_of};
ghost use Rattle.mp4_declared.specs.Layout.{packed, fields_of};

mod taken;

use mp4_declared::{
    Bits, Declared, DeclaredBox, DeclaredEntry, EntryLayout, EntryVisitor, I8, I16, Last, Reserved,
    Rest, Shape, ShapeVisitor, U8, U16, U32, box_of, entry_of, numbers_of, parts_of,
};
use mp4_frame::{Entries, Result, TryClone, codes};
use mp4_shown::{
    FieldSink, Group, HasFields, Meaning, NamedShape, Nested, NumberName, ShowShape, View,
    names_of, number, show_shape,
};

/// A colour.
#[derive(Clone, Copy, Debug, Default, PartialEq, Eq)]
pub struct TextColor {
    /// The red part.
    pub red: u8,
    /// The green part.
    pub green: u8,
    /// The blue part.
    pub blue: u8,
    /// The opacity: 0 for a transparent colour, 255 for an opaque one.
    pub alpha: u8,
}

/// The widths of the fields, in bits.
const COLOR_WIDTHS: [u8; 4] = [8, 8, 8, 8];

impl EntryLayout<4, 4> for TextColor {
    ghost use Rattle.mp4_extra_sound.specs.contracts.tx3g.TextColor.{struct};

    ghost layout = { packed (fields_of COLOR_WIDTHS) struct.as_values (λ v. struct.make v tt) (λ _. refl)
        (λ _. refl) refl };

    fn widths() -> [u8; 4] {
        COLOR_WIDTHS
    }

    fn numbers(&self) -> [u64; 4] {
        numbers_of!(self => red, green, blue, alpha)
    }

    fn from_numbers(n: &[u64; 4]) -> TextColor {
        entry_of!(n => TextColor { red: u8, green: u8, blue: u8, alpha: u8 })
    }

    ghost few = { lit< tt };
}

/// The names of the parts of a colour.
const COLOR: &[NumberName] = &[
    number!("red"),
    number!("green"),
    number!("blue"),
    number!("alpha"),
];

/// The place of a text in its track, in pixels (BoxRecord).
#[derive(Clone, Copy, Debug, Default, Drop, PartialEq, Eq)]
pub struct BoxRecord {
    /// The upper edge.
    pub top: i16,
    /// The left edge.
    pub left: i16,
    /// The lower edge.
    pub bottom: i16,
    /// The right edge.
    pub right: i16,
}

/// The layout of a place: four signed numbers.
pub type BoxRecordShape = (I16, I16, I16, Last<I16>);

impl DeclaredEntry for BoxRecord {
    ghost use Rattle.mp4_extra_sound.specs.contracts.tx3g.BoxRecord.{struct};

    type Shape = BoxRecordShape;

    ghost layout = { exact_layout_of struct (λ _. tt) (λ _. refl) };

    fn from_content(found: <BoxRecordShape as Shape>::Value) -> BoxRecord {
        box_of!(found => BoxRecord { top, left, bottom, right })
    }

    fn visit<Q: EntryVisitor<Self::Shape>>(&self, question: Q, out: &mut [u8]) -> Q::Answer {
        question.visit(parts_of!(self => top, left, bottom, right), out)
    }

    ghost begins = { λ _. lit< tt };
}

/// The names of the edges.
const CORNERS: &<BoxRecordShape as NamedShape>::Names = &names_of!(
    number!("top"),
    number!("left"),
    number!("bottom"),
    number!("right")
);

impl HasFields for BoxRecord {
    ghost shown = { λ view d. ⟦<BoxRecordShape as NamedShape>⟧.shown CORNERS.now view
        (⟦<BoxRecord as DeclaredEntry>⟧.layout.content d) };

    ghost whole = { λ view d. ⟦<BoxRecordShape as NamedShape>⟧.whole CORNERS.now view
        (⟦<BoxRecord as DeclaredEntry>⟧.layout.content d) };

    fn show<K: FieldSink>(&self, view: View, sink: &mut K) -> mp4_shown::Result<()> {
        let parts = parts_of!(self => top, left, bottom, right);
        show_shape::<BoxRecordShape, _, K>(CORNERS, view, &parts, sink)
    }
}

/// The look of some characters of a text (StyleRecord).
#[derive(Clone, Copy, Debug, Default, Drop, PartialEq, Eq)]
pub struct StyleRecord {
    /// The first character with the style (`startChar`); 0 in a sample entry.
    pub start_char: u16,
    /// The first character after those with the style (`endChar`); 0 in a sample entry.
    pub end_char: u16,
    /// The number of the font in the `ftab` (`font-ID`).
    pub font_id: u16,
    /// 1 for bold, 2 for italic and 4 for underlined text, or the sum of these (`face-style-flags`).
    pub face_style_flags: u8,
    /// The size of the font, in pixels (`font-size`).
    pub font_size: u8,
    /// The colour of the text (`text-color-rgba`).
    pub text_color_rgba: TextColor,
}

/// The widths of the numbers of a style, in bits: five, and those of its colour.
const STYLE_WIDTHS: [u8; 9] = [16, 16, 16, 8, 8, 8, 8, 8, 8];

impl EntryLayout<9, 12> for StyleRecord {
    ghost layout = { packed (fields_of STYLE_WIDTHS)
        (λ v. (
          v.start_char,
          (
            v.end_char,
            (
              v.font_id,
              (
                v.face_style_flags,
                (
                  v.font_size,
                  (
                    v.text_color_rgba.red,
                    (
                      v.text_color_rgba.green,
                      (v.text_color_rgba.blue, (v.text_color_rgba.alpha, tt)),
                    ),
                  ),
                ),
              ),
            ),
          ),
        ))
        (λ x. record {
          start_char = x.0;
          end_char = x.1.0;
          font_id = x.1.1.0;
          face_style_flags = x.1.1.1.0;
          font_size = x.1.1.1.1.0;
          text_color_rgba = record {
            red = x.1.1.1.1.1.0;
            green = x.1.1.1.1.1.1.0;
            blue = x.1.1.1.1.1.1.1.0;
            alpha = x.1.1.1.1.1.1.1.1.0;
          };
        }) (λ _. refl) (λ _. refl) refl };

    fn widths() -> [u8; 9] {
        STYLE_WIDTHS
    }

    fn numbers(&self) -> [u64; 9] {
        let color = self.text_color_rgba;
        [
            u64::from(self.start_char),
            u64::from(self.end_char),
            u64::from(self.font_id),
            u64::from(self.face_style_flags),
            u64::from(self.font_size),
            u64::from(color.red),
            u64::from(color.green),
            u64::from(color.blue),
            u64::from(color.alpha),
        ]
    }

    fn from_numbers(n: &[u64; 9]) -> StyleRecord {
        StyleRecord {
            start_char: n[0] as u16,
            end_char: n[1] as u16,
            font_id: n[2] as u16,
            face_style_flags: n[3] as u8,
            font_size: n[4] as u8,
            text_color_rgba: TextColor {
                red: n[5] as u8,
                green: n[6] as u8,
                blue: n[7] as u8,
                alpha: n[8] as u8,
            },
        }
    }

    ghost few = { lit< tt };
}

/// The names of the flags of a style.
const FACES: &[Meaning] = &[(1, "bold"), (2, "italic"), (4, "underline")];

/// A style, for showing only.
type StyleShown = (U16, U16, U16, U8, (U8, Last<Group<Bits<TextColor, 4, 4>>>));

/// The names of the fields of a style.
const STYLE: <StyleShown as NamedShape>::Names = names_of!(
    number!("startChar"),
    number!("endChar"),
    number!("font-ID"),
    number!("face-style-flags", Flags(2), FACES),
    number!("font-size"),
    ("text-color-rgba", COLOR)
);

/// The sample entry of timed text (`tx3g`, 3GPP TS 26.245, 5.16).
#[derive(Debug, Drop, PartialEq, Eq)]
pub struct Tx3g {
    /// The number of the data reference that holds the samples, starting at 1.
    pub data_reference_index: u16,
    /// How the text moves and is laid out, a flag for each (`displayFlags`). Two flags are one number: the direction of
    /// scrolling, of the bits 0x180.
    pub display_flags: u32,
    /// 0 for text on the left, 1 in the centre, -1 on the right (`horizontal-justification`).
    pub horizontal_justification: i8,
    /// 0 for text at the top, 1 in the centre, -1 at the bottom (`vertical-justification`).
    pub vertical_justification: i8,
    /// The colour behind the text (`background-color-rgba`).
    pub background_color_rgba: TextColor,
    /// The place of a text whose sample has no other one (`default-text-box`).
    pub default_text_box: BoxRecord,
    /// The look of characters whose sample has no other one (`default-style`).
    pub default_style: StyleRecord,
    /// The bytes of the boxes inside: the fonts (`ftab`) first, and others, such as a `btrt`.
    pub boxes: Entries<u8>,
}

/// The content of the box: six reserved bytes, four numbers, a colour, a place, a style, and bytes up to its end.
pub type Tx3gShape = Reserved<
    6,
    (
        U16,
        U32,
        I8,
        I8,
        (
            Bits<TextColor, 4, 4>,
            Nested<BoxRecord>,
            Bits<StyleRecord, 9, 12>,
            Last<Rest>,
        ),
    ),
>;

impl DeclaredBox for Tx3g {
    ghost use Rattle.mp4_extra_sound.specs.contracts.tx3g.Tx3g.{struct};

    type Shape = Tx3gShape;

    ghost CODE = { codes.TX3G };

    ghost layout = { layout_of struct (λ _. tt) (λ _. refl) (lit< tt) };

    const CODE: u32 = codes::TX3G;

    fn from_content(found: <Tx3gShape as Shape>::Value) -> Tx3g {
        box_of!(found => Tx3g { data_reference_index, display_flags, horizontal_justification,
            vertical_justification, background_color_rgba, default_text_box, default_style, boxes })
    }

    fn visit<Q: ShapeVisitor<Self::Shape>>(&self, out: &mut [u8]) -> Q::Answer {
        let place = &self.default_text_box;
        let parts = parts_of!(self => data_reference_index, display_flags,
            horizontal_justification, vertical_justification, background_color_rgba, = place,
            default_style, boxes.as_slice());
        Q::visit(parts, out)
    }

    ghost valid = { refl };
}

/// The names of the flags of a text. The direction of scrolling has none.
const DISPLAY_FLAGS: &[Meaning] = &[
    (0x20, "scroll_in"),
    (0x40, "scroll_out"),
    (0x800, "continuous_karaoke"),
    (0x2_0000, "write_text_vertically"),
    (0x4_0000, "fill_text_region"),
];

/// The content of the box without its boxes, for showing only.
type Tx3gShown = (
    U16,
    U32,
    I8,
    I8,
    (
        Group<Bits<TextColor, 4, 4>>,
        Group<Nested<BoxRecord>>,
        Last<Group<StyleShown>>,
    ),
);

/// The names of the fields.
const NAMES: &<Tx3gShown as NamedShape>::Names = &names_of!(
    number!("data_reference_index"),
    number!("displayFlags", Flags(8), DISPLAY_FLAGS),
    number!("horizontal-justification"),
    number!("vertical-justification"),
    ("background-color-rgba", COLOR),
    ("default-text-box", ()),
    ("default-style", STYLE)
);

/// The boxes inside are shown as boxes.
impl HasFields for Tx3g {
    ghost shown = { λ view b. ⟦<Tx3gShown as NamedShape>⟧.shown NAMES.now view (
      b.data_reference_index,
      (
        b.display_flags,
        (
          b.horizontal_justification,
          (
            b.vertical_justification,
            (
              b.background_color_rgba,
              (
                b.default_text_box,
                (
                  (
                    b.default_style.start_char,
                    (
                      b.default_style.end_char,
                      (
                        b.default_style.font_id,
                        (
                          b.default_style.face_style_flags,
                          (b.default_style.font_size, (b.default_style.text_color_rgba, tt)),
                        ),
                      ),
                    ),
                  ),
                  tt,
                ),
              ),
            ),
          ),
        ),
      ),
    ) };

    ghost whole = { λ view b. ⟦<Tx3gShown as NamedShape>⟧.whole NAMES.now view (
      b.data_reference_index,
      (
        b.display_flags,
        (
          b.horizontal_justification,
          (
            b.vertical_justification,
            (
              b.background_color_rgba,
              (
                b.default_text_box,
                (
                  (
                    b.default_style.start_char,
                    (
                      b.default_style.end_char,
                      (
                        b.default_style.font_id,
                        (
                          b.default_style.face_style_flags,
                          (b.default_style.font_size, (b.default_style.text_color_rgba, tt)),
                        ),
                      ),
                    ),
                  ),
                  tt,
                ),
              ),
            ),
          ),
        ),
      ),
    ) };

    fn show<K: FieldSink>(&self, view: View, sink: &mut K) -> mp4_shown::Result<()> {
        let place = &self.default_text_box;
        let style = self.default_style;
        let style = parts_of!(style => start_char, end_char, font_id, face_style_flags, font_size,
            text_color_rgba);
        let parts = parts_of!(self => data_reference_index, display_flags,
            horizontal_justification, vertical_justification, background_color_rgba, = place,
            = style);
        show_shape::<Tx3gShown, _, K>(NAMES, view, &parts, sink)
    }
}

impl TryClone for Tx3g {
    fn try_clone(&self) -> Result<Tx3g> {
        let boxes = self.boxes.try_clone()?;
        Ok(Tx3g { boxes, ..*self })
    }
}

/// The sample entry of timed text.
pub type Tx3gBox = Declared<Tx3g>;
