//! The sample entry of timed text. The boxes inside are not among its fields, so its normal form has none.

ghost use Rattle.std.proofs.Common.{refl};
ghost use Rattle.mp4_declared.specs.OwnBox.{no_context};
ghost use Rattle.mp4_extra_sound.specs.TakenTx3g.{make_tx3g};
ghost use Rattle.mp4_extra_sound.specs.declared.tx3g.BoxRecord.{BoxRecord as Corners};
ghost use Rattle.mp4_read_back.specs.StructLaws.{struct_comes};
ghost use Rattle.mp4_read_back.specs.Structs.{struct_part};
ghost use Rattle.mp4_read_back.specs.Text.{made_back};
ghost use Rattle.mp4_read_back.specs.TimedText.{tx3g_fields};
ghost use Rattle.mp4_read_back.specs.declared.tx3g.TheConstants.{CORNERS, TX3G};

use crate::{ComesBack, ReadBack};
use mp4_declared::{Bits, DeclaredEntry, I8, Last, U8, U16, U32};
use mp4_extra_sound::tx3g::{BoxRecord, BoxRecordShape, TextColor, Tx3g};
use mp4_shown::{Group, Meaning, NamedShape, Nested, NumberName, names_of, number};

/// The names of the place of a text.
const CORNERS: &<BoxRecordShape as NamedShape>::Names = &names_of!(
    number!("top"),
    number!("left"),
    number!("bottom"),
    number!("right")
);

impl ComesBack for BoxRecord {
    ghost Names = { Unit {0} };

    ghost Value = { Corners };

    ghost part = { struct_part ⟦<BoxRecord as DeclaredEntry>⟧.layout ⟦<BoxRecordShape as ComesBack>⟧.part CORNERS.now };

    ghost comes = { struct_comes ⟦<BoxRecord as DeclaredEntry>⟧.layout ⟦<BoxRecordShape as ComesBack>⟧.part CORNERS.now
        ⟦<BoxRecordShape as ComesBack>⟧.comes };
}

/// The names of a colour.
const COLOR: &[NumberName] = &[
    number!("red"),
    number!("green"),
    number!("blue"),
    number!("alpha"),
];

/// The meanings of the flags of a face.
const FACES: &[Meaning] = &[(1, "bold"), (2, "italic"), (4, "underline")];

/// The fields of a style.
type StyleShown = (U16, U16, U16, U8, (U8, Last<Group<Bits<TextColor, 4, 4>>>));

/// The names of the fields of a style.
const STYLE: <StyleShown as NamedShape>::Names = names_of!(
    number!("startChar"),
    number!("endChar"),
    number!("font-ID"),
    number!("face-style-flags", Flags(2), FACES),
    number!("font-size"),
    ("text-color-rgba", COLOR)
);

/// The meanings of the flags of a text.
const DISPLAY_FLAGS: &[Meaning] = &[
    (0x20, "scroll_in"),
    (0x40, "scroll_out"),
    (0x800, "continuous_karaoke"),
    (0x2_0000, "write_text_vertically"),
    (0x4_0000, "fill_text_region"),
];

/// The fields of the box.
type Tx3gShown = (
    U16,
    U32,
    I8,
    I8,
    (
        Group<Bits<TextColor, 4, 4>>,
        Group<Nested<BoxRecord>>,
        Last<Group<StyleShown>>,
    ),
);

/// The names of the fields of a `tx3g`.
const TX3G: &<Tx3gShown as NamedShape>::Names = &names_of!(
    number!("data_reference_index"),
    number!("displayFlags", Flags(8), DISPLAY_FLAGS),
    number!("horizontal-justification"),
    number!("vertical-justification"),
    ("background-color-rgba", COLOR),
    ("default-text-box", ()),
    ("default-style", STYLE)
);

impl ReadBack for Tx3g {
    ghost Fits = { λ b. ⟦<Tx3gShown as ComesBack>⟧.part.Fits no_context (tx3g_fields b) };

    ghost normal = { λ b. make_tx3g (tx3g_fields b) };

    ghost back = { λ b fits. made_back make_tx3g ⟦<Tx3gShown as ComesBack>⟧.part TX3G.now
        ⟦<Tx3gShown as ComesBack>⟧.comes refl (tx3g_fields b) fits };
}
