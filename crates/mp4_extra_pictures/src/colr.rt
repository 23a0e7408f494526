//! The colour information box.

ghost use Rattle.mp4_declared.specs.Layout.{numbers_of};
ghost use Rattle.mp4_extra_pictures.specs.ShownColour.{kind_of, numbers_in, seen_colours, shown_colour, shown_kind};
ghost use Rattle.mp4_extra_pictures.specs.ShownColour.{whole_colour};
ghost use Rattle.mp4_extra_pictures.specs.declared.colr.TheConstants.{NAMES, NCLX, WIDTHS};
ghost use Rattle.mp4_extra_pictures.specs.declared.colr.ColourKind.TheVariants.{Numbers};
ghost use Rattle.mp4_frame.specs.FourCC.{four_cc_of};
ghost use Rattle.mp4_frame.specs.declared.codes.TheConstants as codes;
ghost use Rattle.mp4_shown.specs.Event.{bytes_of_code, code, field};
ghost use Rattle.mp4_shown.specs.Hands.{Hands};
ghost use Rattle.std.proofs.Common.{refl, lit<};
ghost use Rattle.std.specs.Prelude.{◌≡◌, ◌∷◌, OnOk, length};
ghost use Rattle.mp4_declared.specs.OwnBox.{layout_of};
ghost use Rattle.mp4_declared.specs.Layout.{packed, fields_of};

mod taken;

use mp4_declared::{
    Bits, Declared, DeclaredBox, EntryLayout, Last, OfType, Rest, Shape, ShapeVisitor, Tag, Typed,
    box_of, entry_of, numbers_of, parts_of,
};
use mp4_frame::{Entries, FourCC, Result, TryClone, codes, u16_at};
use mp4_shown::{FieldSink, HasFields, Meaning, NumberName, Value, View, number, put_numbers};

/// The `colour_type` of `Nclx`: `nclx`.
pub const NCLX: u32 = 0x6e63_6c78;

/// The `colour_type` of three numbers without a range: `nclc` of QuickTime.
pub const NCLC: u32 = 0x6e63_6c63;

/// The `colour_type` of a restricted profile of ICC.1: `rICC`.
pub const RICC: u32 = 0x7249_4343;

/// The `colour_type` of any profile of ICC.1: `prof`.
pub const PROF: u32 = 0x7072_6f66;

/// A description of colours by code points of ISO/IEC 23091-2.
#[derive(Clone, Copy, Debug, Default, PartialEq, Eq)]
pub struct Nclx {
    /// The chromaticities of red, green, blue and white: 1 for BT.709, 9 for BT.2020.
    pub colour_primaries: u16,
    /// The function from light to sample values: 1 for BT.709, 16 for PQ, 18 for HLG.
    pub transfer_characteristics: u16,
    /// The matrix that derives luma and chroma from red, green and blue: 1 for BT.709, 9 for BT.2020.
    pub matrix_coefficients: u16,
    /// True if sample values use the full range of their bits.
    pub full_range_flag: bool,
    /// 0 in the standard. 7 bits.
    pub reserved: u8,
}

/// The widths of the fields, in bits. A field of one bit is a flag.
const WIDTHS: [u8; 5] = [16, 16, 16, 1, 7];

impl EntryLayout<5, 7> for Nclx {
    ghost use Rattle.mp4_extra_pictures.specs.contracts.colr.Nclx.{struct};

    ghost layout = { packed (fields_of WIDTHS) struct.as_values (λ v. struct.make v tt) (λ _. refl) (λ _. refl) refl };

    fn widths() -> [u8; 5] {
        WIDTHS
    }

    fn numbers(&self) -> [u64; 5] {
        numbers_of!(self => colour_primaries, transfer_characteristics, matrix_coefficients, full_range_flag,
            reserved)
    }

    fn from_numbers(n: &[u64; 5]) -> Nclx {
        entry_of!(n => Nclx { colour_primaries: u16, transfer_characteristics: u16, matrix_coefficients: u16,
            full_range_flag: bool, reserved: u8 })
    }

    ghost few = { lit< tt };
}

impl Tag for Nclx {
    ghost TAG = { NCLX };

    const TAG: u32 = NCLX;

    ghost is_small = { lit< tt };
}

/// The colours of a video (`colr`, ISO/IEC 14496-12, 12.1.5).
#[derive(Debug, Drop, PartialEq, Eq)]
pub struct Colr {
    /// `Own` if `colour_type` is `nclx`. Else `Other`, with `colour_type` and the bytes after it: an ICC.1 profile for
    /// `rICC` or `prof`, three numbers of 16 bits for QuickTime's `nclc`.
    pub colour: OfType<Nclx, Entries<u8>>,
}

/// The content of the box: a code, then the layout that the code selects.
pub type ColrShape = Last<Typed<Nclx, Bits<Nclx, 5, 7>, Rest>>;

impl DeclaredBox for Colr {
    ghost use Rattle.mp4_extra_pictures.specs.contracts.colr.Colr.{struct};

    type Shape = ColrShape;

    ghost CODE = { codes.COLR };

    ghost layout = { layout_of struct (λ _. tt) (λ _. refl) (lit< tt) };

    const CODE: u32 = codes::COLR;

    fn from_content(found: <ColrShape as Shape>::Value) -> Colr {
        box_of!(found => Colr { colour })
    }

    fn visit<Q: ShapeVisitor<Self::Shape>>(&self, out: &mut [u8]) -> Q::Answer {
        let colour = match &self.colour {
            OfType::Own(nclx) => OfType::Own(*nclx),
            OfType::Other(colour_type, rest) => OfType::Other(*colour_type, rest.as_slice()),
        };
        Q::visit(parts_of!(self => = colour), out)
    }

    ghost valid = { refl };
}

/// The meanings of `colour_primaries` (ISO/IEC 23091-2, 8.1).
pub const COLOUR_PRIMARIES: &[Meaning] = &[
    (1, "BT.709"),
    (2, "unspecified"),
    (4, "BT.470 System M"),
    (5, "BT.470 System B, G"),
    (6, "BT.601"),
    (7, "SMPTE ST 240"),
    (8, "generic film"),
    (9, "BT.2020"),
    (10, "SMPTE ST 428-1"),
    (11, "SMPTE RP 431-2"),
    (12, "SMPTE EG 432-1"),
    (22, "EBU Tech. 3213-E"),
];

/// The meanings of `transfer_characteristics` (ISO/IEC 23091-2, 8.2).
pub const TRANSFER_CHARACTERISTICS: &[Meaning] = &[
    (1, "BT.709"),
    (2, "unspecified"),
    (4, "BT.470 System M"),
    (5, "BT.470 System B, G"),
    (6, "BT.601"),
    (7, "SMPTE ST 240"),
    (8, "linear"),
    (9, "logarithmic, 100:1"),
    (10, "logarithmic, 316.22777:1"),
    (11, "IEC 61966-2-4"),
    (12, "BT.1361"),
    (13, "IEC 61966-2-1"),
    (14, "BT.2020, 10 bits"),
    (15, "BT.2020, 12 bits"),
    (16, "SMPTE ST 2084"),
    (17, "SMPTE ST 428-1"),
    (18, "ARIB STD-B67"),
];

/// The meanings of `matrix_coefficients` (ISO/IEC 23091-2, 8.3).
pub const MATRIX_COEFFICIENTS: &[Meaning] = &[
    (0, "identity"),
    (1, "BT.709"),
    (2, "unspecified"),
    (4, "FCC Title 47"),
    (5, "BT.470 System B, G"),
    (6, "BT.601"),
    (7, "SMPTE ST 240"),
    (8, "YCgCo"),
    (9, "BT.2020 non-constant luminance"),
    (10, "BT.2020 constant luminance"),
    (11, "SMPTE ST 2085"),
    (12, "chromaticity-derived non-constant luminance"),
    (13, "chromaticity-derived constant luminance"),
    (14, "ICtCp"),
];

/// The names of the numbers of `Nclx`. Those of `nclc` are the first three.
const COLOURS: &[NumberName] = &[
    number!("colour_primaries", Named, COLOUR_PRIMARIES),
    number!("transfer_characteristics", Named, TRANSFER_CHARACTERISTICS),
    number!("matrix_coefficients", Named, MATRIX_COEFFICIENTS),
    number!("full_range_flag"),
    number!("reserved", Reserved(0)),
];

/// The names of the fields: of the type, of numbers, of a profile, and of bytes of an unknown type.
const NAMES: ColourNames = ("colour_type", (COLOURS, ("ICC_profile", "data_bytes")));

/// The type of `NAMES`.
type ColourNames = (
    &'static str,
    (&'static [NumberName], (&'static str, &'static str)),
);

/// The kind of the bytes after another type than `nclx`.
#[derive(Clone, Copy)]
enum ColourKind {
    /// A profile of ICC.1.
    Profile,
    /// Three numbers.
    Numbers,
    /// Bytes of an unknown type.
    Unknown,
}

/// Returns the kind of `count` bytes after the type `tag`.
fn kind_of(tag: u32, count: usize) -> ColourKind
    ensures kind { result ≡ kind_of tag count }
    ensures numbers { result ≡ Numbers → count ≡ 6 }
{
    if tag == RICC {
        ColourKind::Profile
    } else if tag == PROF {
        ColourKind::Profile
    } else if tag == NCLC && count == 6 {
        ColourKind::Numbers
    } else {
        ColourKind::Unknown
    }
}

/// Returns the three numbers of an `nclc`.
fn numbers_in(bytes: &[u8]) -> [u64; 3]
    requires { length bytes.now ≡ 6 }
    ensures { result ≡ numbers_in bytes.now }
{
    [
        u64::from(u16_at(bytes, 0)),
        u64::from(u16_at(bytes, 2)),
        u64::from(u16_at(bytes, 4)),
    ]
}

/// Hands `bytes` of this `kind` to a sink.
fn put_kind<K: FieldSink>(
    names: ColourNames,
    kind: ColourKind,
    bytes: &[u8],
    sink: &mut K,
) -> mp4_shown::Result<()>
    requires { kind ≡ Numbers → length bytes.now ≡ 6 }
    ensures { OnOk result (Hands K.trace K.after sink.old
        (shown_kind (seen_colours names.entry) kind bytes.now) sink.new) }
{
    let (_, (number_names, (profile, unknown))) = names;
    match kind {
        ColourKind::Profile => sink.field(profile, Value::Bytes(bytes)),
        ColourKind::Numbers => put_numbers(false, number_names, &numbers_in(bytes), sink),
        ColourKind::Unknown => sink.field(unknown, Value::Bytes(bytes)),
    }
}

/// Hands a tag under its name to a sink, and what follows it.
fn put_tagged<K: FieldSink>(
    names: ColourNames,
    tag: u32,
    bytes: &[u8],
    sink: &mut K,
) -> mp4_shown::Result<()>
    ensures { OnOk result (Hands K.trace K.after sink.old
        (field (seen_colours names.entry).0.now (code (bytes_of_code (four_cc_of tag)))
        ∷ shown_kind (seen_colours names.entry) (kind_of tag (length bytes.now)) bytes.now) sink.new) }
{
    sink.field(names.0, Value::Code(FourCC::from(tag)))?;
    put_kind(names, kind_of(tag, bytes.len()), bytes, sink)
}

/// Hands the type of colours and what follows it to a sink.
fn put_colour<K: FieldSink>(
    names: ColourNames,
    colour: &OfType<Nclx, Entries<u8>>,
    sink: &mut K,
) -> mp4_shown::Result<()>
    ensures { OnOk result (Hands K.trace K.after sink.old
        (shown_colour (λ c. numbers_of ⟦<Nclx as EntryLayout<5, 7>>⟧.layout.fields
        (⟦<Nclx as EntryLayout<5, 7>>⟧.layout.content c)) (seen_colours names.entry) colour.now) sink.new) }
{
    match colour {
        OfType::Own(nclx) => {
            sink.field(names.0, Value::Code(FourCC::from(NCLX)))?;
            put_numbers(false, names.1.0, &nclx.numbers(), sink)
        }
        OfType::Other(tag, bytes) => put_tagged(names, *tag, bytes.as_slice(), sink),
    }
}

impl HasFields for Colr {
    ghost shown = { λ view b. shown_colour (λ c. numbers_of ⟦<Nclx as EntryLayout<5, 7>>⟧.layout.fields
        (⟦<Nclx as EntryLayout<5, 7>>⟧.layout.content c)) NAMES b.colour };

    ghost whole = { λ view b. whole_colour (λ c. numbers_of ⟦<Nclx as EntryLayout<5, 7>>⟧.layout.fields
        (⟦<Nclx as EntryLayout<5, 7>>⟧.layout.content c)) NAMES b.colour };

    fn show<K: FieldSink>(&self, _view: View, sink: &mut K) -> mp4_shown::Result<()> {
        put_colour(NAMES, &self.colour, sink)
    }
}

impl TryClone for Colr {
    fn try_clone(&self) -> Result<Colr> {
        let colour = match &self.colour {
            OfType::Own(nclx) => OfType::Own(*nclx),
            OfType::Other(colour_type, rest) => OfType::Other(*colour_type, rest.try_clone()?),
        };
        Ok(Colr { colour })
    }
}

/// The colour information box.
pub type ColrBox = Declared<Colr>;
