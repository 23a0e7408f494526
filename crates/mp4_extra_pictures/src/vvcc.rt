//! The VVC configuration box.

ghost use Rattle.mp4_shown.specs.TakenShapes.{declared_taken};
ghost use Rattle.mp4_extra_pictures.specs.declared.vvcc.TheConstants.{NAMES, WIDTHS};
ghost use Rattle.mp4_frame.specs.declared.codes.TheConstants as codes;
ghost use Rattle.mp4_declared.specs.OwnBox.{layout_of};
ghost use Rattle.mp4_declared.specs.Layout.{packed, fields_of};
ghost use Rattle.std.proofs.Common.{refl, lit<};

use mp4_declared::declaring::*;
use mp4_frame::{Result, codes};
use mp4_shown::taken::{self, Object, TakeFields, TakeShape, take_declared};
use mp4_shown::{
    FLAGS, FieldSink, HasFields, NamedShape, NumberName, ShowShape, VERSION, View, names_of,
    number, run,
};
use std::alloc::Global;

/// The first byte of the configuration of a VVC decoder.
#[derive(Clone, Copy, Debug, Default, PartialEq, Eq)]
pub struct VvcFront {
    /// 5 reserved bits, all set in the standard.
    pub reserved: u8,
    /// The number of bytes of the length before each NAL unit in a sample, minus one: 0, 1 or 3
    /// (`LengthSizeMinusOne`). 2 bits.
    pub length_size_minus_one: u8,
    /// True if the record has the profile, the tier, the level and the format of pictures.
    pub ptl_present_flag: bool,
}

/// The widths of the fields, in bits. A field of one bit is a flag.
const WIDTHS: [u8; 3] = [5, 2, 1];

impl EntryLayout<3, 1> for VvcFront {
    ghost use Rattle.mp4_extra_pictures.specs.contracts.vvcc.VvcFront.{struct};

    ghost layout = { packed (fields_of WIDTHS) struct.as_values (λ v. struct.make v tt) (λ _. refl) (λ _. refl) refl };

    fn widths() -> [u8; 3] {
        WIDTHS
    }

    fn numbers(&self) -> [u64; 3] {
        numbers_of!(self => reserved, length_size_minus_one, ptl_present_flag)
    }

    fn from_numbers(n: &[u64; 3]) -> VvcFront {
        entry_of!(n => VvcFront { reserved: u8, length_size_minus_one: u8, ptl_present_flag: bool })
    }

    ghost few = { lit< tt };
}

/// The configuration of a VVC decoder (`vvcC`, ISO/IEC 14496-15, 11.2.4.2).
#[derive(Debug, Drop, PartialEq, Eq)]
pub struct Vvcc {
    /// 0 in the standard.
    pub version: u8,
    /// 24 bits, 0 in the standard.
    pub flags: u32,
    /// The first byte of the record.
    pub front: VvcFront,
    /// The bytes of the record after the first one. If `ptl_present_flag` is set, they begin with these bits:
    ///
    /// - 9 for the set of output layers (`ols_idx`),
    /// - 3 for the number of sublayers (`num_sublayers`),
    /// - 2 for the frame rate (`constant_frame_rate`),
    /// - 2 for the sampling of colour (`chroma_format_idc`),
    /// - 3 for the number of bits of a sample (`bit_depth_minus8`), and 5 reserved,
    /// - profile, tier and level (`VvcPTLRecord`), the largest size of a picture, and the average frame rate.
    ///
    /// After these a byte counts arrays of NAL units (`num_of_arrays`), as in an `hvcC`.
    pub record: Entries<u8>,
}

/// The content of the box: version, flags, a byte of bits, and bytes up to its end.
pub type VvccShape = Full<1, (Bits<VvcFront, 3, 1>, Last<Rest>)>;

impl DeclaredBox for Vvcc {
    ghost use Rattle.mp4_extra_pictures.specs.contracts.vvcc.Vvcc.{struct};

    type Shape = VvccShape;

    ghost CODE = { codes.VVCC };

    ghost layout = { layout_of struct (λ _. tt) (λ _. refl) (lit< tt) };

    const CODE: u32 = codes::VVCC;

    fn from_content(found: <VvccShape as Shape>::Value) -> Vvcc {
        box_of!(found => Vvcc { version, flags, front, record })
    }

    fn visit<Q: ShapeVisitor<Self::Shape>>(&self, out: &mut [u8]) -> Q::Answer {
        let parts = parts_of!(self => version, flags, front, record.as_slice());
        Q::visit(parts, out)
    }

    ghost valid = { refl };
}

/// The names of the first byte. The standard sets all reserved bits.
const FRONT: &[NumberName] = &[
    number!("reserved", Reserved(0x1F)),
    number!("LengthSizeMinusOne"),
    number!("ptl_present_flag"),
];

/// The names of the fields.
const NAMES: &<VvccShape as NamedShape>::Names = &names_of!(
    VERSION,
    FLAGS,
    FRONT,
    run!("data_bytes", SomeBytes)
);

impl HasFields for Vvcc {
    ghost shown = { λ view b. ⟦<VvccShape as NamedShape>⟧.shown NAMES.now view
        (⟦<Vvcc as DeclaredBox>⟧.layout.content b) };

    ghost whole = { λ view b. ⟦<VvccShape as NamedShape>⟧.whole NAMES.now view
        (⟦<Vvcc as DeclaredBox>⟧.layout.content b) };

    fn show<K: FieldSink>(&self, view: View, sink: &mut K) -> mp4_shown::Result<()> {
        let parts = parts_of!(self => version, flags, front, record.as_slice());
        VvccShape::show(NAMES, view, &parts, sink)
    }
}

impl TakeFields for Vvcc {
    ghost taken = { declared_taken ⟦<Vvcc as DeclaredBox>⟧.layout (⟦<VvccShape as TakeShape>⟧.taken NAMES.now) };

    fn take(alloc: Global, object: &mut Object<'_>) -> taken::Result<Vvcc> {
        take_declared::<Vvcc, VvccShape>(alloc, NAMES, object)
    }
}

impl TryClone for Vvcc {
    fn try_clone(&self) -> Result<Vvcc> {
        let record = self.record.try_clone()?;
        Ok(Vvcc { record, ..*self })
    }
}

/// The VVC configuration box.
pub type VvccBox = Declared<Vvcc>;
