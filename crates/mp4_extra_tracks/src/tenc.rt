//! The track encryption box.

ghost use Rattle.mp4_shown.specs.TakenShapes.{declared_taken};
ghost use Rattle.mp4_extra_tracks.specs.declared.tenc.TheConstants.{NAMES, WIDTHS};
ghost use Rattle.mp4_frame.specs.declared.codes.TheConstants as codes;
ghost use Rattle.std.proofs.Common.{refl, lit<};
ghost use Rattle.mp4_declared.specs.OwnBox.{layout_of};
ghost use Rattle.mp4_declared.specs.Layout.{packed, fields_of};

use mp4_declared::{
    Array, Bits, Declared, DeclaredBox, EntryLayout, FromVersion, Full, Last, OrZeros, Reserved,
    Rest, Shape, ShapeVisitor, U8, box_of, entry_of, numbers_of, parts_of,
};
use mp4_frame::{Entries, Result, TryClone, codes};
use mp4_shown::taken::{self, Object, TakeFields, TakeShape, take_declared};
use mp4_shown::{
    FLAGS, FieldSink, HasFields, NamedShape, NumberName, ShowShape, VERSION, View, names_of,
    number, run,
};
use std::alloc::Global;

/// The pattern of encrypted blocks in a sample: some encrypted blocks, then some clear blocks, repeated.
#[derive(Clone, Copy, Debug, Default, PartialEq, Eq)]
pub struct TencPattern {
    /// The number of consecutive encrypted blocks of 16 bytes. 4 bits.
    pub default_crypt_byte_block: u8,
    /// The number of clear blocks of 16 bytes after them. 4 bits.
    pub default_skip_byte_block: u8,
}

/// The widths of the fields, in bits.
const WIDTHS: [u8; 2] = [4, 4];

impl EntryLayout<2, 1> for TencPattern {
    ghost use Rattle.mp4_extra_tracks.specs.contracts.tenc.TencPattern.{struct};

    ghost layout = { packed (fields_of WIDTHS) struct.as_values (λ v. struct.make v tt) (λ _. refl) (λ _. refl) refl };

    fn widths() -> [u8; 2] {
        WIDTHS
    }

    fn numbers(&self) -> [u64; 2] {
        numbers_of!(self => default_crypt_byte_block, default_skip_byte_block)
    }

    fn from_numbers(n: &[u64; 2]) -> TencPattern {
        entry_of!(n => TencPattern { default_crypt_byte_block: u8, default_skip_byte_block: u8 })
    }

    ghost few = { lit< tt };
}

/// The encryption parameters of a track's samples (`tenc`, ISO/IEC 23001-7, 8.2). A sample group may override them.
#[derive(Debug, Drop, PartialEq, Eq)]
pub struct Tenc {
    /// 0, or 1 for a box with a pattern.
    pub version: u8,
    /// 24 bits, 0 in the standard.
    pub flags: u32,
    /// The pattern of encrypted blocks. `None` in version 0.
    pub default_pattern: Option<TencPattern>,
    /// 1 if the samples are encrypted, 0 if not (`default_isProtected`).
    pub default_is_protected: u8,
    /// The number of bytes of each sample's initialization vector (`default_Per_Sample_IV_Size`): 8, 16, or 0 if all
    /// samples have the same vector or none.
    pub default_per_sample_iv_size: u8,
    /// The UUID of the key (`default_KID`).
    pub default_kid: [u8; 16],
    /// A byte with the size of the constant initialization vector (`default_constant_IV_size`) and the vector
    /// (`default_constant_IV`). Empty unless samples are encrypted and `default_per_sample_iv_size` is 0.
    pub default_constant_iv: Entries<u8>,
}

/// The content of the box: version, flags, a reserved byte, a byte that version 0 reserves, two numbers, 16 bytes, and
/// bytes up to its end.
pub type TencShape = Full<
    2,
    Reserved<
        1,
        (
            OrZeros<FromVersion<1>, Bits<TencPattern, 2, 1>, 1>,
            U8,
            U8,
            Array<16>,
            Last<Rest>,
        ),
    >,
>;

impl DeclaredBox for Tenc {
    ghost use Rattle.mp4_extra_tracks.specs.contracts.tenc.Tenc.{struct};

    type Shape = TencShape;

    ghost CODE = { codes.TENC };

    ghost layout = { layout_of struct (λ _. tt) (λ _. refl) (lit< tt) };

    const CODE: u32 = codes::TENC;

    fn from_content(found: <TencShape as Shape>::Value) -> Tenc {
        box_of!(found => Tenc { version, flags, default_pattern, default_is_protected,
            default_per_sample_iv_size, default_kid, default_constant_iv })
    }

    fn visit<Q: ShapeVisitor<Self::Shape>>(&self, out: &mut [u8]) -> Q::Answer {
        let parts = parts_of!(self => version, flags, default_pattern, default_is_protected,
            default_per_sample_iv_size, default_kid, default_constant_iv.as_slice());
        Q::visit(parts, out)
    }

    ghost valid = { refl };
}

/// The names of the pattern.
const PATTERN: &[NumberName] = &[
    number!("default_crypt_byte_block"),
    number!("default_skip_byte_block"),
];

/// The names of the fields.
const NAMES: &<TencShape as NamedShape>::Names = &names_of!(
    VERSION,
    FLAGS,
    PATTERN,
    number!("default_isProtected"),
    number!("default_Per_Sample_IV_Size"),
    run!("default_KID", Bytes),
    run!("default_constant_IV", Counted, "default_constant_IV_size")
);

impl HasFields for Tenc {
    ghost shown = { λ view b. ⟦<TencShape as NamedShape>⟧.shown NAMES.now view
        (⟦<Tenc as DeclaredBox>⟧.layout.content b) };

    ghost whole = { λ view b. ⟦<TencShape as NamedShape>⟧.whole NAMES.now view
        (⟦<Tenc as DeclaredBox>⟧.layout.content b) };

    fn show<K: FieldSink>(&self, view: View, sink: &mut K) -> mp4_shown::Result<()> {
        let parts = parts_of!(self => version, flags, default_pattern, default_is_protected,
            default_per_sample_iv_size, default_kid, default_constant_iv.as_slice());
        TencShape::show(NAMES, view, &parts, sink)
    }
}

impl TakeFields for Tenc {
    ghost taken = { declared_taken ⟦<Tenc as DeclaredBox>⟧.layout (⟦<TencShape as TakeShape>⟧.taken NAMES.now) };

    fn take(alloc: Global, object: &mut Object<'_>) -> taken::Result<Tenc> {
        take_declared::<Tenc, TencShape>(alloc, NAMES, object)
    }
}

impl TryClone for Tenc {
    fn try_clone(&self) -> Result<Tenc> {
        let default_constant_iv = self.default_constant_iv.try_clone()?;
        Ok(Tenc {
            default_constant_iv,
            ..*self
        })
    }
}

/// The track encryption box.
pub type TencBox = Declared<Tenc>;
