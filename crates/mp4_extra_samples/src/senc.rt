//! The sample encryption box.

ghost use Rattle.mp4_shown.specs.TakenShapes.{declared_taken};
ghost use Rattle.mp4_extra_samples.specs.declared.senc.TheConstants.{NAMES};
ghost use Rattle.mp4_frame.specs.declared.codes.TheConstants as codes;
ghost use Rattle.std.proofs.Common.{refl, lit<};
ghost use Rattle.mp4_declared.specs.OwnBox.{layout_of};

use mp4_declared::{
    Declared, DeclaredBox, Full, Last, Rest, Shape, ShapeVisitor, U32, box_of, parts_of,
};
use mp4_frame::{Entries, Result, TryClone, codes};
use mp4_shown::taken::{self, Object, TakeFields, TakeShape, take_declared};
use mp4_shown::{
    FieldSink, HasFields, Meaning, NamedShape, ShowShape, VERSION, View, names_of, number, run,
};
use std::alloc::Global;

/// The encryption parameters of each sample (`senc`, ISO/IEC 23001-7, 7.2.1).
#[derive(Debug, Drop, PartialEq, Eq)]
pub struct Senc {
    /// 0 in the standard.
    pub version: u8,
    /// 24 bits. Flag 2 means that each sample has a list of parts, each with a number of clear and of encrypted bytes.
    pub flags: u32,
    /// The number of samples.
    pub sample_count: u32,
    /// The bytes of the samples' parameters. Each sample has an initialization vector (`InitializationVector`) of the
    /// size that the `tenc` or the sample group gives. If flag 2 is set, a count of 16 bits (`subsample_count`) and
    /// that many parts follow, each of 16 bits (`BytesOfClearData`) and 32 bits (`BytesOfProtectedData`).
    pub samples: Entries<u8>,
}

/// The content of the box: version, flags, a number, and bytes up to its end.
pub type SencShape = Full<1, (U32, Last<Rest>)>;

impl DeclaredBox for Senc {
    ghost use Rattle.mp4_extra_samples.specs.contracts.senc.Senc.{struct};

    type Shape = SencShape;

    ghost CODE = { codes.SENC };

    ghost layout = { layout_of struct (λ _. tt) (λ _. refl) (lit< tt) };

    const CODE: u32 = codes::SENC;

    fn from_content(found: <SencShape as Shape>::Value) -> Senc {
        box_of!(found => Senc { version, flags, sample_count, samples })
    }

    fn visit<Q: ShapeVisitor<Self::Shape>>(&self, out: &mut [u8]) -> Q::Answer {
        Q::visit(
            parts_of!(self => version, flags, sample_count, samples.as_slice()),
            out,
        )
    }

    ghost valid = { refl };
}

/// The flags of the box.
const ENCRYPTION_FLAGS: &[Meaning] = &[(0x2, "UseSubSampleEncryption")];

/// The names of the fields.
const NAMES: &<SencShape as NamedShape>::Names = &names_of!(
    VERSION,
    number!("flags", Flags(6), ENCRYPTION_FLAGS),
    number!("sample_count"),
    run!("data_bytes", Bytes)
);

impl HasFields for Senc {
    ghost shown = { λ view b. ⟦<SencShape as NamedShape>⟧.shown NAMES.now view
        (⟦<Senc as DeclaredBox>⟧.layout.content b) };

    ghost whole = { λ view b. ⟦<SencShape as NamedShape>⟧.whole NAMES.now view
        (⟦<Senc as DeclaredBox>⟧.layout.content b) };

    fn show<K: FieldSink>(&self, view: View, sink: &mut K) -> mp4_shown::Result<()> {
        let parts = parts_of!(self => version, flags, sample_count, samples.as_slice());
        SencShape::show(NAMES, view, &parts, sink)
    }
}

impl TakeFields for Senc {
    ghost taken = { declared_taken ⟦<Senc as DeclaredBox>⟧.layout (⟦<SencShape as TakeShape>⟧.taken NAMES.now) };

    fn take(alloc: Global, object: &mut Object<'_>) -> taken::Result<Senc> {
        take_declared::<Senc, SencShape>(alloc, NAMES, object)
    }
}

impl TryClone for Senc {
    fn try_clone(&self) -> Result<Senc> {
        let samples = self.samples.try_clone()?;
        Ok(Senc { samples, ..*self })
    }
}

/// The sample encryption box.
pub type SencBox = Declared<Senc>;
