//! The sample auxiliary information sizes box.

ghost use Rattle.mp4_shown.specs.TakenShapes.{declared_taken};
ghost use Rattle.mp4_extra_samples.specs.declared.saiz.TheConstants.{NAMES};
ghost use Rattle.mp4_frame.specs.declared.codes.TheConstants as codes;
ghost use Rattle.std.proofs.Common.{refl, lit<};
ghost use Rattle.mp4_declared.specs.OwnBox.{layout_of};

use mp4_declared::{
    Code, Declared, DeclaredBox, Full, If, IfFlags, Last, Rest, Shape, ShapeVisitor, U8, U32,
    box_of, parts_of,
};
use mp4_frame::{Entries, FourCC, Result, TryClone, codes};
use mp4_shown::taken::{self, Object, TakeFields, TakeShape, take_declared};
use mp4_shown::{
    FieldSink, HasFields, Meaning, NamedShape, ShowShape, VERSION, View, names_of, number, run,
};
use std::alloc::Global;

/// The sizes of the samples' auxiliary information (`saiz`, ISO/IEC 14496-12, 8.7.8). A `saio` has its offsets.
#[derive(Debug, Drop, PartialEq, Eq)]
pub struct Saiz {
    /// 0 in the standard.
    pub version: u8,
    /// 24 bits. Flag 1 means that `aux_info_type` and `aux_info_type_parameter` are present.
    pub flags: u32,
    /// The type of the information, such as `cenc` for encryption. `None` unless flag 1 is set: then the type is the
    /// scheme of protection, or the code of the sample entry if the samples are not protected.
    pub aux_info_type: Option<FourCC>,
    /// A number that distinguishes information of the same type; the type defines it. `None` unless flag 1 is set.
    pub aux_info_type_parameter: Option<u32>,
    /// The number of bytes for each sample if they are all equal, else 0.
    pub default_sample_info_size: u8,
    /// The number of samples, starting at the first, that have a size.
    pub sample_count: u32,
    /// The `sample_count` numbers of bytes for each sample, in order (`sample_info_size`), if
    /// `default_sample_info_size` is 0. Else empty.
    pub sample_info_sizes: Entries<u8>,
}

/// The content of the box: version, flags, a code and a number if flag 1 is set, two numbers, and bytes up to its end.
pub type SaizShape = Full<
    1,
    (
        If<IfFlags<1>, Code>,
        If<IfFlags<1>, U32>,
        U8,
        U32,
        Last<Rest>,
    ),
>;

impl DeclaredBox for Saiz {
    ghost use Rattle.mp4_extra_samples.specs.contracts.saiz.Saiz.{struct};

    type Shape = SaizShape;

    ghost CODE = { codes.SAIZ };

    ghost layout = { layout_of struct (λ _. tt) (λ _. refl) (lit< tt) };

    const CODE: u32 = codes::SAIZ;

    fn from_content(found: <SaizShape as Shape>::Value) -> Saiz {
        box_of!(found => Saiz { version, flags, aux_info_type, aux_info_type_parameter,
            default_sample_info_size, sample_count, sample_info_sizes })
    }

    fn visit<Q: ShapeVisitor<Self::Shape>>(&self, out: &mut [u8]) -> Q::Answer {
        let parts = parts_of!(self => version, flags, aux_info_type, aux_info_type_parameter,
            default_sample_info_size, sample_count, sample_info_sizes.as_slice());
        Q::visit(parts, out)
    }

    ghost valid = { refl };
}

/// The flags of the box.
const AUXILIARY_FLAGS: &[Meaning] = &[(0x1, "aux_info_type")];

/// The names of the fields.
const NAMES: &<SaizShape as NamedShape>::Names = &names_of!(
    VERSION,
    number!("flags", Flags(6), AUXILIARY_FLAGS),
    "aux_info_type",
    number!("aux_info_type_parameter"),
    number!("default_sample_info_size"),
    number!("sample_count"),
    run!("sample_info_size", Numbers)
);

impl HasFields for Saiz {
    ghost shown = { λ view b. ⟦<SaizShape as NamedShape>⟧.shown NAMES.now view
        (⟦<Saiz as DeclaredBox>⟧.layout.content b) };

    ghost whole = { λ view b. ⟦<SaizShape as NamedShape>⟧.whole NAMES.now view
        (⟦<Saiz as DeclaredBox>⟧.layout.content b) };

    fn show<K: FieldSink>(&self, view: View, sink: &mut K) -> mp4_shown::Result<()> {
        let parts = parts_of!(self => version, flags, aux_info_type, aux_info_type_parameter,
            default_sample_info_size, sample_count, sample_info_sizes.as_slice());
        SaizShape::show(NAMES, view, &parts, sink)
    }
}

impl TakeFields for Saiz {
    ghost taken = { declared_taken ⟦<Saiz as DeclaredBox>⟧.layout (⟦<SaizShape as TakeShape>⟧.taken NAMES.now) };

    fn take(alloc: Global, object: &mut Object<'_>) -> taken::Result<Saiz> {
        take_declared::<Saiz, SaizShape>(alloc, NAMES, object)
    }
}

impl TryClone for Saiz {
    fn try_clone(&self) -> Result<Saiz> {
        let sample_info_sizes = self.sample_info_sizes.try_clone()?;
        Ok(Saiz {
            sample_info_sizes,
            ..*self
        })
    }
}

/// The sample auxiliary information sizes box.
pub type SaizBox = Declared<Saiz>;
