//! The scheme type box.

ghost use Rattle.mp4_shown.specs.TakenShapes.{declared_taken};
ghost use Rattle.mp4_extra_tracks.specs.declared.schm.TheConstants.{NAMES};
ghost use Rattle.mp4_frame.specs.declared.codes.TheConstants as codes;
ghost use Rattle.std.proofs.Common.{refl, lit<};
ghost use Rattle.mp4_declared.specs.OwnBox.{layout_of};

use mp4_declared::{
    Code, Declared, DeclaredBox, Full, If, IfFlags, Last, Rest, Shape, ShapeVisitor, U32, box_of,
    parts_of,
};
use mp4_frame::{Entries, FourCC, Result, TryClone, codes};
use mp4_shown::taken::{self, Object, TakeFields, TakeShape, take_declared};
use mp4_shown::{
    FieldSink, HasFields, Meaning, NamedShape, ShowShape, VERSION, View, names_of, number, run,
};
use std::alloc::Global;

/// The scheme that protects the media (`schm`, ISO/IEC 14496-12, 8.12.5).
#[derive(Debug, Drop, PartialEq, Eq)]
pub struct Schm {
    /// 0 in the standard.
    pub version: u8,
    /// 24 bits. Flag 1 means that `scheme_uri` is present.
    pub flags: u32,
    /// The scheme, such as `cenc` or `cbcs`.
    pub scheme_type: FourCC,
    /// The version of the scheme: 0x10000 for the schemes of ISO/IEC 23001-7.
    pub scheme_version: u32,
    /// The URI of a page for users whose player lacks the scheme, in UTF-8, including the zero byte that ends it.
    /// `None` unless flag 1 is set.
    pub scheme_uri: Option<Entries<u8>>,
}

/// The content of the box: version, flags, a code, a number, and bytes up to its end if flag 1 is set.
pub type SchmShape = Full<1, (Code, U32, Last<If<IfFlags<1>, Rest>>)>;

impl DeclaredBox for Schm {
    ghost use Rattle.mp4_extra_tracks.specs.contracts.schm.Schm.{struct};

    type Shape = SchmShape;

    ghost CODE = { codes.SCHM };

    ghost layout = { layout_of struct (λ _. tt) (λ _. refl) (lit< tt) };

    const CODE: u32 = codes::SCHM;

    fn from_content(found: <SchmShape as Shape>::Value) -> Schm {
        box_of!(found => Schm { version, flags, scheme_type, scheme_version, scheme_uri })
    }

    fn visit<Q: ShapeVisitor<Self::Shape>>(&self, out: &mut [u8]) -> Q::Answer {
        let scheme_uri = match &self.scheme_uri {
            Some(scheme_uri) => Some(scheme_uri.as_slice()),
            None => None,
        };
        let parts = parts_of!(self => version, flags, scheme_type, scheme_version, = scheme_uri);
        Q::visit(parts, out)
    }

    ghost valid = { refl };
}

/// The flags of the box.
const SCHEME_FLAGS: &[Meaning] = &[(0x1, "scheme_uri")];

/// The names of the fields.
const NAMES: &<SchmShape as NamedShape>::Names = &names_of!(
    VERSION,
    number!("flags", Flags(6), SCHEME_FLAGS),
    "scheme_type",
    number!("scheme_version"),
    run!("scheme_uri", Ended)
);

impl HasFields for Schm {
    ghost shown = { λ view b. ⟦<SchmShape as NamedShape>⟧.shown NAMES.now view
        (⟦<Schm as DeclaredBox>⟧.layout.content b) };

    ghost whole = { λ view b. ⟦<SchmShape as NamedShape>⟧.whole NAMES.now view
        (⟦<Schm as DeclaredBox>⟧.layout.content b) };

    fn show<K: FieldSink>(&self, view: View, sink: &mut K) -> mp4_shown::Result<()> {
        let scheme_uri = match &self.scheme_uri {
            Some(scheme_uri) => Some(scheme_uri.as_slice()),
            None => None,
        };
        let parts = parts_of!(self => version, flags, scheme_type, scheme_version, = scheme_uri);
        SchmShape::show(NAMES, view, &parts, sink)
    }
}

impl TakeFields for Schm {
    ghost taken = { declared_taken ⟦<Schm as DeclaredBox>⟧.layout (⟦<SchmShape as TakeShape>⟧.taken NAMES.now) };

    fn take(alloc: Global, object: &mut Object<'_>) -> taken::Result<Schm> {
        take_declared::<Schm, SchmShape>(alloc, NAMES, object)
    }
}

impl TryClone for Schm {
    fn try_clone(&self) -> Result<Schm> {
        let scheme_uri = match &self.scheme_uri {
            Some(scheme_uri) => Some(scheme_uri.try_clone()?),
            None => None,
        };
        Ok(Schm {
            scheme_uri,
            ..*self
        })
    }
}

/// The scheme type box.
pub type SchmBox = Declared<Schm>;
