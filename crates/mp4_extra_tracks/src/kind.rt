//! The track kind box.

ghost use Rattle.mp4_shown.specs.TakenShapes.{declared_taken};
ghost use Rattle.mp4_extra_tracks.specs.declared.kind.TheConstants.{NAMES};
ghost use Rattle.mp4_frame.specs.declared.codes.TheConstants as codes;
ghost use Rattle.mp4_declared.specs.OwnBox.{layout_of};
ghost use Rattle.std.proofs.Common.{refl, lit<};

use mp4_declared::declaring::*;
use mp4_frame::{Result, codes};
use mp4_shown::taken::{self, Object, TakeFields, TakeShape, take_declared};
use mp4_shown::{
    FLAGS, FieldSink, HasFields, NamedShape, VERSION, View, names_of, run, show_shape,
};
use std::alloc::Global;

/// The role of a track (`kind`, ISO/IEC 14496-12, 8.10.4). In the standard, strings are UTF-8 without a zero byte.
#[derive(Debug, Drop, PartialEq, Eq)]
pub struct Kind {
    /// 0 in the standard.
    pub version: u8,
    /// 24 bits, 0 in the standard.
    pub flags: u32,
    /// The URI of the scheme that defines `value`, such as `urn:mpeg:dash:role:2011` (`schemeURI`). If `value` is
    /// empty, the URI identifies the role itself.
    pub scheme_uri: Entries<u8>,
    /// The role in that scheme, such as `main`.
    pub value: Entries<u8>,
}

/// The content of the box: version, flags, and two strings, each ended by a zero byte.
pub type KindShape = Full<1, (Terminated, Last<Terminated>)>;

impl DeclaredBox for Kind {
    ghost use Rattle.mp4_extra_tracks.specs.contracts.kind.Kind.{struct};

    type Shape = KindShape;

    ghost CODE = { codes.KIND };

    ghost layout = { layout_of struct (λ _. tt) (λ _. refl) (lit< tt) };

    const CODE: u32 = codes::KIND;

    fn from_content(found: <KindShape as Shape>::Value) -> Kind {
        box_of!(found => Kind { version, flags, scheme_uri, value })
    }

    fn visit<Q: ShapeVisitor<Self::Shape>>(&self, out: &mut [u8]) -> Q::Answer {
        let parts = parts_of!(self => version, flags, scheme_uri.as_slice(), value.as_slice());
        Q::visit(parts, out)
    }

    ghost valid = { refl };
}

/// The names of the fields.
const NAMES: &<KindShape as NamedShape>::Names = &names_of!(
    VERSION,
    FLAGS,
    run!("schemeURI", Text),
    run!("value", Text)
);

impl HasFields for Kind {
    ghost shown = { λ view b. ⟦<KindShape as NamedShape>⟧.shown NAMES.now view
        (⟦<Kind as DeclaredBox>⟧.layout.content b) };

    ghost whole = { λ view b. ⟦<KindShape as NamedShape>⟧.whole NAMES.now view
        (⟦<Kind as DeclaredBox>⟧.layout.content b) };

    fn show<K: FieldSink>(&self, view: View, sink: &mut K) -> mp4_shown::Result<()> {
        let parts = parts_of!(self => version, flags, scheme_uri.as_slice(), value.as_slice());
        show_shape::<KindShape, _, K>(NAMES, view, &parts, sink)
    }
}

impl TakeFields for Kind {
    ghost taken = { declared_taken ⟦<Kind as DeclaredBox>⟧.layout (⟦<KindShape as TakeShape>⟧.taken NAMES.now) };

    fn take(alloc: Global, object: &mut Object<'_>) -> taken::Result<Kind> {
        take_declared::<Kind, KindShape>(alloc, NAMES, object)
    }
}

impl TryClone for Kind {
    fn try_clone(&self) -> Result<Kind> {
        let scheme_uri = self.scheme_uri.try_clone()?;
        let value = self.value.try_clone()?;
        Ok(Kind {
            scheme_uri,
            value,
            ..*self
        })
    }
}

/// The track kind box.
pub type KindBox = Declared<Kind>;
