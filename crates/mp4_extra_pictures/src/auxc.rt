//! The auxiliary type property box.

ghost use Rattle.mp4_shown.specs.TakenShapes.{declared_taken};
ghost use Rattle.mp4_extra_pictures.specs.declared.auxc.TheConstants.{NAMES};
ghost use Rattle.mp4_frame.specs.declared.codes.TheConstants as codes;
ghost use Rattle.mp4_declared.specs.OwnBox.{layout_of};
ghost use Rattle.std.proofs.Common.{refl, lit<};

use mp4_declared::declaring::*;
use mp4_frame::{Result, codes};
use mp4_shown::taken::{self, Object, TakeFields, TakeShape, take_declared};
use mp4_shown::{
    FLAGS, FieldSink, HasFields, NamedShape, VERSION, View, names_of, run, show_shape,
};
use std::alloc::Global;

/// The role of an auxiliary image (`auxC`, ISO/IEC 23008-12, 6.5.8).
#[derive(Debug, Drop, PartialEq, Eq)]
pub struct Auxc {
    /// 0 in the standard.
    pub version: u8,
    /// 24 bits, 0 in the standard.
    pub flags: u32,
    /// The URN of the role, such as `urn:mpeg:mpegB:cicp:systems:auxiliary:alpha`, without the zero byte that ends it.
    pub aux_type: Entries<u8>,
    /// Bytes whose meaning depends on the role.
    pub aux_subtype: Entries<u8>,
}

/// The content of the box: version, flags, a string ended by a zero byte, and bytes up to its end.
pub type AuxcShape = Full<1, (Terminated, Last<Rest>)>;

impl DeclaredBox for Auxc {
    ghost use Rattle.mp4_extra_pictures.specs.contracts.auxc.Auxc.{struct};

    type Shape = AuxcShape;

    ghost CODE = { codes.AUXC };

    ghost layout = { layout_of struct (λ _. tt) (λ _. refl) (lit< tt) };

    const CODE: u32 = codes::AUXC;

    fn from_content(found: <AuxcShape as Shape>::Value) -> Auxc {
        box_of!(found => Auxc { version, flags, aux_type, aux_subtype })
    }

    fn visit<Q: ShapeVisitor<Self::Shape>>(&self, out: &mut [u8]) -> Q::Answer {
        let parts = parts_of!(self => version, flags, aux_type.as_slice(), aux_subtype.as_slice());
        Q::visit(parts, out)
    }

    ghost valid = { refl };
}

/// The names of the fields.
const NAMES: &<AuxcShape as NamedShape>::Names = &names_of!(
    VERSION,
    FLAGS,
    run!("aux_type", Text),
    run!("aux_subtype", SomeBytes)
);

impl HasFields for Auxc {
    ghost shown = { λ view b. ⟦<AuxcShape as NamedShape>⟧.shown NAMES.now view
        (⟦<Auxc as DeclaredBox>⟧.layout.content b) };

    ghost whole = { λ view b. ⟦<AuxcShape as NamedShape>⟧.whole NAMES.now view
        (⟦<Auxc as DeclaredBox>⟧.layout.content b) };

    fn show<K: FieldSink>(&self, view: View, sink: &mut K) -> mp4_shown::Result<()> {
        let parts = parts_of!(self => version, flags, aux_type.as_slice(), aux_subtype.as_slice());
        show_shape::<AuxcShape, _, K>(NAMES, view, &parts, sink)
    }
}

impl TakeFields for Auxc {
    ghost taken = { declared_taken ⟦<Auxc as DeclaredBox>⟧.layout (⟦<AuxcShape as TakeShape>⟧.taken NAMES.now) };

    fn take(alloc: Global, object: &mut Object<'_>) -> taken::Result<Auxc> {
        take_declared::<Auxc, AuxcShape>(alloc, NAMES, object)
    }
}

impl TryClone for Auxc {
    fn try_clone(&self) -> Result<Auxc> {
        let aux_type = self.aux_type.try_clone()?;
        let aux_subtype = self.aux_subtype.try_clone()?;
        Ok(Auxc {
            aux_type,
            aux_subtype,
            ..*self
        })
    }
}

/// The auxiliary type property box.
pub type AuxcBox = Declared<Auxc>;
