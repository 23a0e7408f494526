//! The name box of a metadata item.

ghost use Rattle.mp4_shown.specs.TakenShapes.{declared_taken};
ghost use Rattle.mp4_extra_tracks.specs.declared.name.TheConstants.{NAMES};
ghost use Rattle.mp4_frame.specs.declared.codes.TheConstants as codes;
ghost use Rattle.mp4_declared.specs.OwnBox.{layout_of};
ghost use Rattle.std.proofs.Common.{refl, lit<};

use mp4_declared::declaring::*;
use mp4_frame::{Result, codes};
use mp4_shown::taken::{self, Object, TakeFields, TakeShape, take_declared};
use mp4_shown::{FLAGS, FieldSink, HasFields, NamedShape, ShowShape, VERSION, View, names_of, run};
use std::alloc::Global;

/// The name of a metadata item (`name`, iTunes, metadata). The item has the code `----`, and a `mean` beside this box.
/// A `name` elsewhere, such as the name of a track in QuickTime, is another box.
#[derive(Debug, Drop, PartialEq, Eq)]
pub struct Name {
    /// 0 in iTunes.
    pub version: u8,
    /// 24 bits, 0 in iTunes.
    pub flags: u32,
    /// The name in its domain, such as `iTunSMPB`, in UTF-8 without a terminator.
    pub value: Entries<u8>,
}

/// The content of the box: version, flags, and bytes up to its end.
pub type NameShape = Full<1, Last<Rest>>;

impl DeclaredBox for Name {
    ghost use Rattle.mp4_extra_tracks.specs.contracts.name.Name.{struct};

    type Shape = NameShape;

    ghost CODE = { codes.TAG_NAME };

    ghost layout = { layout_of struct (λ _. tt) (λ _. refl) (lit< tt) };

    const CODE: u32 = codes::TAG_NAME;

    fn from_content(found: <NameShape as Shape>::Value) -> Name {
        box_of!(found => Name { version, flags, value })
    }

    fn visit<Q: ShapeVisitor<Self::Shape>>(&self, out: &mut [u8]) -> Q::Answer {
        let parts = parts_of!(self => version, flags, value.as_slice());
        Q::visit(parts, out)
    }

    ghost valid = { refl };
}

/// The names of the fields.
const NAMES: &<NameShape as NamedShape>::Names = &names_of!(VERSION, FLAGS, run!("value", Text));

impl HasFields for Name {
    ghost shown = { λ view b. ⟦<NameShape as NamedShape>⟧.shown NAMES.now view
        (⟦<Name as DeclaredBox>⟧.layout.content b) };

    ghost whole = { λ view b. ⟦<NameShape as NamedShape>⟧.whole NAMES.now view
        (⟦<Name as DeclaredBox>⟧.layout.content b) };

    fn show<K: FieldSink>(&self, view: View, sink: &mut K) -> mp4_shown::Result<()> {
        let parts = parts_of!(self => version, flags, value.as_slice());
        NameShape::show(NAMES, view, &parts, sink)
    }
}

impl TakeFields for Name {
    ghost taken = { declared_taken ⟦<Name as DeclaredBox>⟧.layout (⟦<NameShape as TakeShape>⟧.taken NAMES.now) };

    fn take(alloc: Global, object: &mut Object<'_>) -> taken::Result<Name> {
        take_declared::<Name, NameShape>(alloc, NAMES, object)
    }
}

impl TryClone for Name {
    fn try_clone(&self) -> Result<Name> {
        let value = self.value.try_clone()?;
        Ok(Name { value, ..*self })
    }
}

/// The name box of a metadata item.
pub type NameBox = Declared<Name>;
