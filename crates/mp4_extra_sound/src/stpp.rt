//! The sample entry of subtitles in XML.

ghost use Rattle.mp4_shown.specs.TakenShapes.{declared_taken};
ghost use Rattle.mp4_extra_sound.specs.declared.stpp.TheConstants.{NAMES};
ghost use Rattle.mp4_frame.specs.declared.codes.TheConstants as codes;
ghost use Rattle.mp4_declared.specs.OwnBox.{layout_of};
ghost use Rattle.std.proofs.Common.{refl, lit<};

use mp4_declared::declaring::*;
use mp4_frame::{Result, codes};
use mp4_shown::taken::{self, Object, TakeFields, TakeShape, take_declared};
use mp4_shown::{FieldSink, HasFields, NamedShape, ShowShape, View, names_of, number, run};
use std::alloc::Global;

/// The sample entry of subtitles in XML (`stpp`, ISO/IEC 14496-12, 12.6.3). In the standard, strings are UTF-8 without
/// a zero byte. Items of a list in a string are separated by spaces.
#[derive(Debug, Drop, PartialEq, Eq)]
pub struct Stpp {
    /// The number of the data reference that holds the samples, starting at 1.
    pub data_reference_index: u16,
    /// A list of the namespaces of the documents in the samples, at least one, such as `http://www.w3.org/ns/ttml`.
    pub namespace: Entries<u8>,
    /// A list of the addresses of the namespaces' schemas. Empty if unspecified.
    pub schema_location: Entries<u8>,
    /// A list of the media types of the samples' other resources, such as `image/png`. Empty if samples hold only
    /// documents.
    pub auxiliary_mime_types: Entries<u8>,
    /// The bytes of the boxes after the strings, such as a `btrt`.
    pub boxes: Entries<u8>,
}

/// The content of the box: six reserved bytes, a number, three strings, each ended by a zero byte, and bytes up to its
/// end.
pub type StppShape = Reserved<6, (U16, Terminated, Terminated, Terminated, Last<Rest>)>;

impl DeclaredBox for Stpp {
    ghost use Rattle.mp4_extra_sound.specs.contracts.stpp.Stpp.{struct};

    type Shape = StppShape;

    ghost CODE = { codes.STPP };

    ghost layout = { layout_of struct (λ _. tt) (λ _. refl) (lit< tt) };

    const CODE: u32 = codes::STPP;

    fn from_content(found: <StppShape as Shape>::Value) -> Stpp {
        box_of!(found => Stpp { data_reference_index, namespace, schema_location, auxiliary_mime_types, boxes })
    }

    fn visit<Q: ShapeVisitor<Self::Shape>>(&self, out: &mut [u8]) -> Q::Answer {
        let parts =
            parts_of!(self => data_reference_index, namespace.as_slice(), schema_location.as_slice(),
            auxiliary_mime_types.as_slice(), boxes.as_slice());
        Q::visit(parts, out)
    }

    ghost valid = { refl };
}

/// The names of the fields.
const NAMES: &<StppShape as NamedShape>::Names = &names_of!(
    number!("data_reference_index"),
    run!("namespace", Text),
    run!("schema_location", Text),
    run!("auxiliary_mime_types", Text),
    run!("data_bytes", SomeBytes)
);

impl HasFields for Stpp {
    ghost shown = { λ view b. ⟦<StppShape as NamedShape>⟧.shown NAMES.now view
        (⟦<Stpp as DeclaredBox>⟧.layout.content b) };

    ghost whole = { λ view b. ⟦<StppShape as NamedShape>⟧.whole NAMES.now view
        (⟦<Stpp as DeclaredBox>⟧.layout.content b) };

    fn show<K: FieldSink>(&self, view: View, sink: &mut K) -> mp4_shown::Result<()> {
        let parts =
            parts_of!(self => data_reference_index, namespace.as_slice(), schema_location.as_slice(),
            auxiliary_mime_types.as_slice(), boxes.as_slice());
        StppShape::show(NAMES, view, &parts, sink)
    }
}

impl TakeFields for Stpp {
    ghost taken = { declared_taken ⟦<Stpp as DeclaredBox>⟧.layout (⟦<StppShape as TakeShape>⟧.taken NAMES.now) };

    fn take(alloc: Global, object: &mut Object<'_>) -> taken::Result<Stpp> {
        take_declared::<Stpp, StppShape>(alloc, NAMES, object)
    }
}

impl TryClone for Stpp {
    fn try_clone(&self) -> Result<Stpp> {
        let namespace = self.namespace.try_clone()?;
        let schema_location = self.schema_location.try_clone()?;
        let auxiliary_mime_types = self.auxiliary_mime_types.try_clone()?;
        let boxes = self.boxes.try_clone()?;
        Ok(Stpp {
            namespace,
            schema_location,
            auxiliary_mime_types,
            boxes,
            ..*self
        })
    }
}

/// The sample entry of subtitles in XML.
pub type StppBox = Declared<Stpp>;
