//! The data entry URN box.

ghost use Rattle.mp4_extra_tracks.specs.declared.urn.TheConstants.{NAMES};
ghost use Rattle.mp4_frame.specs.declared.codes.TheConstants as codes;
ghost use Rattle.std.proofs.Common.{refl, lit<};
ghost use Rattle.std.specs.Prelude.{nat_lt, length};
ghost use Rattle.mp4_declared.specs.OwnBox.{layout_of};

mod taken;

use crate::alis::REFERENCE;
use mp4_declared::{
    Declared, DeclaredBox, Full, Last, Rest, Shape, ShapeVisitor, Terminated, box_of, parts_of,
};
use mp4_frame::{Entries, Result, TryClone, codes};
use mp4_shown::{
    FieldSink, HasFields, NamedBy, NamedShape, VERSION, View, number, run, show_shape,
};

/// A reference to media data by a name (`urn `, ISO/IEC 14496-12, 8.7.2).
#[derive(Debug, Drop, PartialEq, Eq)]
pub struct Urn {
    /// 0 in the standard.
    pub version: u8,
    /// 24 bits. Flag 1 means that the media data are in the same file.
    pub flags: u32,
    /// The name, a URN, without the byte of 0 that ends it.
    pub name: Entries<u8>,
    /// The location, a URL, with the byte of 0 that ends it. Empty if there is none.
    pub location: Entries<u8>,
}

/// The content of the box: version, flags, a string ended by a byte of 0, and bytes up to its end.
pub type UrnShape = Full<1, (Terminated, Last<Rest>)>;

impl DeclaredBox for Urn {
    ghost use Rattle.mp4_extra_tracks.specs.contracts.urn.Urn.{struct};

    type Shape = UrnShape;

    ghost CODE = { codes.URN };

    ghost layout = { layout_of struct (λ _. tt) (λ _. refl) (lit< tt) };

    const CODE: u32 = codes::URN;

    fn from_content(found: <UrnShape as Shape>::Value) -> Urn {
        box_of!(found => Urn { version, flags, name, location })
    }

    fn visit<Q: ShapeVisitor<Self::Shape>>(&self, out: &mut [u8]) -> Q::Answer {
        let parts = parts_of!(self => version, flags, name.as_slice(), location.as_slice());
        Q::visit(parts, out)
    }

    ghost valid = { refl };
}

/// The content of the box, for showing only. A location is shown if there are bytes for it.
type UrnShown = Full<1, (Terminated, NamedBy<Rest>)>;

/// The names of the fields.
const NAMES: &<UrnShown as NamedShape>::Names = &(
    VERSION,
    (
        number!("flags", Flags(6), REFERENCE),
        (
            run!("name", Text),
            (run!("location", Ended), run!("location", SomeBytes)),
        ),
    ),
);

impl HasFields for Urn {
    ghost shown = { λ view b. ⟦<UrnShown as NamedShape>⟧.shown NAMES.now view
        (b.version, (b.flags, (b.name, (nat_lt 0 (length b.location), b.location)))) };

    ghost whole = { λ view b. ⟦<UrnShown as NamedShape>⟧.whole NAMES.now view
        (b.version, (b.flags, (b.name, (nat_lt 0 (length b.location), b.location)))) };

    fn show<K: FieldSink>(&self, view: View, sink: &mut K) -> mp4_shown::Result<()> {
        let location = (0 < self.location.len(), self.location.as_slice());
        let strings = (self.name.as_slice(), location);
        let parts = (self.version, (self.flags, strings));
        show_shape::<UrnShown, _, K>(NAMES, view, &parts, sink)
    }
}

impl TryClone for Urn {
    fn try_clone(&self) -> Result<Urn> {
        let name = self.name.try_clone()?;
        let location = self.location.try_clone()?;
        Ok(Urn {
            name,
            location,
            ..*self
        })
    }
}

/// The data entry URN box.
pub type UrnBox = Declared<Urn>;
