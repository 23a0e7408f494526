//! The pixel information box.

ghost use Rattle.mp4_shown.specs.TakenShapes.{declared_taken};
ghost use Rattle.mp4_extra_pictures.specs.declared.pixi.TheConstants.{NAMES};
ghost use Rattle.mp4_frame.specs.declared.codes.TheConstants as codes;
ghost use Rattle.mp4_declared.specs.OwnBox.{layout_of};
ghost use Rattle.std.proofs.Common.{refl, lit<};

use mp4_declared::declaring::*;
use mp4_frame::{Result, codes};
use mp4_shown::taken::{self, Object, TakeFields, TakeShape, take_declared};
use mp4_shown::{FLAGS, FieldSink, HasFields, NamedShape, ShowShape, VERSION, View, names_of, run};
use std::alloc::Global;

/// The number and the size of an image's channels (`pixi`, ISO/IEC 23008-12, 6.5.6).
#[derive(Debug, Drop, PartialEq, Eq)]
pub struct Pixi {
    /// 0 in the standard.
    pub version: u8,
    /// 24 bits, 0 in the standard.
    pub flags: u32,
    /// The number of bits of each channel, for at most 255 channels.
    pub bits_per_channel: Entries<u8>,
}

/// The content of the box: version, flags, a count of 8 bits, and that many bytes.
pub type PixiShape = Full<1, Last<Bytes<U8>>>;

impl DeclaredBox for Pixi {
    ghost use Rattle.mp4_extra_pictures.specs.contracts.pixi.Pixi.{struct};

    type Shape = PixiShape;

    ghost CODE = { codes.PIXI };

    ghost layout = { layout_of struct (λ _. tt) (λ _. refl) (lit< tt) };

    const CODE: u32 = codes::PIXI;

    fn from_content(found: <PixiShape as Shape>::Value) -> Pixi {
        box_of!(found => Pixi { version, flags, bits_per_channel })
    }

    fn visit<Q: ShapeVisitor<Self::Shape>>(&self, out: &mut [u8]) -> Q::Answer {
        let parts = parts_of!(self => version, flags, bits_per_channel.as_slice());
        Q::visit(parts, out)
    }

    ghost valid = { refl };
}

/// The names of the fields.
const NAMES: &<PixiShape as NamedShape>::Names = &names_of!(
    VERSION,
    FLAGS,
    run!("bits_per_channel", Numbers)
);

impl HasFields for Pixi {
    ghost shown = { λ view b. ⟦<PixiShape as NamedShape>⟧.shown NAMES.now view
        (⟦<Pixi as DeclaredBox>⟧.layout.content b) };

    ghost whole = { λ view b. ⟦<PixiShape as NamedShape>⟧.whole NAMES.now view
        (⟦<Pixi as DeclaredBox>⟧.layout.content b) };

    fn show<K: FieldSink>(&self, view: View, sink: &mut K) -> mp4_shown::Result<()> {
        let parts = parts_of!(self => version, flags, bits_per_channel.as_slice());
        PixiShape::show(NAMES, view, &parts, sink)
    }
}

impl TakeFields for Pixi {
    ghost taken = { declared_taken ⟦<Pixi as DeclaredBox>⟧.layout (⟦<PixiShape as TakeShape>⟧.taken NAMES.now) };

    fn take(alloc: Global, object: &mut Object<'_>) -> taken::Result<Pixi> {
        take_declared::<Pixi, PixiShape>(alloc, NAMES, object)
    }
}

impl TryClone for Pixi {
    fn try_clone(&self) -> Result<Pixi> {
        let bits_per_channel = self.bits_per_channel.try_clone()?;
        Ok(Pixi {
            bits_per_channel,
            ..*self
        })
    }
}

/// The pixel information box.
pub type PixiBox = Declared<Pixi>;
