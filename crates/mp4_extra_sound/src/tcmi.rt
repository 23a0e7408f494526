//! The timecode media information box.

ghost use Rattle.mp4_shown.specs.TakenShapes.{declared_taken};
ghost use Rattle.mp4_extra_sound.specs.declared.tcmi.TheConstants.{NAMES};
ghost use Rattle.mp4_frame.specs.declared.codes.TheConstants as codes;
ghost use Rattle.mp4_declared.specs.OwnBox.{layout_of};
ghost use Rattle.std.proofs.Common.{refl, lit<};

use mp4_declared::declaring::*;
use mp4_frame::{Result, codes};
use mp4_shown::taken::{self, Object, TakeFields, TakeShape, take_declared};
use mp4_shown::{
    FLAGS, FieldSink, HasFields, NamedShape, ShowShape, VERSION, View, names_of, number, run,
};
use std::alloc::Global;

/// The look of a time code (`tcmi`, QuickTime File Format, "Timecode media information atom").
#[derive(Debug, Drop, PartialEq, Eq)]
pub struct Tcmi {
    /// 0 in the standard.
    pub version: u8,
    /// 24 bits, 0 in the standard.
    pub flags: u32,
    /// The number of the font; 0 for the font of the system.
    pub text_font: u16,
    /// The style of the text, a flag for each: 1 for bold, 2 for italic, and others.
    pub text_face: u16,
    /// The size of the text, in points.
    pub text_size: u16,
    /// The colours of the text and the background, with 16 bits for each of red, green and blue, and the name of the
    /// font after its length. Many files have two further bytes before the colours.
    pub rest: Entries<u8>,
}

/// The content of the box: version, flags, three numbers, and bytes up to its end.
pub type TcmiShape = Full<1, (U16, U16, U16, Last<Rest>)>;

impl DeclaredBox for Tcmi {
    ghost use Rattle.mp4_extra_sound.specs.contracts.tcmi.Tcmi.{struct};

    type Shape = TcmiShape;

    ghost CODE = { codes.TCMI };

    ghost layout = { layout_of struct (λ _. tt) (λ _. refl) (lit< tt) };

    const CODE: u32 = codes::TCMI;

    fn from_content(found: <TcmiShape as Shape>::Value) -> Tcmi {
        box_of!(found => Tcmi { version, flags, text_font, text_face, text_size, rest })
    }

    fn visit<Q: ShapeVisitor<Self::Shape>>(&self, out: &mut [u8]) -> Q::Answer {
        let parts =
            parts_of!(self => version, flags, text_font, text_face, text_size, rest.as_slice());
        Q::visit(parts, out)
    }

    ghost valid = { refl };
}

/// The names of the fields.
const NAMES: &<TcmiShape as NamedShape>::Names = &names_of!(
    VERSION,
    FLAGS,
    number!("text_font"),
    number!("text_face"),
    number!("text_size"),
    run!("data_bytes", SomeBytes)
);

impl HasFields for Tcmi {
    ghost shown = { λ view b. ⟦<TcmiShape as NamedShape>⟧.shown NAMES.now view
        (⟦<Tcmi as DeclaredBox>⟧.layout.content b) };

    ghost whole = { λ view b. ⟦<TcmiShape as NamedShape>⟧.whole NAMES.now view
        (⟦<Tcmi as DeclaredBox>⟧.layout.content b) };

    fn show<K: FieldSink>(&self, view: View, sink: &mut K) -> mp4_shown::Result<()> {
        let parts =
            parts_of!(self => version, flags, text_font, text_face, text_size, rest.as_slice());
        TcmiShape::show(NAMES, view, &parts, sink)
    }
}

impl TakeFields for Tcmi {
    ghost taken = { declared_taken ⟦<Tcmi as DeclaredBox>⟧.layout (⟦<TcmiShape as TakeShape>⟧.taken NAMES.now) };

    fn take(alloc: Global, object: &mut Object<'_>) -> taken::Result<Tcmi> {
        take_declared::<Tcmi, TcmiShape>(alloc, NAMES, object)
    }
}

impl TryClone for Tcmi {
    fn try_clone(&self) -> Result<Tcmi> {
        let rest = self.rest.try_clone()?;
        Ok(Tcmi { rest, ..*self })
    }
}

/// The timecode media information box.
pub type TcmiBox = Declared<Tcmi>;
