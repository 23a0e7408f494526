//! The AC-3 specific box.

ghost use Rattle.mp4_shown.specs.TakenShapes.{declared_taken};
ghost use Rattle.mp4_extra_sound.specs.declared.dac3.TheConstants.{WIDTHS, NAMES};
ghost use Rattle.mp4_frame.specs.declared.codes.TheConstants as codes;
ghost use Rattle.std.proofs.Common.{refl, lit<};
ghost use Rattle.mp4_declared.specs.OwnBox.{layout_of};
ghost use Rattle.mp4_declared.specs.Layout.{packed, fields_of};

use mp4_declared::{
    Bits, Declared, DeclaredBox, EntryLayout, Last, Shape, ShapeVisitor, box_of, entry_of,
    numbers_of, parts_of,
};
use mp4_frame::{Result, TryClone, codes};
use mp4_shown::taken::{self, Object, TakeFields, TakeShape, take_declared};
use mp4_shown::{FieldSink, HasFields, NamedShape, NumberName, ShowShape, View, names_of, number};
use std::alloc::Global;

/// The fields of a `dac3`. The names are those of the AC-3 bit stream.
#[derive(Clone, Copy, Debug, Default, PartialEq, Eq)]
pub struct Ac3Config {
    /// The sample rate: 0 for 48,000 Hz, 1 for 44,100 Hz, 2 for 32,000 Hz. 2 bits.
    pub fscod: u8,
    /// The version of the bit stream, at most 8. 5 bits.
    pub bsid: u8,
    /// The kind of audio service: 0 for the main service. 3 bits.
    pub bsmod: u8,
    /// The channels except the one of low frequencies: 2 for left and right, 7 for five channels. 3 bits.
    pub acmod: u8,
    /// True if the channel of low frequencies is present.
    pub lfeon: bool,
    /// The bit rate, as an index into a table: 0 for 32 kbit/s, 18 for 640 kbit/s. 5 bits.
    pub bit_rate_code: u8,
    /// 0 in the standard. 5 bits.
    pub reserved: u8,
}

/// The widths of the fields, in bits. A field of one bit is a flag.
const WIDTHS: [u8; 7] = [2, 5, 3, 3, 1, 5, 5];

impl EntryLayout<7, 3> for Ac3Config {
    ghost use Rattle.mp4_extra_sound.specs.contracts.dac3.Ac3Config.{struct};

    ghost layout = { packed (fields_of WIDTHS) struct.as_values (λ v. struct.make v tt) (λ _. refl) (λ _. refl) refl };

    fn widths() -> [u8; 7] {
        WIDTHS
    }

    fn numbers(&self) -> [u64; 7] {
        numbers_of!(self => fscod, bsid, bsmod, acmod, lfeon, bit_rate_code, reserved)
    }

    fn from_numbers(n: &[u64; 7]) -> Ac3Config {
        entry_of!(n => Ac3Config { fscod: u8, bsid: u8, bsmod: u8, acmod: u8, lfeon: bool, bit_rate_code: u8,
            reserved: u8 })
    }

    ghost few = { lit< tt };
}

/// The configuration of an AC-3 decoder (`dac3`, ETSI TS 102 366, F.4).
#[derive(Clone, Copy, Debug, Drop, PartialEq, Eq)]
pub struct Dac3 {
    /// The fields of the box.
    pub config: Ac3Config,
}

/// The content of the box: three bytes of bits.
pub type Dac3Shape = Last<Bits<Ac3Config, 7, 3>>;

impl DeclaredBox for Dac3 {
    ghost use Rattle.mp4_extra_sound.specs.contracts.dac3.Dac3.{struct};

    type Shape = Dac3Shape;

    ghost CODE = { codes.DAC3 };

    ghost layout = { layout_of struct (λ _. tt) (λ _. refl) (lit< tt) };

    const CODE: u32 = codes::DAC3;

    fn from_content(found: <Dac3Shape as Shape>::Value) -> Dac3 {
        box_of!(found => Dac3 { config })
    }

    fn visit<Q: ShapeVisitor<Self::Shape>>(&self, out: &mut [u8]) -> Q::Answer {
        Q::visit(parts_of!(self => config), out)
    }

    ghost valid = { refl };
}

/// The names of the configuration.
const CONFIG: &[NumberName] = &[
    number!("fscod"),
    number!("bsid"),
    number!("bsmod"),
    number!("acmod"),
    number!("lfeon"),
    number!("bit_rate_code"),
    number!("reserved", Reserved(0)),
];

/// The names of the fields.
const NAMES: &<Dac3Shape as NamedShape>::Names = &names_of!(CONFIG);

impl HasFields for Dac3 {
    ghost shown = { λ view b. ⟦<Dac3Shape as NamedShape>⟧.shown NAMES.now view
        (⟦<Dac3 as DeclaredBox>⟧.layout.content b) };

    ghost whole = { λ view b. ⟦<Dac3Shape as NamedShape>⟧.whole NAMES.now view
        (⟦<Dac3 as DeclaredBox>⟧.layout.content b) };

    fn show<K: FieldSink>(&self, view: View, sink: &mut K) -> mp4_shown::Result<()> {
        Dac3Shape::show(NAMES, view, &parts_of!(self => config), sink)
    }
}

impl TakeFields for Dac3 {
    ghost taken = { declared_taken ⟦<Dac3 as DeclaredBox>⟧.layout (⟦<Dac3Shape as TakeShape>⟧.taken NAMES.now) };

    fn take(alloc: Global, object: &mut Object<'_>) -> taken::Result<Dac3> {
        take_declared::<Dac3, Dac3Shape>(alloc, NAMES, object)
    }
}

impl TryClone for Dac3 {
    fn try_clone(&self) -> Result<Dac3> {
        Ok(*self)
    }
}

/// The AC-3 specific box.
pub type Dac3Box = Declared<Dac3>;
