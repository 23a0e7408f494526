//! The progressive download information box.

ghost use Rattle.example_boxes.specs.declared.pdin.TheConstants.{PDIN, WIDTHS};
ghost use Rattle.mp4_stream.specs.Author.{layout_of, packed, fields_of, refl, lit<};

use mp4_declared::ToEnd;
use mp4_stream::declaring::*;

/// The code: `pdin`.
pub const PDIN: u32 = 0x7064_696e;

/// A download rate with the delay that suits it.
#[derive(Clone, Copy, Debug, Default, PartialEq, Eq)]
pub struct PdinEntry {
    /// The download rate, in bytes per second.
    pub rate: u32,
    /// The delay before playing starts, so that a download at this rate does not stall.
    pub initial_delay: u32,
}

/// The widths of the fields, in bits.
const WIDTHS: [u8; 2] = [32, 32];

impl EntryLayout<2, 8> for PdinEntry {
    ghost use Rattle.example_boxes.specs.contracts.pdin.PdinEntry.{struct};

    ghost layout = { packed (fields_of WIDTHS) struct.as_values (λ v. struct.make v tt) (λ _. refl) (λ _. refl) refl };

    fn widths() -> [u8; 2] {
        WIDTHS
    }

    fn numbers(&self) -> [u64; 2] {
        numbers_of!(self => rate, initial_delay)
    }

    fn from_numbers(n: &[u64; 2]) -> PdinEntry {
        entry_of!(n => PdinEntry { rate: u32, initial_delay: u32 })
    }

    ghost few = { lit< tt };
}

/// The delays for some download rates of a file (`pdin`, ISO/IEC 14496-12, 8.1.3).
#[derive(Debug, Drop, PartialEq, Eq)]
pub struct Pdin {
    /// 0.
    pub version: u8,
    /// 24 bits, 0 in the standard.
    pub flags: u32,
    /// The rates with their delays.
    pub entries: Entries<PdinEntry>,
}

impl DeclaredBox for Pdin {
    ghost use Rattle.example_boxes.specs.contracts.pdin.Pdin.{struct};

    type Shape = Full<1, Last<ToEnd<PdinEntry, 2, 8>>>;

    ghost CODE = { PDIN };

    ghost layout = { layout_of struct (λ _. tt) (λ _. refl) (lit< tt) };

    const CODE: u32 = PDIN;

    fn from_content(found: (u8, (u32, (Entries<PdinEntry>, ())))) -> Pdin {
        box_of!(found => Pdin { version, flags, entries })
    }

    fn visit<Q: ShapeVisitor<Self::Shape>>(&self, out: &mut [u8]) -> Q::Answer {
        Q::visit(parts_of!(self => version, flags, entries.as_slice()), out)
    }

    ghost valid = { refl };
}

/// The progressive download information box.
pub type PdinBox = Declared<Pdin>;
