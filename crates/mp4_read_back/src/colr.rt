//! The colour information box.

ghost use Rattle.std.proofs.Common.{refl};
ghost use Rattle.mp4_declared.specs.OwnBox.{no_context};
ghost use Rattle.mp4_read_back.specs.ColourLaws.{colour_comes};
ghost use Rattle.mp4_read_back.specs.Colours.{colour_part};
ghost use Rattle.mp4_read_back.specs.CombinedLaws.{part_back};
ghost use Rattle.mp4_read_back.specs.declared.colr.TheConstants.{COLR};

use crate::ReadBack;
use mp4_declared::EntryLayout;
use mp4_extra_pictures::colr::{
    COLOUR_PRIMARIES, Colr, MATRIX_COEFFICIENTS, Nclx, TRANSFER_CHARACTERISTICS,
};
use mp4_shown::{NumberName, number};

/// The names of the type, of numbers, of a profile, and of bytes of an unknown type.
type ColourNames = (
    &'static str,
    (&'static [NumberName], (&'static str, &'static str)),
);

/// The names of numbers.
const COLR_NUMBERS: &[NumberName] = &[
    number!("colour_primaries", Named, COLOUR_PRIMARIES),
    number!("transfer_characteristics", Named, TRANSFER_CHARACTERISTICS),
    number!("matrix_coefficients", Named, MATRIX_COEFFICIENTS),
    number!("full_range_flag"),
    number!("reserved", Reserved(0)),
];

/// The names of the fields of a `colr`.
const COLR: &ColourNames = &("colour_type", (COLR_NUMBERS, ("ICC_profile", "data_bytes")));

impl ReadBack for Colr {
    ghost Fits = { λ b. (colour_part ⟦<Nclx as EntryLayout<5, 7>>⟧.layout).Fits no_context b };

    ghost normal = { λ b. b };

    ghost back = { part_back (colour_part ⟦<Nclx as EntryLayout<5, 7>>⟧.layout) COLR.now
        (colour_comes ⟦<Nclx as EntryLayout<5, 7>>⟧.layout) refl };
}
