//! The data entry URN box.

ghost use Rattle.std.proofs.Common.{refl};
ghost use Rattle.mp4_declared.specs.OwnBox.{no_context};
ghost use Rattle.mp4_read_back.specs.CombinedLaws.{part_back};
ghost use Rattle.mp4_read_back.specs.UrnLaws.{urn_comes};
ghost use Rattle.mp4_read_back.specs.Urns.{urn_part};
ghost use Rattle.mp4_read_back.specs.declared.urn.TheConstants.{URN};

use crate::ReadBack;
use mp4_declared::{Full, Rest, Terminated};
use mp4_extra_tracks::urn::Urn;
use mp4_shown::{Meaning, NamedBy, NamedShape, VERSION, number, run};

/// The content of the box.
type UrnShown = Full<1, (Terminated, NamedBy<Rest>)>;

/// The meanings of the flags.
const URN_REFERENCE: &[Meaning] = &[(0x1, "same_file")];

/// The names of the fields of a `urn `.
const URN: &<UrnShown as NamedShape>::Names = &(
    VERSION,
    (
        number!("flags", Flags(6), URN_REFERENCE),
        (
            run!("name", Text),
            (run!("location", Ended), run!("location", SomeBytes)),
        ),
    ),
);

impl ReadBack for Urn {
    ghost Fits = { λ b. urn_part.Fits no_context b };

    ghost normal = { λ b. b };

    ghost back = { part_back urn_part URN.now urn_comes refl };
}
