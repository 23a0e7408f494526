//! The item information entry.

ghost use Rattle.std.proofs.Common.{refl};
ghost use Rattle.mp4_declared.specs.OwnBox.{no_context};
ghost use Rattle.mp4_read_back.specs.CombinedLaws.{part_back};
ghost use Rattle.mp4_read_back.specs.InfoLaws.{info_comes};
ghost use Rattle.mp4_read_back.specs.Infos.{info_part};
ghost use Rattle.mp4_read_back.specs.declared.infe.TheConstants.{INFE};

use crate::ReadBack;
use mp4_declared::{Code, FromVersion, Full, If, Last, Terminated, U16};
use mp4_extra_tracks::infe::Infe;
use mp4_extra_tracks::item_id::ItemId;
use mp4_shown::{BytesName, Meaning, NamedShape, VERSION, names_of, number, run};

/// The fields up to the name of the item.
type InfeFront = Full<4, (ItemId<3>, U16, If<FromVersion<2>, Code>, Last<Terminated>)>;

/// The names of those fields, and of a media type, of the type of a URI, and of other bytes.
type InfeNames = (
    <InfeFront as NamedShape>::Names,
    (BytesName, (BytesName, BytesName)),
);

/// The meanings of the flags.
const INFE_FLAGS: &[Meaning] = &[(0x1, "hidden")];

/// The names of the fields of an `infe`.
const INFE: &InfeNames = &(
    names_of!(
        VERSION,
        number!("flags", Flags(6), INFE_FLAGS),
        number!("item_ID"),
        number!("item_protection_index"),
        "item_type",
        run!("item_name", Text)
    ),
    (
        run!("content_type", Ended),
        (run!("item_uri_type", Ended), run!("data_bytes", SomeBytes)),
    ),
);

impl ReadBack for Infe {
    ghost Fits = { λ b. info_part.Fits no_context b };

    ghost normal = { λ b. b };

    ghost back = { part_back info_part INFE.now info_comes refl };
}
