//! The Opus specific box.

ghost use Rattle.std.proofs.Common.{refl};
ghost use Rattle.std.specs.Prelude.{ℕ, List};
ghost use Rattle.mp4_declared.specs.OwnBox.{no_context};
ghost use Rattle.mp4_extra_sound.specs.ShownMapping.{MappingNames};
ghost use Rattle.mp4_read_back.specs.MappingLaws.{mapping_comes};
ghost use Rattle.mp4_read_back.specs.Mappings.{mapping_part};
ghost use Rattle.mp4_read_back.specs.Text.{declared_back};
ghost use Rattle.mp4_read_back.specs.declared.dops.TheConstants.{DOPS};

use crate::{ComesBack, ReadBack};
use mp4_declared::{DeclaredBox, I16, Last, U8, U16, U32};
use mp4_extra_sound::dops::{ChannelMapping, Dops};
use mp4_shown::{NamedShape, names_of, number, run};

impl ComesBack for ChannelMapping {
    ghost Names = { MappingNames };

    ghost Value = { List ℕ };

    ghost part = { mapping_part };

    ghost comes = { mapping_comes };
}

/// The content of the box.
type DopsShown = (U8, U8, U16, U32, (I16, U8, Last<ChannelMapping>));

/// The names of the fields of a `dOps`.
const DOPS: &<DopsShown as NamedShape>::Names = &names_of!(
    number!("Version"),
    number!("OutputChannelCount"),
    number!("PreSkip"),
    number!("InputSampleRate"),
    number!("OutputGain", Fixed(8)),
    number!("ChannelMappingFamily"),
    (
        number!("StreamCount"),
        (
            number!("CoupledCount"),
            (run!("ChannelMapping", Bytes), run!("data_bytes", SomeBytes))
        )
    )
);

impl ReadBack for Dops {
    ghost Fits = { λ b. ⟦<DopsShown as ComesBack>⟧.part.Fits no_context (⟦<Dops as DeclaredBox>⟧.layout.content b) };

    ghost normal = { λ b. ⟦<Dops as DeclaredBox>⟧.layout.value (⟦<Dops as DeclaredBox>⟧.layout.content b) };

    ghost back = { declared_back ⟦<Dops as DeclaredBox>⟧.layout ⟦<DopsShown as ComesBack>⟧.part DOPS.now
        ⟦<DopsShown as ComesBack>⟧.comes refl };
}
