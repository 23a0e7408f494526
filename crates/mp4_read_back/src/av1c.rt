//! The configuration of AV1.

ghost use Rattle.std.proofs.Common.{refl};
ghost use Rattle.mp4_declared.specs.OwnBox.{no_context};
ghost use Rattle.mp4_read_back.specs.CombinedLaws.{part_back};
ghost use Rattle.mp4_read_back.specs.DelayLaws.{av1c_comes, bit_small};
ghost use Rattle.mp4_read_back.specs.Delays.{av1c_part};
ghost use Rattle.mp4_read_back.specs.declared.av1c.TheConstants.{AV1C};

use crate::ReadBack;
use mp4_declared::{Bits, EntryLayout, Last, Rest};
use mp4_extra_pictures::av1c::{Av1Config, Av1c};
use mp4_shown::{NamedBy, NamedShape, NumberName, names_of, number, run};

/// The names of the configuration if a delay is present.
const CONFIG: &[NumberName] = &[
    number!("marker"),
    number!("version"),
    number!("seq_profile"),
    number!("seq_level_idx_0"),
    number!("seq_tier_0"),
    number!("high_bitdepth"),
    number!("twelve_bit"),
    number!("monochrome"),
    number!("chroma_subsampling_x"),
    number!("chroma_subsampling_y"),
    number!("chroma_sample_position"),
    number!("reserved", Reserved(0)),
    number!("initial_presentation_delay_present"),
    number!("initial_presentation_delay_minus_one"),
];

/// The names of the configuration if no delay is present.
const CONFIG_WITHOUT_DELAY: &[NumberName] = &[
    number!("marker"),
    number!("version"),
    number!("seq_profile"),
    number!("seq_level_idx_0"),
    number!("seq_tier_0"),
    number!("high_bitdepth"),
    number!("twelve_bit"),
    number!("monochrome"),
    number!("chroma_subsampling_x"),
    number!("chroma_subsampling_y"),
    number!("chroma_sample_position"),
    number!("reserved", Reserved(0)),
    number!("initial_presentation_delay_present"),
    number!("reserved_without_delay", Reserved(0)),
];

/// The content of the box.
type Av1cShown = (NamedBy<Bits<Av1Config, 14, 4>>, Last<Rest>);

/// The names of the fields of an `av1C`.
const AV1C: &<Av1cShown as NamedShape>::Names = &names_of!(
    (CONFIG, CONFIG_WITHOUT_DELAY),
    run!("configOBUs", Bytes)
);

impl ReadBack for Av1c {
    ghost Fits = { λ b. (av1c_part ⟦<Av1Config as EntryLayout<14, 4>>⟧.layout).Fits no_context b };

    ghost normal = { λ b. b };

    ghost back = { λ b fits. part_back (av1c_part ⟦<Av1Config as EntryLayout<14, 4>>⟧.layout)
        (AV1C.now.0, AV1C.now.1.0) (av1c_comes ⟦<Av1Config as EntryLayout<14, 4>>⟧.layout (record {
          there = λ x. bit_small x.initial_presentation_delay_present;
          is = λ x. refl;
        })) refl b fits };
}
