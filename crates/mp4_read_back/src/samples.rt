//! Boxes that describe samples, fragments and segments.

ghost use Rattle.mp4_declared.specs.OwnBox.{no_context};
ghost use Rattle.mp4_read_back.specs.StructLaws.{struct_entry_comes};
ghost use Rattle.mp4_read_back.specs.Structs.{struct_entry};
ghost use Rattle.mp4_read_back.specs.Text.{declared_back};
ghost use Rattle.mp4_read_back.specs.declared.samples.TheConstants.{CSLG, LEVA, MFRO, PRFT, SAIO, SAIZ, SBGP, SDTP};
ghost use Rattle.mp4_read_back.specs.declared.samples.TheConstants.{SENC, SIDX, SSIX, SSIX_SUBSEGMENT, STYP, SUBS};
ghost use Rattle.mp4_read_back.specs.declared.samples.TheConstants.{SUBS_SAMPLE};
ghost use Rattle.std.proofs.Common.{refl};

use crate::{ComesBack, EntryComesBack, ReadBack, SameNumbers};
use mp4_declared::{DeclaredBox, DeclaredEntry, EntryLayout};
use mp4_extra_samples::cslg::{Cslg, CslgShape};
use mp4_extra_samples::leva::{Leva, LevaShape};
use mp4_extra_samples::mfro::{Mfro, MfroShape};
use mp4_extra_samples::prft::{Prft, PrftShape};
use mp4_extra_samples::saio::{Saio, SaioOffset, SaioShape};
use mp4_extra_samples::saiz::{Saiz, SaizShape};
use mp4_extra_samples::sbgp::{Sbgp, SbgpShape};
use mp4_extra_samples::sdtp::{Sdtp, SdtpShape};
use mp4_extra_samples::senc::{Senc, SencShape};
use mp4_extra_samples::sidx::{Sidx, SidxShape};
use mp4_extra_samples::ssix::{Ssix, SsixShape, SsixSubsegment, SsixSubsegmentShape};
use mp4_extra_samples::styp::{Styp, StypShape};
use mp4_extra_samples::subs::{Subs, SubsEntry, SubsEntryShape, SubsShape, Subsample};
use mp4_shown::{FLAGS, Meaning, NamedShape, NumberName, VERSION, list, names_of, number, run};

impl SameNumbers<1, 4, 8> for SaioOffset {
    ghost short = { ⟦<SaioOffset as EntryLayout<1, 4>>⟧.layout };

    ghost long = { ⟦<SaioOffset as EntryLayout<1, 8>>⟧.layout };

    ghost same = { λ x. refl };
}

impl SameNumbers<4, 8, 10> for Subsample {
    ghost short = { ⟦<Subsample as EntryLayout<4, 8>>⟧.layout };

    ghost long = { ⟦<Subsample as EntryLayout<4, 10>>⟧.layout };

    ghost same = { λ x. refl };
}

/// The names of the fields of a `cslg`.
const CSLG: &<CslgShape as NamedShape>::Names = &names_of!(
    VERSION,
    FLAGS,
    number!("compositionToDTSShift"),
    number!("leastDecodeToDisplayDelta"),
    number!("greatestDecodeToDisplayDelta"),
    number!("compositionStartTime"),
    number!("compositionEndTime")
);

impl ReadBack for Cslg {
    ghost Fits = { λ b. ⟦<CslgShape as ComesBack>⟧.part.Fits no_context (⟦<Cslg as DeclaredBox>⟧.layout.content b) };

    ghost normal = { λ b. ⟦<Cslg as DeclaredBox>⟧.layout.value (⟦<Cslg as DeclaredBox>⟧.layout.content b) };

    ghost back = { declared_back ⟦<Cslg as DeclaredBox>⟧.layout ⟦<CslgShape as ComesBack>⟧.part CSLG.now
        ⟦<CslgShape as ComesBack>⟧.comes refl };
}

/// The names of the fields of a `leva`.
const LEVA: &<LevaShape as NamedShape>::Names = &names_of!(
    VERSION,
    FLAGS,
    number!("level_count"),
    run!("data_bytes", SomeBytes)
);

impl ReadBack for Leva {
    ghost Fits = { λ b. ⟦<LevaShape as ComesBack>⟧.part.Fits no_context (⟦<Leva as DeclaredBox>⟧.layout.content b) };

    ghost normal = { λ b. ⟦<Leva as DeclaredBox>⟧.layout.value (⟦<Leva as DeclaredBox>⟧.layout.content b) };

    ghost back = { declared_back ⟦<Leva as DeclaredBox>⟧.layout ⟦<LevaShape as ComesBack>⟧.part LEVA.now
        ⟦<LevaShape as ComesBack>⟧.comes refl };
}

/// The names of the fields of a `mfro`.
const MFRO: &<MfroShape as NamedShape>::Names = &names_of!(VERSION, FLAGS, number!("parent_size"));

impl ReadBack for Mfro {
    ghost Fits = { λ b. ⟦<MfroShape as ComesBack>⟧.part.Fits no_context (⟦<Mfro as DeclaredBox>⟧.layout.content b) };

    ghost normal = { λ b. ⟦<Mfro as DeclaredBox>⟧.layout.value (⟦<Mfro as DeclaredBox>⟧.layout.content b) };

    ghost back = { declared_back ⟦<Mfro as DeclaredBox>⟧.layout ⟦<MfroShape as ComesBack>⟧.part MFRO.now
        ⟦<MfroShape as ComesBack>⟧.comes refl };
}

/// The names of the fields of a `prft`.
const PRFT: &<PrftShape as NamedShape>::Names = &names_of!(
    VERSION,
    FLAGS,
    number!("reference_track_ID"),
    number!("ntp_timestamp"),
    number!("media_time")
);

impl ReadBack for Prft {
    ghost Fits = { λ b. ⟦<PrftShape as ComesBack>⟧.part.Fits no_context (⟦<Prft as DeclaredBox>⟧.layout.content b) };

    ghost normal = { λ b. ⟦<Prft as DeclaredBox>⟧.layout.value (⟦<Prft as DeclaredBox>⟧.layout.content b) };

    ghost back = { declared_back ⟦<Prft as DeclaredBox>⟧.layout ⟦<PrftShape as ComesBack>⟧.part PRFT.now
        ⟦<PrftShape as ComesBack>⟧.comes refl };
}

/// The meanings of numbers.
const SAIO_AUXILIARY_FLAGS: &[Meaning] = &[(0x1, "aux_info_type")];

/// The names of a part of a `saio`.
const SAIO_OFFSET: &[NumberName] = &[number!("offset")];

/// The names of the fields of a `saio`.
const SAIO: &<SaioShape as NamedShape>::Names = &names_of!(
    VERSION,
    number!("flags", Flags(6), SAIO_AUXILIARY_FLAGS),
    "aux_info_type",
    number!("aux_info_type_parameter"),
    (list!("offset", Items), SAIO_OFFSET)
);

impl ReadBack for Saio {
    ghost Fits = { λ b. ⟦<SaioShape as ComesBack>⟧.part.Fits no_context (⟦<Saio as DeclaredBox>⟧.layout.content b) };

    ghost normal = { λ b. ⟦<Saio as DeclaredBox>⟧.layout.value (⟦<Saio as DeclaredBox>⟧.layout.content b) };

    ghost back = { declared_back ⟦<Saio as DeclaredBox>⟧.layout ⟦<SaioShape as ComesBack>⟧.part SAIO.now
        ⟦<SaioShape as ComesBack>⟧.comes refl };
}

/// The meanings of numbers.
const SAIZ_AUXILIARY_FLAGS: &[Meaning] = &[(0x1, "aux_info_type")];

/// The names of the fields of a `saiz`.
const SAIZ: &<SaizShape as NamedShape>::Names = &names_of!(
    VERSION,
    number!("flags", Flags(6), SAIZ_AUXILIARY_FLAGS),
    "aux_info_type",
    number!("aux_info_type_parameter"),
    number!("default_sample_info_size"),
    number!("sample_count"),
    run!("sample_info_size", Numbers)
);

impl ReadBack for Saiz {
    ghost Fits = { λ b. ⟦<SaizShape as ComesBack>⟧.part.Fits no_context (⟦<Saiz as DeclaredBox>⟧.layout.content b) };

    ghost normal = { λ b. ⟦<Saiz as DeclaredBox>⟧.layout.value (⟦<Saiz as DeclaredBox>⟧.layout.content b) };

    ghost back = { declared_back ⟦<Saiz as DeclaredBox>⟧.layout ⟦<SaizShape as ComesBack>⟧.part SAIZ.now
        ⟦<SaizShape as ComesBack>⟧.comes refl };
}

/// The names of a part of a `sbgp`.
const SBGP_RUN: &[NumberName] = &[number!("sample_count"), number!("group_description_index")];

/// The names of the fields of a `sbgp`.
const SBGP: &<SbgpShape as NamedShape>::Names = &names_of!(
    VERSION,
    FLAGS,
    "grouping_type",
    number!("grouping_type_parameter"),
    (list!("entries"), SBGP_RUN)
);

impl ReadBack for Sbgp {
    ghost Fits = { λ b. ⟦<SbgpShape as ComesBack>⟧.part.Fits no_context (⟦<Sbgp as DeclaredBox>⟧.layout.content b) };

    ghost normal = { λ b. ⟦<Sbgp as DeclaredBox>⟧.layout.value (⟦<Sbgp as DeclaredBox>⟧.layout.content b) };

    ghost back = { declared_back ⟦<Sbgp as DeclaredBox>⟧.layout ⟦<SbgpShape as ComesBack>⟧.part SBGP.now
        ⟦<SbgpShape as ComesBack>⟧.comes refl };
}

/// The names of a part of a `sdtp`.
const SDTP_SAMPLE: &[NumberName] = &[
    number!("is_leading"),
    number!("sample_depends_on"),
    number!("sample_is_depended_on"),
    number!("sample_has_redundancy"),
];

/// The names of the fields of a `sdtp`.
const SDTP: &<SdtpShape as NamedShape>::Names = &names_of!(
    VERSION,
    FLAGS,
    (list!("entries"), SDTP_SAMPLE)
);

impl ReadBack for Sdtp {
    ghost Fits = { λ b. ⟦<SdtpShape as ComesBack>⟧.part.Fits no_context (⟦<Sdtp as DeclaredBox>⟧.layout.content b) };

    ghost normal = { λ b. ⟦<Sdtp as DeclaredBox>⟧.layout.value (⟦<Sdtp as DeclaredBox>⟧.layout.content b) };

    ghost back = { declared_back ⟦<Sdtp as DeclaredBox>⟧.layout ⟦<SdtpShape as ComesBack>⟧.part SDTP.now
        ⟦<SdtpShape as ComesBack>⟧.comes refl };
}

/// The meanings of numbers.
const SENC_ENCRYPTION_FLAGS: &[Meaning] = &[(0x2, "UseSubSampleEncryption")];

/// The names of the fields of a `senc`.
const SENC: &<SencShape as NamedShape>::Names = &names_of!(
    VERSION,
    number!("flags", Flags(6), SENC_ENCRYPTION_FLAGS),
    number!("sample_count"),
    run!("data_bytes", Bytes)
);

impl ReadBack for Senc {
    ghost Fits = { λ b. ⟦<SencShape as ComesBack>⟧.part.Fits no_context (⟦<Senc as DeclaredBox>⟧.layout.content b) };

    ghost normal = { λ b. ⟦<Senc as DeclaredBox>⟧.layout.value (⟦<Senc as DeclaredBox>⟧.layout.content b) };

    ghost back = { declared_back ⟦<Senc as DeclaredBox>⟧.layout ⟦<SencShape as ComesBack>⟧.part SENC.now
        ⟦<SencShape as ComesBack>⟧.comes refl };
}

/// The names of a part of a `sidx`.
const SIDX_REFERENCE: &[NumberName] = &[
    number!("reference_type"),
    number!("referenced_size"),
    number!("subsegment_duration"),
    number!("starts_with_SAP"),
    number!("SAP_type"),
    number!("SAP_delta_time"),
];

/// The names of the fields of a `sidx`.
const SIDX: &<SidxShape as NamedShape>::Names = &names_of!(
    VERSION,
    FLAGS,
    number!("reference_ID"),
    number!("timescale"),
    number!("earliest_presentation_time"),
    number!("first_offset"),
    (list!("references"), SIDX_REFERENCE)
);

impl ReadBack for Sidx {
    ghost Fits = { λ b. ⟦<SidxShape as ComesBack>⟧.part.Fits no_context (⟦<Sidx as DeclaredBox>⟧.layout.content b) };

    ghost normal = { λ b. ⟦<Sidx as DeclaredBox>⟧.layout.value (⟦<Sidx as DeclaredBox>⟧.layout.content b) };

    ghost back = { declared_back ⟦<Sidx as DeclaredBox>⟧.layout ⟦<SidxShape as ComesBack>⟧.part SIDX.now
        ⟦<SidxShape as ComesBack>⟧.comes refl };
}

/// The names of a part of a `ssix`.
const SSIX_RANGE: &[NumberName] = &[number!("level"), number!("range_size")];

/// The names of a part of a `ssix`.
const SSIX_SUBSEGMENT: &<SsixSubsegmentShape as NamedShape>::Names = &names_of!((
    list!("ranges", Counted, "range_count"),
    SSIX_RANGE
));

/// The names of the fields of a `ssix`.
const SSIX: &<SsixShape as NamedShape>::Names = &names_of!(
    VERSION,
    FLAGS,
    list!("subsegments", Counted, "subsegment_count")
);

impl EntryComesBack for SsixSubsegment {
    ghost part = { struct_entry ⟦<SsixSubsegment as DeclaredEntry>⟧.layout ⟦<SsixSubsegmentShape as ComesBack>⟧.part
        SSIX_SUBSEGMENT.now };

    ghost comes = { struct_entry_comes ⟦<SsixSubsegment as DeclaredEntry>⟧.layout
        ⟦<SsixSubsegmentShape as ComesBack>⟧.part SSIX_SUBSEGMENT.now ⟦<SsixSubsegmentShape as ComesBack>⟧.comes };
}

impl ReadBack for Ssix {
    ghost Fits = { λ b. ⟦<SsixShape as ComesBack>⟧.part.Fits no_context (⟦<Ssix as DeclaredBox>⟧.layout.content b) };

    ghost normal = { λ b. ⟦<Ssix as DeclaredBox>⟧.layout.value (⟦<Ssix as DeclaredBox>⟧.layout.content b) };

    ghost back = { declared_back ⟦<Ssix as DeclaredBox>⟧.layout ⟦<SsixShape as ComesBack>⟧.part SSIX.now
        ⟦<SsixShape as ComesBack>⟧.comes refl };
}

/// The names of the fields of a `styp`.
const STYP: &<StypShape as NamedShape>::Names = &names_of!(
    "major_brand",
    number!("minor_version"),
    "compatible_brands"
);

impl ReadBack for Styp {
    ghost Fits = { λ b. ⟦<StypShape as ComesBack>⟧.part.Fits no_context (⟦<Styp as DeclaredBox>⟧.layout.content b) };

    ghost normal = { λ b. ⟦<Styp as DeclaredBox>⟧.layout.value (⟦<Styp as DeclaredBox>⟧.layout.content b) };

    ghost back = { declared_back ⟦<Styp as DeclaredBox>⟧.layout ⟦<StypShape as ComesBack>⟧.part STYP.now
        ⟦<StypShape as ComesBack>⟧.comes refl };
}

/// The names of a part of a `subs`.
const SUBS_PART: &[NumberName] = &[
    number!("subsample_size"),
    number!("subsample_priority"),
    number!("discardable"),
    number!("codec_specific_parameters"),
];

/// The names of a part of a `subs`.
const SUBS_SAMPLE: &<SubsEntryShape as NamedShape>::Names = &names_of!(
    number!("sample_delta"),
    (list!("subsamples"), SUBS_PART)
);

/// The names of the fields of a `subs`.
const SUBS: &<SubsShape as NamedShape>::Names = &names_of!(
    VERSION,
    FLAGS,
    list!("entries", Counted, "entry_count")
);

impl EntryComesBack for SubsEntry {
    ghost part = { struct_entry ⟦<SubsEntry as DeclaredEntry>⟧.layout ⟦<SubsEntryShape as ComesBack>⟧.part
        SUBS_SAMPLE.now };

    ghost comes = { struct_entry_comes ⟦<SubsEntry as DeclaredEntry>⟧.layout
        ⟦<SubsEntryShape as ComesBack>⟧.part SUBS_SAMPLE.now ⟦<SubsEntryShape as ComesBack>⟧.comes };
}

impl ReadBack for Subs {
    ghost Fits = { λ b. ⟦<SubsShape as ComesBack>⟧.part.Fits no_context (⟦<Subs as DeclaredBox>⟧.layout.content b) };

    ghost normal = { λ b. ⟦<Subs as DeclaredBox>⟧.layout.value (⟦<Subs as DeclaredBox>⟧.layout.content b) };

    ghost back = { declared_back ⟦<Subs as DeclaredBox>⟧.layout ⟦<SubsShape as ComesBack>⟧.part SUBS.now
        ⟦<SubsShape as ComesBack>⟧.comes refl };
}
