//! Boxes of sound, text and hints, and the headers of their media.

ghost use Rattle.mp4_declared.specs.OwnBox.{no_context};
ghost use Rattle.mp4_read_back.specs.StructLaws.{struct_entry_comes};
ghost use Rattle.mp4_read_back.specs.Structs.{struct_entry};
ghost use Rattle.mp4_read_back.specs.ShownBy.{shown_by_back};
ghost use Rattle.mp4_read_back.specs.Text.{declared_back};
ghost use Rattle.mp4_read_back.specs.declared.sound.TheConstants.{ALAC, CHAN, CHNL, DAC3, ENDA, FTAB, FTAB_FONT, GMIN};
ghost use Rattle.mp4_read_back.specs.declared.sound.TheConstants.{HMHD, NMHD, SRAT, STHD, STPP, TCMI, TEXT, WVTT};
ghost use Rattle.std.proofs.Common.{refl};

use crate::exclusive::VersionThen;
use crate::{ComesBack, EntryComesBack, ReadBack};
use mp4_declared::{Bits, DeclaredBox, DeclaredEntry, Full, Last, Rest, U8};
use mp4_extra_sound::alac::{Alac, AlacShape};
use mp4_extra_sound::chan::{Chan, ChanShape};
use mp4_extra_sound::chnl::{ChannelStructure, Chnl, ChnlShape};
use mp4_extra_sound::dac3::{Dac3, Dac3Shape};
use mp4_extra_sound::enda::{Enda, EndaShape};
use mp4_extra_sound::ftab::{FontRecord, FontRecordShape, Ftab, FtabShape};
use mp4_extra_sound::gmin::{Gmin, GminShape};
use mp4_extra_sound::hmhd::{Hmhd, HmhdShape};
use mp4_extra_sound::nmhd::{Nmhd, NmhdShape};
use mp4_extra_sound::srat::{Srat, SratShape};
use mp4_extra_sound::sthd::{Sthd, SthdShape};
use mp4_extra_sound::stpp::{Stpp, StppShape};
use mp4_extra_sound::tcmi::{Tcmi, TcmiShape};
use mp4_extra_sound::text::{Text, TextShape};
use mp4_extra_sound::wvtt::{Wvtt, WvttShape};
use mp4_shown::taken::TakeFields;
use mp4_shown::{FLAGS, Meaning, NamedShape, NumberName, VERSION, list, names_of, number, run};

/// The names of a part of a `alac`.
const ALAC_CONFIG: &[NumberName] = &[
    number!("frameLength"),
    number!("compatibleVersion"),
    number!("bitDepth"),
    number!("pb"),
    number!("mb"),
    number!("kb"),
    number!("numChannels"),
    number!("maxRun"),
    number!("maxFrameBytes"),
    number!("avgBitRate"),
    number!("sampleRate"),
];

/// The names of the fields of a `alac`.
const ALAC: &<AlacShape as NamedShape>::Names = &names_of!(
    VERSION,
    FLAGS,
    ALAC_CONFIG,
    run!("ALACChannelLayoutInfo", SomeBytes)
);

impl ReadBack for Alac {
    ghost Fits = { λ b. ⟦<AlacShape as ComesBack>⟧.part.Fits no_context (⟦<Alac as DeclaredBox>⟧.layout.content b) };

    ghost normal = { λ b. ⟦<Alac as DeclaredBox>⟧.layout.value (⟦<Alac as DeclaredBox>⟧.layout.content b) };

    ghost back = { declared_back ⟦<Alac as DeclaredBox>⟧.layout ⟦<AlacShape as ComesBack>⟧.part ALAC.now
        ⟦<AlacShape as ComesBack>⟧.comes refl };
}

/// The meanings of numbers.
const CHAN_LABELS: &[Meaning] = &[
    (0, "unused"),
    (1, "left"),
    (2, "right"),
    (3, "centre"),
    (4, "LFE"),
    (5, "left surround"),
    (6, "right surround"),
    (7, "left centre"),
    (8, "right centre"),
    (9, "centre surround"),
    (10, "left surround direct"),
    (11, "right surround direct"),
    (12, "top centre surround"),
    (13, "vertical height left"),
    (14, "vertical height centre"),
    (15, "vertical height right"),
    (16, "top back left"),
    (17, "top back centre"),
    (18, "top back right"),
    (33, "rear surround left"),
    (34, "rear surround right"),
    (42, "mono"),
    (100, "by coordinates"),
    (0xFFFF_FFFF, "unknown"),
];

/// The meanings of numbers.
const CHAN_COORDINATES: &[Meaning] = &[(0x1, "rectangular"), (0x2, "spherical"), (0x4, "metres")];

/// The meanings of numbers.
const CHAN_LAYOUTS: &[Meaning] = &[
    (0x0, "channel descriptions"),
    (0x1_0000, "channel bitmap"),
    (0x64_0001, "mono"),
    (0x65_0002, "stereo"),
    (0x66_0002, "stereo headphones"),
    (0x67_0002, "matrix stereo"),
    (0x68_0002, "mid-side"),
    (0x69_0002, "XY"),
    (0x6a_0002, "binaural"),
    (0x6b_0004, "Ambisonic B-format"),
    (0x6c_0004, "quadraphonic"),
    (0x71_0003, "L R C"),
    (0x72_0003, "C L R"),
    (0x73_0004, "L R C Cs"),
    (0x74_0004, "C L R Cs"),
    (0x75_0005, "L R C Ls Rs"),
    (0x76_0005, "L R Ls Rs C"),
    (0x77_0005, "L C R Ls Rs"),
    (0x78_0005, "C L R Ls Rs"),
    (0x79_0006, "L R C LFE Ls Rs"),
    (0x7a_0006, "L R Ls Rs C LFE"),
    (0x7b_0006, "L C R Ls Rs LFE"),
    (0x7c_0006, "C L R Ls Rs LFE"),
    (0x7d_0007, "L R C LFE Ls Rs Cs"),
    (0x7e_0008, "L R C LFE Ls Rs Lc Rc"),
    (0x7f_0008, "C Lc Rc L R Ls Rs LFE"),
    (0x80_0008, "L R C LFE Ls Rs Rls Rrs"),
];

/// The meanings of numbers.
const CHAN_CHANNELS: &[Meaning] = &[
    (0x1, "left"),
    (0x2, "right"),
    (0x4, "centre"),
    (0x8, "LFE"),
    (0x10, "left surround"),
    (0x20, "right surround"),
    (0x40, "left centre"),
    (0x80, "right centre"),
    (0x100, "centre surround"),
    (0x200, "left surround direct"),
    (0x400, "right surround direct"),
    (0x800, "top centre surround"),
    (0x1000, "vertical height left"),
    (0x2000, "vertical height centre"),
    (0x4000, "vertical height right"),
    (0x8000, "top back left"),
    (0x1_0000, "top back centre"),
    (0x2_0000, "top back right"),
];

/// The names of a part of a `chan`.
const CHAN_CHANNEL: &[NumberName] = &[
    number!("mChannelLabel", Named, CHAN_LABELS),
    number!("mChannelFlags", Flags(8), CHAN_COORDINATES),
    number!("mCoordinates_0", Hex(4)),
    number!("mCoordinates_1", Hex(4)),
    number!("mCoordinates_2", Hex(4)),
];

/// The names of the fields of a `chan`.
const CHAN: &<ChanShape as NamedShape>::Names = &names_of!(
    VERSION,
    FLAGS,
    number!("mChannelLayoutTag", Named, CHAN_LAYOUTS),
    number!("mChannelBitmap", Flags(8), CHAN_CHANNELS),
    (
        list!(
            "mChannelDescriptions",
            Counted,
            "mNumberChannelDescriptions"
        ),
        CHAN_CHANNEL
    )
);

impl ReadBack for Chan {
    ghost Fits = { λ b. ⟦<ChanShape as ComesBack>⟧.part.Fits no_context (⟦<Chan as DeclaredBox>⟧.layout.content b) };

    ghost normal = { λ b. ⟦<Chan as DeclaredBox>⟧.layout.value (⟦<Chan as DeclaredBox>⟧.layout.content b) };

    ghost back = { λ b fits. shown_by_back ⟦<ChanShape as NamedShape>⟧.shown CHAN.now
        (⟦<Chan as DeclaredBox>⟧.layout.content b) ⟦<Chan as TakeFields>⟧.taken
        (⟦<Chan as DeclaredBox>⟧.layout.value (⟦<Chan as DeclaredBox>⟧.layout.content b))
        (declared_back ⟦<Chan as DeclaredBox>⟧.layout ⟦<ChanShape as ComesBack>⟧.part CHAN.now
        ⟦<ChanShape as ComesBack>⟧.comes refl b fits) };
}

/// The meanings of numbers.
const CHNL_STRUCTURES: &[Meaning] = &[(1, "channels"), (2, "objects"), (3, "channels and objects")];

/// The names of a part of a `chnl`.
const CHNL_STRUCTURE: &[NumberName] = &[
    number!("stream_structure", Named, CHNL_STRUCTURES),
    number!("format_ordering"),
    number!("baseChannelCount"),
];

/// The names of the fields of a `chnl`.
const CHNL: &<ChnlShape as NamedShape>::Names = &names_of!(
    VERSION,
    FLAGS,
    number!("stream_structure", Named, CHNL_STRUCTURES),
    CHNL_STRUCTURE,
    run!("data_bytes", SomeBytes)
);

/// The shape of Chnl for its law.
type ChnlLaw = Full<2, VersionThen<U8, Bits<ChannelStructure, 3, 2>, Last<Rest>>>;

impl ReadBack for Chnl {
    ghost Fits = { λ b. ⟦<ChnlLaw as ComesBack>⟧.part.Fits no_context (⟦<Chnl as DeclaredBox>⟧.layout.content b) };

    ghost normal = { λ b. ⟦<Chnl as DeclaredBox>⟧.layout.value (⟦<Chnl as DeclaredBox>⟧.layout.content b) };

    ghost back = { declared_back ⟦<Chnl as DeclaredBox>⟧.layout ⟦<ChnlLaw as ComesBack>⟧.part CHNL.now
        ⟦<ChnlLaw as ComesBack>⟧.comes refl };
}

/// The names of a part of a `dac3`.
const DAC3_CONFIG: &[NumberName] = &[
    number!("fscod"),
    number!("bsid"),
    number!("bsmod"),
    number!("acmod"),
    number!("lfeon"),
    number!("bit_rate_code"),
    number!("reserved", Reserved(0)),
];

/// The names of the fields of a `dac3`.
const DAC3: &<Dac3Shape as NamedShape>::Names = &names_of!(DAC3_CONFIG);

impl ReadBack for Dac3 {
    ghost Fits = { λ b. ⟦<Dac3Shape as ComesBack>⟧.part.Fits no_context (⟦<Dac3 as DeclaredBox>⟧.layout.content b) };

    ghost normal = { λ b. ⟦<Dac3 as DeclaredBox>⟧.layout.value (⟦<Dac3 as DeclaredBox>⟧.layout.content b) };

    ghost back = { declared_back ⟦<Dac3 as DeclaredBox>⟧.layout ⟦<Dac3Shape as ComesBack>⟧.part DAC3.now
        ⟦<Dac3Shape as ComesBack>⟧.comes refl };
}

/// The meanings of numbers.
const ENDA_ENDIANNESS: &[Meaning] = &[(0, "big-endian"), (1, "little-endian")];

/// The names of the fields of a `enda`.
const ENDA: &<EndaShape as NamedShape>::Names = &names_of!(number!(
    "littleEndian",
    Named,
    ENDA_ENDIANNESS
));

impl ReadBack for Enda {
    ghost Fits = { λ b. ⟦<EndaShape as ComesBack>⟧.part.Fits no_context (⟦<Enda as DeclaredBox>⟧.layout.content b) };

    ghost normal = { λ b. ⟦<Enda as DeclaredBox>⟧.layout.value (⟦<Enda as DeclaredBox>⟧.layout.content b) };

    ghost back = { declared_back ⟦<Enda as DeclaredBox>⟧.layout ⟦<EndaShape as ComesBack>⟧.part ENDA.now
        ⟦<EndaShape as ComesBack>⟧.comes refl };
}

/// The names of a part of a `ftab`.
const FTAB_FONT: &<FontRecordShape as NamedShape>::Names = &names_of!(
    number!("font-ID"),
    run!("font", Text)
);

/// The names of the fields of a `ftab`.
const FTAB: &<FtabShape as NamedShape>::Names = &names_of!(list!(
    "font-entry",
    Counted,
    "entry-count"
));

impl EntryComesBack for FontRecord {
    ghost part = { struct_entry ⟦<FontRecord as DeclaredEntry>⟧.layout ⟦<FontRecordShape as ComesBack>⟧.part
        FTAB_FONT.now };

    ghost comes = { struct_entry_comes ⟦<FontRecord as DeclaredEntry>⟧.layout ⟦<FontRecordShape as ComesBack>⟧.part
        FTAB_FONT.now ⟦<FontRecordShape as ComesBack>⟧.comes };
}

impl ReadBack for Ftab {
    ghost Fits = { λ b. ⟦<FtabShape as ComesBack>⟧.part.Fits no_context (⟦<Ftab as DeclaredBox>⟧.layout.content b) };

    ghost normal = { λ b. ⟦<Ftab as DeclaredBox>⟧.layout.value (⟦<Ftab as DeclaredBox>⟧.layout.content b) };

    ghost back = { declared_back ⟦<Ftab as DeclaredBox>⟧.layout ⟦<FtabShape as ComesBack>⟧.part FTAB.now
        ⟦<FtabShape as ComesBack>⟧.comes refl };
}

/// The names of a part of a `gmin`.
const GMIN_GRAPHICS: &[NumberName] = &[
    number!("graphicsmode"),
    number!("opcolor_red"),
    number!("opcolor_green"),
    number!("opcolor_blue"),
];

/// The names of the fields of a `gmin`.
const GMIN: &<GminShape as NamedShape>::Names = &names_of!(
    VERSION,
    FLAGS,
    GMIN_GRAPHICS,
    number!("balance", Fixed(8))
);

impl ReadBack for Gmin {
    ghost Fits = { λ b. ⟦<GminShape as ComesBack>⟧.part.Fits no_context (⟦<Gmin as DeclaredBox>⟧.layout.content b) };

    ghost normal = { λ b. ⟦<Gmin as DeclaredBox>⟧.layout.value (⟦<Gmin as DeclaredBox>⟧.layout.content b) };

    ghost back = { declared_back ⟦<Gmin as DeclaredBox>⟧.layout ⟦<GminShape as ComesBack>⟧.part GMIN.now
        ⟦<GminShape as ComesBack>⟧.comes refl };
}

/// The names of the fields of a `hmhd`.
const HMHD: &<HmhdShape as NamedShape>::Names = &names_of!(
    VERSION,
    FLAGS,
    number!("maxPDUsize"),
    number!("avgPDUsize"),
    number!("maxbitrate"),
    number!("avgbitrate")
);

impl ReadBack for Hmhd {
    ghost Fits = { λ b. ⟦<HmhdShape as ComesBack>⟧.part.Fits no_context (⟦<Hmhd as DeclaredBox>⟧.layout.content b) };

    ghost normal = { λ b. ⟦<Hmhd as DeclaredBox>⟧.layout.value (⟦<Hmhd as DeclaredBox>⟧.layout.content b) };

    ghost back = { declared_back ⟦<Hmhd as DeclaredBox>⟧.layout ⟦<HmhdShape as ComesBack>⟧.part HMHD.now
        ⟦<HmhdShape as ComesBack>⟧.comes refl };
}

/// The names of the fields of a `nmhd`.
const NMHD: &<NmhdShape as NamedShape>::Names = &names_of!(VERSION, FLAGS);

impl ReadBack for Nmhd {
    ghost Fits = { λ b. ⟦<NmhdShape as ComesBack>⟧.part.Fits no_context (⟦<Nmhd as DeclaredBox>⟧.layout.content b) };

    ghost normal = { λ b. ⟦<Nmhd as DeclaredBox>⟧.layout.value (⟦<Nmhd as DeclaredBox>⟧.layout.content b) };

    ghost back = { declared_back ⟦<Nmhd as DeclaredBox>⟧.layout ⟦<NmhdShape as ComesBack>⟧.part NMHD.now
        ⟦<NmhdShape as ComesBack>⟧.comes refl };
}

/// The names of the fields of a `srat`.
const SRAT: &<SratShape as NamedShape>::Names = &names_of!(
    VERSION,
    FLAGS,
    number!("sampling_rate")
);

impl ReadBack for Srat {
    ghost Fits = { λ b. ⟦<SratShape as ComesBack>⟧.part.Fits no_context (⟦<Srat as DeclaredBox>⟧.layout.content b) };

    ghost normal = { λ b. ⟦<Srat as DeclaredBox>⟧.layout.value (⟦<Srat as DeclaredBox>⟧.layout.content b) };

    ghost back = { declared_back ⟦<Srat as DeclaredBox>⟧.layout ⟦<SratShape as ComesBack>⟧.part SRAT.now
        ⟦<SratShape as ComesBack>⟧.comes refl };
}

/// The names of the fields of a `sthd`.
const STHD: &<SthdShape as NamedShape>::Names = &names_of!(VERSION, FLAGS);

impl ReadBack for Sthd {
    ghost Fits = { λ b. ⟦<SthdShape as ComesBack>⟧.part.Fits no_context (⟦<Sthd as DeclaredBox>⟧.layout.content b) };

    ghost normal = { λ b. ⟦<Sthd as DeclaredBox>⟧.layout.value (⟦<Sthd as DeclaredBox>⟧.layout.content b) };

    ghost back = { declared_back ⟦<Sthd as DeclaredBox>⟧.layout ⟦<SthdShape as ComesBack>⟧.part STHD.now
        ⟦<SthdShape as ComesBack>⟧.comes refl };
}

/// The names of the fields of a `stpp`.
const STPP: &<StppShape as NamedShape>::Names = &names_of!(
    number!("data_reference_index"),
    run!("namespace", Text),
    run!("schema_location", Text),
    run!("auxiliary_mime_types", Text),
    run!("data_bytes", SomeBytes)
);

impl ReadBack for Stpp {
    ghost Fits = { λ b. ⟦<StppShape as ComesBack>⟧.part.Fits no_context (⟦<Stpp as DeclaredBox>⟧.layout.content b) };

    ghost normal = { λ b. ⟦<Stpp as DeclaredBox>⟧.layout.value (⟦<Stpp as DeclaredBox>⟧.layout.content b) };

    ghost back = { declared_back ⟦<Stpp as DeclaredBox>⟧.layout ⟦<StppShape as ComesBack>⟧.part STPP.now
        ⟦<StppShape as ComesBack>⟧.comes refl };
}

/// The names of the fields of a `tcmi`.
const TCMI: &<TcmiShape as NamedShape>::Names = &names_of!(
    VERSION,
    FLAGS,
    number!("text_font"),
    number!("text_face"),
    number!("text_size"),
    run!("data_bytes", SomeBytes)
);

impl ReadBack for Tcmi {
    ghost Fits = { λ b. ⟦<TcmiShape as ComesBack>⟧.part.Fits no_context (⟦<Tcmi as DeclaredBox>⟧.layout.content b) };

    ghost normal = { λ b. ⟦<Tcmi as DeclaredBox>⟧.layout.value (⟦<Tcmi as DeclaredBox>⟧.layout.content b) };

    ghost back = { declared_back ⟦<Tcmi as DeclaredBox>⟧.layout ⟦<TcmiShape as ComesBack>⟧.part TCMI.now
        ⟦<TcmiShape as ComesBack>⟧.comes refl };
}

/// The names of the fields of a `text`.
const TEXT: &<TextShape as NamedShape>::Names = &names_of!(
    names_of!(
        number!("a", Fixed(16)),
        number!("b", Fixed(16)),
        number!("u", Fixed(30))
    ),
    names_of!(
        number!("c", Fixed(16)),
        number!("d", Fixed(16)),
        number!("v", Fixed(30))
    ),
    names_of!(
        number!("x", Fixed(16)),
        number!("y", Fixed(16)),
        number!("w", Fixed(30))
    )
);

impl ReadBack for Text {
    ghost Fits = { λ b. ⟦<TextShape as ComesBack>⟧.part.Fits no_context (⟦<Text as DeclaredBox>⟧.layout.content b) };

    ghost normal = { λ b. ⟦<Text as DeclaredBox>⟧.layout.value (⟦<Text as DeclaredBox>⟧.layout.content b) };

    ghost back = { declared_back ⟦<Text as DeclaredBox>⟧.layout ⟦<TextShape as ComesBack>⟧.part TEXT.now
        ⟦<TextShape as ComesBack>⟧.comes refl };
}

/// The names of the fields of a `wvtt`.
const WVTT: &<WvttShape as NamedShape>::Names = &names_of!(
    number!("data_reference_index"),
    run!("data_bytes", SomeBytes)
);

impl ReadBack for Wvtt {
    ghost Fits = { λ b. ⟦<WvttShape as ComesBack>⟧.part.Fits no_context (⟦<Wvtt as DeclaredBox>⟧.layout.content b) };

    ghost normal = { λ b. ⟦<Wvtt as DeclaredBox>⟧.layout.value (⟦<Wvtt as DeclaredBox>⟧.layout.content b) };

    ghost back = { declared_back ⟦<Wvtt as DeclaredBox>⟧.layout ⟦<WvttShape as ComesBack>⟧.part WVTT.now
        ⟦<WvttShape as ComesBack>⟧.comes refl };
}
