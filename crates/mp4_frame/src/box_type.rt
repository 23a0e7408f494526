//! The names of boxes.

ghost use Rattle.std.specs.Prelude.{◌≡◌, Some, false, encode_utf8_all};
ghost use Rattle.bstr.specs.Utf8.{lossy_chars};
ghost use Rattle.mp4_frame.specs.Bytes.{be_bytes};
ghost use Rattle.mp4_frame.specs.BoxType.{code_of, name_of, is_disguised};

use crate::codes;
use crate::four_cc::FourCC;
use std::fmt;

/// The name of a box: a variant for each named code, and `UnknownBox` with the number of any other code.
#[derive(Clone, Copy, PartialEq, Eq)]
pub enum BoxType {
    /// `ftyp`: file type and compatible brands.
    FtypBox,
    /// `mvhd`: movie header.
    MvhdBox,
    /// `mfhd`: movie fragment header.
    MfhdBox,
    /// `free`: free space.
    FreeBox,
    /// `mdat`: media data.
    MdatBox,
    /// `moov`: movie, with all metadata.
    MoovBox,
    /// `mvex`: movie extends, present if movie fragments follow.
    MvexBox,
    /// `mehd`: movie extends header.
    MehdBox,
    /// `trex`: track extends, with defaults of a track's fragments.
    TrexBox,
    /// `emsg`: event message (ISO/IEC 23009-1).
    EmsgBox,
    /// `moof`: movie fragment.
    MoofBox,
    /// `tkhd`: track header.
    TkhdBox,
    /// `tfhd`: track fragment header.
    TfhdBox,
    /// `tfdt`: track fragment decode time.
    TfdtBox,
    /// `edts`: edits of a track.
    EdtsBox,
    /// `mdia`: media of a track.
    MdiaBox,
    /// `elst`: edit list.
    ElstBox,
    /// `mdhd`: media header.
    MdhdBox,
    /// `hdlr`: handler, with the kind of media.
    HdlrBox,
    /// `minf`: media information.
    MinfBox,
    /// `vmhd`: video media header.
    VmhdBox,
    /// `stbl`: sample table.
    StblBox,
    /// `stsd`: sample descriptions.
    StsdBox,
    /// `stts`: decoding times to samples.
    SttsBox,
    /// `ctts`: composition times to samples.
    CttsBox,
    /// `stss`: sync samples.
    StssBox,
    /// `stsc`: samples to chunks.
    StscBox,
    /// `stsz`: sample sizes.
    StszBox,
    /// `stco`: chunk offsets of 32 bits.
    StcoBox,
    /// `co64`: chunk offsets of 64 bits.
    Co64Box,
    /// `trak`: track.
    TrakBox,
    /// `traf`: track fragment.
    TrafBox,
    /// `trun`: track fragment run.
    TrunBox,
    /// `udta`: user data.
    UdtaBox,
    /// `meta`: metadata.
    MetaBox,
    /// `dinf`: data information.
    DinfBox,
    /// `dref`: data references.
    DrefBox,
    /// `smhd`: sound media header.
    SmhdBox,
    /// `avc1`: AVC video (ISO/IEC 14496-15).
    Avc1Box,
    /// `avcC`: configuration of AVC video.
    AvcCBox,
    /// `hev1`: HEVC video (ISO/IEC 14496-15).
    Hev1Box,
    /// `hvcC`: configuration of HEVC video.
    HvcCBox,
    /// `mp4a`: MPEG-4 audio (ISO/IEC 14496-14).
    Mp4aBox,
    /// `esds`: elementary stream descriptor (ISO/IEC 14496-14).
    EsdsBox,
    /// `tx3g`: 3GPP timed text (3GPP TS 26.245).
    Tx3gBox,
    /// `vpcC`: configuration of VP8 and VP9.
    VpccBox,
    /// `vp09`: VP9 video.
    Vp09Box,
    /// `data`: value of a metadata item.
    DataBox,
    /// `ilst`: list of metadata items.
    IlstBox,
    /// `covr`: cover picture.
    CovrBox,
    /// `desc`: description.
    DescBox,
    /// `wide`: space for a longer header.
    WideBox,
    /// `url `: data reference by location.
    UrlBox,
    /// `©nam`: name.
    NameBox,
    /// `©day`: day of release.
    DayBox,
    /// Any other code, as a number.
    UnknownBox(u32),
}

impl From<u32> for BoxType {
    ghost use Rattle.mp4_frame.specs.BoxType.{name_of};

    ghost from_gives = { λ n r. r ≡ name_of n };

    #[tactic(auto, unfolding(crate::specs::BoxType::name_of))]
    fn from(code: u32) -> BoxType {
        match code {
            codes::FTYP => BoxType::FtypBox,
            codes::MVHD => BoxType::MvhdBox,
            codes::MFHD => BoxType::MfhdBox,
            codes::FREE => BoxType::FreeBox,
            codes::MDAT => BoxType::MdatBox,
            codes::MOOV => BoxType::MoovBox,
            codes::MVEX => BoxType::MvexBox,
            codes::MEHD => BoxType::MehdBox,
            codes::TREX => BoxType::TrexBox,
            codes::EMSG => BoxType::EmsgBox,
            codes::MOOF => BoxType::MoofBox,
            codes::TKHD => BoxType::TkhdBox,
            codes::TFHD => BoxType::TfhdBox,
            codes::TFDT => BoxType::TfdtBox,
            codes::EDTS => BoxType::EdtsBox,
            codes::MDIA => BoxType::MdiaBox,
            codes::ELST => BoxType::ElstBox,
            codes::MDHD => BoxType::MdhdBox,
            codes::HDLR => BoxType::HdlrBox,
            codes::MINF => BoxType::MinfBox,
            codes::VMHD => BoxType::VmhdBox,
            codes::STBL => BoxType::StblBox,
            codes::STSD => BoxType::StsdBox,
            codes::STTS => BoxType::SttsBox,
            codes::CTTS => BoxType::CttsBox,
            codes::STSS => BoxType::StssBox,
            codes::STSC => BoxType::StscBox,
            codes::STSZ => BoxType::StszBox,
            codes::STCO => BoxType::StcoBox,
            codes::CO64 => BoxType::Co64Box,
            codes::TRAK => BoxType::TrakBox,
            codes::TRAF => BoxType::TrafBox,
            codes::TRUN => BoxType::TrunBox,
            codes::UDTA => BoxType::UdtaBox,
            codes::META => BoxType::MetaBox,
            codes::DINF => BoxType::DinfBox,
            codes::DREF => BoxType::DrefBox,
            codes::SMHD => BoxType::SmhdBox,
            codes::AVC1 => BoxType::Avc1Box,
            codes::AVCC => BoxType::AvcCBox,
            codes::HEV1 => BoxType::Hev1Box,
            codes::HVCC => BoxType::HvcCBox,
            codes::MP4A => BoxType::Mp4aBox,
            codes::ESDS => BoxType::EsdsBox,
            codes::TX3G => BoxType::Tx3gBox,
            codes::VPCC => BoxType::VpccBox,
            codes::VP09 => BoxType::Vp09Box,
            codes::DATA => BoxType::DataBox,
            codes::ILST => BoxType::IlstBox,
            codes::COVR => BoxType::CovrBox,
            codes::DESC => BoxType::DescBox,
            codes::WIDE => BoxType::WideBox,
            codes::URL => BoxType::UrlBox,
            codes::NAME => BoxType::NameBox,
            codes::DAY => BoxType::DayBox,
            _ => BoxType::UnknownBox(code),
        }
    }
}

impl From<BoxType> for u32 {
    ghost use Rattle.mp4_frame.specs.BoxType.{code_of};

    ghost from_gives = { λ b r. r ≡ code_of b };

    fn from(name: BoxType) -> u32 {
        match name {
            BoxType::FtypBox => codes::FTYP,
            BoxType::MvhdBox => codes::MVHD,
            BoxType::MfhdBox => codes::MFHD,
            BoxType::FreeBox => codes::FREE,
            BoxType::MdatBox => codes::MDAT,
            BoxType::MoovBox => codes::MOOV,
            BoxType::MvexBox => codes::MVEX,
            BoxType::MehdBox => codes::MEHD,
            BoxType::TrexBox => codes::TREX,
            BoxType::EmsgBox => codes::EMSG,
            BoxType::MoofBox => codes::MOOF,
            BoxType::TkhdBox => codes::TKHD,
            BoxType::TfhdBox => codes::TFHD,
            BoxType::TfdtBox => codes::TFDT,
            BoxType::EdtsBox => codes::EDTS,
            BoxType::MdiaBox => codes::MDIA,
            BoxType::ElstBox => codes::ELST,
            BoxType::MdhdBox => codes::MDHD,
            BoxType::HdlrBox => codes::HDLR,
            BoxType::MinfBox => codes::MINF,
            BoxType::VmhdBox => codes::VMHD,
            BoxType::StblBox => codes::STBL,
            BoxType::StsdBox => codes::STSD,
            BoxType::SttsBox => codes::STTS,
            BoxType::CttsBox => codes::CTTS,
            BoxType::StssBox => codes::STSS,
            BoxType::StscBox => codes::STSC,
            BoxType::StszBox => codes::STSZ,
            BoxType::StcoBox => codes::STCO,
            BoxType::Co64Box => codes::CO64,
            BoxType::TrakBox => codes::TRAK,
            BoxType::TrafBox => codes::TRAF,
            BoxType::TrunBox => codes::TRUN,
            BoxType::UdtaBox => codes::UDTA,
            BoxType::MetaBox => codes::META,
            BoxType::DinfBox => codes::DINF,
            BoxType::DrefBox => codes::DREF,
            BoxType::SmhdBox => codes::SMHD,
            BoxType::Avc1Box => codes::AVC1,
            BoxType::AvcCBox => codes::AVCC,
            BoxType::Hev1Box => codes::HEV1,
            BoxType::HvcCBox => codes::HVCC,
            BoxType::Mp4aBox => codes::MP4A,
            BoxType::EsdsBox => codes::ESDS,
            BoxType::Tx3gBox => codes::TX3G,
            BoxType::VpccBox => codes::VPCC,
            BoxType::Vp09Box => codes::VP09,
            BoxType::DataBox => codes::DATA,
            BoxType::IlstBox => codes::ILST,
            BoxType::CovrBox => codes::COVR,
            BoxType::DescBox => codes::DESC,
            BoxType::WideBox => codes::WIDE,
            BoxType::UrlBox => codes::URL,
            BoxType::NameBox => codes::NAME,
            BoxType::DayBox => codes::DAY,
            BoxType::UnknownBox(code) => code,
        }
    }
}

/// Proves that converting a code to a name and back gives the same code.
pub fn code_is_kept(code: u32)
    ensures { code_of (name_of code) ≡ code }
{}

/// Proves that converting a name to a code and back gives the same name, except for an `UnknownBox` with a named code.
pub fn name_is_kept()
    ensures { (name : _) → is_disguised name ≡ false → name_of (code_of name) ≡ name }
{}

/// Prints the four bytes of the code as UTF-8, with U+FFFD for each piece that is not UTF-8.
impl fmt::Display for BoxType {
    ghost output = { λ name. Some (encode_utf8_all (lossy_chars (be_bytes 4 (code_of name)))) };

    fn fmt<W: fmt::Write>(&self, f: &mut fmt::Formatter<W>) -> fmt::Result {
        fmt::Display::fmt(&FourCC::from(*self), f)
    }
}

/// Prints the same text as `Display`.
impl fmt::Debug for BoxType {
    fn fmt<W: fmt::Write>(&self, f: &mut fmt::Formatter<W>) -> fmt::Result {
        fmt::Display::fmt(self, f)
    }
}
