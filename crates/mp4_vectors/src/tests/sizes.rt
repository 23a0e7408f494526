//! Tests of boxes that are read with a wrong size.

use mp4_stream::BoxLaws;
use mp4_stream::BoxType;
use mp4_stream::DataBox;
use mp4_stream::DinfBox;
use mp4_stream::EmsgBox;
use mp4_stream::EsdsBox;
use mp4_stream::FtypBox;
use mp4_stream::HdlrBox;
use mp4_stream::HvcCBox;
use mp4_stream::MdhdBox;
use mp4_stream::MehdBox;
use mp4_stream::Mp4aBox;
use mp4_stream::MvhdBox;
use mp4_stream::ReadBox;
use mp4_stream::SmhdBox;
use mp4_stream::StcoBox;
use mp4_stream::StsdBox;
use mp4_stream::Text;
use mp4_stream::TkhdBox;
use mp4_stream::TrunBox;
use mp4_stream::UrlBox;
use mp4_stream::VmhdBox;
use std::alloc::Global;
use std::test::Fail;
use test_shared::boxes::entries::avc1;
use test_shared::boxes::entries::avc1_of_two;
use test_shared::boxes::entries::avcc;
use test_shared::boxes::entries::avcc_of_two;
use test_shared::boxes::entries::hev1;
use test_shared::boxes::entries::hev1_of_config;
use test_shared::boxes::entries::hvcc;
use test_shared::boxes::entries::tx3g;
use test_shared::boxes::entries::tx3g_of_test;
use test_shared::boxes::entries::vp09;
use test_shared::boxes::entries::vp09_of_config;
use test_shared::boxes::entries::vpcc;
use test_shared::boxes::entries::vpcc_of_test;
use test_shared::boxes::flat::mdhd;
use test_shared::boxes::flat::mdhd_long;
use test_shared::boxes::flat::mehd;
use test_shared::boxes::flat::mehd_short;
use test_shared::boxes::flat::mfhd;
use test_shared::boxes::flat::mvhd;
use test_shared::boxes::flat::mvhd_long;
use test_shared::boxes::flat::smhd;
use test_shared::boxes::flat::tfdt;
use test_shared::boxes::flat::tfdt_of_zero;
use test_shared::boxes::flat::tkhd;
use test_shared::boxes::flat::tkhd_full;
use test_shared::boxes::flat::tkhd_long;
use test_shared::boxes::flat::tkhd_short;
use test_shared::boxes::flat::trex;
use test_shared::boxes::flat::vmhd;
use test_shared::boxes::flat::vmhd_black;
use test_shared::boxes::sound::ESDS;
use test_shared::boxes::sound::ESDS_OF_TEST;
use test_shared::boxes::sound::MP4A;
use test_shared::boxes::sound::MP4A_OF_TEST;
use test_shared::boxes::sound::MP4A_WITHOUT_ESDS;
use test_shared::boxes::sound::STSD;
use test_shared::boxes::sound::STSD_OF_TEST;
use test_shared::boxes::sound::mp4a;
use test_shared::boxes::sound::mp4a_of;
use test_shared::boxes::sound::mp4a_of_test;
use test_shared::boxes::sound::stsd;
use test_shared::boxes::sound::stsd_of;
use test_shared::boxes::tables::STCO;
use test_shared::boxes::tables::co64;
use test_shared::boxes::tables::co64_of_seven;
use test_shared::boxes::tables::ctts;
use test_shared::boxes::tables::elst;
use test_shared::boxes::tables::elst_long;
use test_shared::boxes::tables::stco;
use test_shared::boxes::tables::stsc;
use test_shared::boxes::tables::stss;
use test_shared::boxes::tables::stss_of_nine;
use test_shared::boxes::tables::stsz;
use test_shared::boxes::tables::stsz_of_nine;
use test_shared::boxes::tables::stsz_of_one_size;
use test_shared::boxes::tables::stts;
use test_shared::boxes::tables::tfhd;
use test_shared::boxes::tables::tfhd_all;
use test_shared::boxes::tables::tfhd_bare;
use test_shared::boxes::tables::trun;
use test_shared::boxes::tables::trun_of_four_lists;
use test_shared::boxes::tables::trun_of_three_lists;
use test_shared::boxes::text::DATA;
use test_shared::boxes::text::DINF;
use test_shared::boxes::text::DINF_URL;
use test_shared::boxes::text::DREF;
use test_shared::boxes::text::DREF_URL;
use test_shared::boxes::text::EMSG;
use test_shared::boxes::text::FTYP;
use test_shared::boxes::text::FTYP_OF_TWO;
use test_shared::boxes::text::HDLR;
use test_shared::boxes::text::URL;
use test_shared::boxes::text::dref;
use test_shared::boxes::text::dref_of;
use test_shared::boxes::text::dref_url;
use test_shared::helpers::Kind;
use test_shared::helpers::Mismatch;
use test_shared::helpers::expect_invalid_at_small_sizes;
use test_shared::helpers::expect_kind;
use test_shared::helpers::expect_value;
use test_shared::helpers::expect_value_at_any_size;
use test_shared::helpers::expect_value_to;
use test_shared::made;

#[test]
fn headers_of_movies_tracks_and_media_have_any_size(rt: HostRuntime) -> Result<(), Fail> {
    let alloc = rt.alloc();
    expect_value_at_any_size(alloc, &MvhdBox::default())
        .and(expect_value_at_any_size(alloc, &mvhd()))
        .and(expect_value_at_any_size(alloc, &mvhd_long()))
        .and(expect_value_at_any_size(alloc, &TkhdBox::default()))
        .and(expect_value_at_any_size(alloc, &tkhd_short()))
        .and(expect_value_at_any_size(alloc, &tkhd_long()))
        .and(expect_value_at_any_size(alloc, &tkhd()))
        .and(expect_value_at_any_size(alloc, &tkhd_full()))
        .and(made::value_at_any_size(alloc, MdhdBox::default_in(alloc)))
        .and(made::value_at_any_size(alloc, mdhd(alloc)))
        .and(made::value_at_any_size(alloc, mdhd_long(alloc)))
        .and(expect_value_at_any_size(alloc, &SmhdBox::default()))
        .and(expect_value_at_any_size(alloc, &smhd()))
        .and(expect_value_at_any_size(alloc, &VmhdBox::default()))
        .and(expect_value_at_any_size(alloc, &vmhd_black()))
        .and(expect_value_at_any_size(alloc, &vmhd()))?;
    Ok(())
}

#[test]
fn fragments_and_tables_without_lists_have_any_size(rt: HostRuntime) -> Result<(), Fail> {
    let alloc = rt.alloc();
    expect_value_at_any_size(alloc, &MehdBox::default())
        .and(expect_value_at_any_size(alloc, &mehd_short(32)))
        .and(expect_value_at_any_size(alloc, &mehd()))
        .and(expect_value_at_any_size(alloc, &tfdt_of_zero(0)))
        .and(expect_value_at_any_size(alloc, &tfdt_of_zero(1)))
        .and(expect_value_at_any_size(alloc, &tfdt()))
        .and(expect_value_at_any_size(alloc, &mfhd()))
        .and(expect_value_at_any_size(alloc, &trex()))
        .and(expect_value_at_any_size(alloc, &tfhd_bare()))
        .and(expect_value_at_any_size(alloc, &tfhd()))
        .and(expect_value_at_any_size(alloc, &tfhd_all()))
        .and(made::value_at_any_size(alloc, Ok(TrunBox::default_in(alloc))))
        .and(made::value_at_any_size(alloc, Ok(stsz_of_one_size(alloc, 1165, 12))))?;
    Ok(())
}

#[test]
fn tables_and_runs_have_room(rt: HostRuntime) -> Result<(), Fail> {
    let alloc = rt.alloc();
    made::invalid_at_small_sizes(alloc, stco(alloc))
        .and(made::invalid_at_small_sizes(alloc, co64_of_seven(alloc)))
        .and(made::invalid_at_small_sizes(alloc, co64(alloc)))
        .and(made::invalid_at_small_sizes(alloc, stsc(alloc)))
        .and(made::invalid_at_small_sizes(alloc, stss_of_nine(alloc)))
        .and(made::invalid_at_small_sizes(alloc, stss(alloc)))
        .and(made::invalid_at_small_sizes(alloc, stts(alloc)))
        .and(made::invalid_at_small_sizes(alloc, ctts(alloc)))
        .and(made::invalid_at_small_sizes(alloc, stsz_of_nine(alloc)))
        .and(made::invalid_at_small_sizes(alloc, stsz(alloc)))
        .and(made::invalid_at_small_sizes(alloc, elst(alloc)))
        .and(made::invalid_at_small_sizes(alloc, elst_long(alloc)))
        .and(made::invalid_at_small_sizes(alloc, trun(alloc)))
        .and(made::invalid_at_small_sizes(alloc, trun_of_three_lists(alloc)))
        .and(made::invalid_at_small_sizes(alloc, trun_of_four_lists(alloc)))?;
    Ok(())
}

#[test]
fn configurations_and_texts_have_any_size(rt: HostRuntime) -> Result<(), Fail> {
    let alloc = rt.alloc();
    expect_value_at_any_size(alloc, &tx3g_of_test())
        .and(expect_value_at_any_size(alloc, &tx3g()))
        .and(expect_value_at_any_size(alloc, &HvcCBox::new()))
        .and(expect_value_at_any_size(alloc, &hvcc()))
        .and(expect_value_at_any_size(alloc, &vpcc_of_test()))
        .and(expect_value_at_any_size(alloc, &vpcc()))
        .and(made::value_at_any_size(alloc, avcc_of_two(alloc, 3)))
        .and(made::value_at_any_size(alloc, avcc(alloc)))?;
    Ok(())
}

#[test]
fn entries_of_video_have_room_for_their_child(rt: HostRuntime) -> Result<(), Fail> {
    let alloc = rt.alloc();
    made::invalid_at_small_sizes(alloc, avc1_of_two(alloc, 3))
        .and(made::invalid_at_small_sizes(alloc, avc1(alloc)))
        .and(expect_invalid_at_small_sizes(alloc, &hev1_of_config()))
        .and(expect_invalid_at_small_sizes(alloc, &hev1()))
        .and(expect_invalid_at_small_sizes(alloc, &vp09_of_config()))
        .and(expect_invalid_at_small_sizes(alloc, &vp09()))?;
    Ok(())
}

/// Expects that `bytes` are read as `small` with a size of 0 or 7, and as `large` with the largest size.
fn expect_values<B: BoxLaws + PartialEq + Drop>(
    alloc: Global,
    bytes: &[u8],
    small: B,
    large: B,
) -> Result<(), Mismatch> {
    for size in [0, 7] {
        expect_value_to(alloc, &small, bytes, size, size.max(B::LEAST))?;
    }
    expect_value(alloc, &large, bytes, u64::MAX)
}

#[test]
fn sizes_of_mp4a(rt: HostRuntime) -> Result<(), Fail> {
    let alloc = rt.alloc();
    let none = mp4a_of(None);
    let without = Mp4aBox {
        esds: None,
        ..mp4a()
    };
    expect_values(alloc, &MP4A_OF_TEST, mp4a_of(None), mp4a_of_test())
        .and(expect_values(alloc, &MP4A, without, mp4a()))
        .and(expect_value_to(alloc, &none, &MP4A_WITHOUT_ESDS, 0, 36))
        .and(expect_value_to(alloc, &none, &MP4A_WITHOUT_ESDS, 7, 36))
        .and(expect_kind::<Mp4aBox>(alloc, &MP4A_WITHOUT_ESDS, u64::MAX, Kind::End))?;
    Ok(())
}

/// Returns the value of `STSD` without its audio entry.
fn stsd_without_sound() -> StsdBox {
    StsdBox {
        mp4a: None,
        ..stsd()
    }
}

#[test]
fn sizes_of_stsd_and_esds(rt: HostRuntime) -> Result<(), Fail> {
    let alloc = rt.alloc();
    let large = stsd_of(alloc, mp4a_of_test());
    expect_values(alloc, &STSD_OF_TEST, StsdBox::default_in(alloc), large)
        .and(expect_values(alloc, &STSD, stsd_without_sound(), stsd()))
        .and(expect_kinds::<EsdsBox>(alloc, &ESDS_OF_TEST, Kind::Invalid, Kind::End))
        .and(expect_kinds::<EsdsBox>(alloc, &ESDS, Kind::Invalid, Kind::End))?;
    Ok(())
}

/// Expects that reading `bytes` has the outcome `small` with a size of 0 or 7, and `large` with the largest size.
fn expect_kinds<B: ReadBox + Drop>(
    alloc: Global,
    bytes: &[u8],
    small: Kind,
    large: Kind,
) -> Result<(), Mismatch> {
    for (size, expected) in [(0, small), (7, small), (u64::MAX, large)] {
        expect_kind::<B>(alloc, bytes, size, expected)?;
    }
    Ok(())
}

#[test]
fn sizes_of_texts_data_and_references(rt: HostRuntime) -> Result<(), Fail> {
    let alloc = rt.alloc();
    let no_dref = Kind::NotFound(BoxType::DrefBox);
    expect_kinds::<FtypBox>(alloc, &FTYP, Kind::Invalid, Kind::Invalid)
        .and(expect_kinds::<HdlrBox>(alloc, &HDLR, Kind::Invalid, Kind::End))
        .and(expect_kinds::<DataBox>(alloc, &DATA, Kind::Invalid, Kind::End))
        .and(expect_kinds::<EmsgBox>(alloc, &EMSG, Kind::Invalid, Kind::End))
        .and(expect_kinds::<UrlBox>(alloc, &URL, Kind::Ok, Kind::End))
        .and(expect_kinds::<DinfBox>(alloc, &DINF_URL, no_dref, Kind::End))
        .and(expect_kinds::<DinfBox>(alloc, &DINF, no_dref, Kind::End))?;
    Ok(())
}

/// Returns a `url ` without a location.
fn url_of_nothing(alloc: Global) -> UrlBox {
    UrlBox {
        version: 0,
        flags: 0,
        location: Text::new(alloc),
    }
}

#[test]
fn references_of_small_sizes_are_empty(rt: HostRuntime) -> Result<(), Fail> {
    let alloc = rt.alloc();
    made::value(alloc, Ok(url_of_nothing(alloc)), &URL, 0)
        .and(made::value(alloc, Ok(url_of_nothing(alloc)), &URL, 7))
        .and(made::value(alloc, Ok(dref_of(None)), &DREF_URL, 0))
        .and(made::value(alloc, Ok(dref_of(None)), &DREF_URL, 7))
        .and(made::value(alloc, dref_url(alloc), &DREF_URL, u64::MAX))
        .and(made::value(alloc, Ok(dref(alloc)), &DREF, u64::MAX))?;
    Ok(())
}

#[test]
fn sizes_of_ftyp(rt: HostRuntime) -> Result<(), Fail> {
    for (size, expected) in [
        (0, Kind::Invalid),
        (7, Kind::Invalid),
        (8, Kind::Invalid),
        (12, Kind::Invalid),
        (15, Kind::Invalid),
        (16, Kind::Ok),
        (18, Kind::Invalid),
        (20, Kind::Ok),
        (23, Kind::Invalid),
        (24, Kind::Ok),
        (28, Kind::End),
        (u64::MAX - 11, Kind::End),
        (u64::MAX - 8, Kind::Invalid),
        (u64::MAX, Kind::Invalid),
    ] {
        expect_kind::<FtypBox>(rt.alloc(), &FTYP_OF_TWO, size, expected)?;
    }
    Ok(())
}

#[test]
fn sizes_of_stco(rt: HostRuntime) -> Result<(), Fail> {
    for size in [0, 7, 16, 43] {
        expect_kind::<StcoBox>(rt.alloc(), &STCO, size, Kind::Invalid)?;
    }
    for size in [44, 47, 0xffff_ffff, u64::MAX] {
        made::value(rt.alloc(), stco(rt.alloc()), &STCO, size)?;
    }
    Ok(())
}
