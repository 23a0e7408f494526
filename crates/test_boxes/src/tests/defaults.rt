//! Tests of defaults: the bytes of some, and the fields of the others. A clause states the value of every default.
//! These tests compare the values with those of the Rust crate.

use mp4_stream::{
    DataType, DrefBox, EmsgBox, Entries, EsdsBox, FixedPointU16, FourCC, FtypBox, HdlrBox, Matrix,
    MdhdBox, MehdBox, MfhdBox, Mp4aBox, MvhdBox, RgbColor, RgbaColor, SmhdBox, StcoBox, StscBox,
    Text, TfdtBox, TkhdBox, Tx3gBox, UrlBox, VmhdBox,
};
use std::alloc::Global;
use std::test::Fail;
use test_shared::boxes::flat::MFHD;
use test_shared::helpers::expect_round_trip;
use test_shared::made;

const MVHD: [u8; 108] =
    *b"\0\0\0lmvhd\0\0\0\0\0\0\0\0\0\0\0\0\0\0\x03\xe8\0\0\0\0\0\x01\0\0\x01\0\0\0\0\0\0\0\0\0\0\0\0\x01\0\
\0\0\0\0\0\0\0\0\0\0\0\0\0\0\x01\0\0\0\0\0\0\0\0\0\0\0\0\0\0@\0\0\0\0\0\0\0\0\0\0\0\0\0\0\0\0\0\0\0\
\0\0\0\0\0\0\0\0\0\0\0\x01";

const TKHD: [u8; 92] =
    *b"\0\0\0\\tkhd\0\0\0\x01\0\0\0\0\0\0\0\0\0\0\0\0\0\0\0\0\0\0\0\0\0\0\0\0\0\0\0\0\0\0\0\0\x01\0\0\0\0\
\x01\0\0\0\0\0\0\0\0\0\0\0\0\0\0\0\x01\0\0\0\0\0\0\0\0\0\0\0\0\0\0@\0\0\0\0\0\0\0\0\0\0\0";

#[test]
fn default_mvhd_and_tkhd(rt: HostRuntime) -> Result<(), Fail> {
    let alloc = rt.alloc();
    expect_round_trip(alloc, &MvhdBox::default(), &MVHD).and(expect_round_trip(
        alloc,
        &TkhdBox::default(),
        &TKHD,
    ))?;
    Ok(())
}

#[test]
fn default_headers_of_media_and_fragments(rt: HostRuntime) -> Result<(), Fail> {
    let alloc = rt.alloc();
    let mdhd = b"\0\0\0\x20mdhd\0\0\0\0\0\0\0\0\0\0\0\0\0\0\x03\xe8\0\0\0\0U\xc4\0\0";
    let smhd = b"\0\0\0\x10smhd\0\0\0\0\0\0\0\0";
    let vmhd = b"\0\0\0\x14vmhd\0\0\0\0\0\0\0\0\0\0\0\0";
    let mehd = b"\0\0\0\x10mehd\0\0\0\0\0\0\0\0";
    let tfdt = b"\0\0\0\x10tfdt\0\0\0\0\0\0\0\0";
    made::round_trip(alloc, MdhdBox::default_in(alloc), mdhd)
        .and(expect_round_trip(alloc, &SmhdBox::default(), smhd))
        .and(expect_round_trip(alloc, &VmhdBox::default(), vmhd))
        .and(expect_round_trip(alloc, &MehdBox::default(), mehd))
        .and(expect_round_trip(alloc, &MfhdBox::default(), &MFHD))
        .and(expect_round_trip(alloc, &TfdtBox::default(), tfdt))?;
    Ok(())
}

#[test]
fn default_ftyp_stco_and_stsc(rt: HostRuntime) -> Result<(), Fail> {
    let alloc = rt.alloc();
    let ftyp = b"\0\0\0\x10ftyp\0\0\0\0\0\0\0\0";
    let stco = b"\0\0\0\x10stco\0\0\0\0\0\0\0\0";
    let stsc = b"\0\0\0\x10stsc\0\0\0\0\0\0\0\0";
    made::round_trip(alloc, Ok(FtypBox::default_in(alloc)), ftyp)
        .and(made::round_trip(alloc, Ok(StcoBox::default_in(alloc)), stco))
        .and(made::round_trip(alloc, Ok(StscBox::default_in(alloc)), stsc))?;
    Ok(())
}

/// Returns the matrix that maps each point to itself: 1 is 0x10000 in `a` and `d`, and 0x40000000 in `w`.
fn unity() -> Matrix {
    Matrix {
        a: 0x10000,
        b: 0,
        u: 0,
        c: 0,
        d: 0x10000,
        v: 0,
        x: 0,
        y: 0,
        w: 0x4000_0000,
    }
}

#[test]
fn default_values(rt: HostRuntime) {
    assert!(rt; Matrix::default() == unity());
    let black = RgbColor {
        red: 0,
        green: 0,
        blue: 0,
    };
    assert!(rt; RgbColor::default() == black);
    assert!(rt; FourCC::default() == FourCC::from([0, 0, 0, 0]));
    assert!(rt; DataType::default() == DataType::Binary);
}

/// Returns the reference to the same file: flags of 1 and no location.
fn same_file(alloc: Global) -> UrlBox {
    UrlBox {
        version: 0,
        flags: 1,
        location: Text::new(alloc),
    }
}

fn one_reference(alloc: Global) -> DrefBox {
    DrefBox {
        version: 0,
        flags: 0,
        url: Some(same_file(alloc)),
    }
}

fn no_handler(alloc: Global) -> HdlrBox {
    HdlrBox {
        version: 0,
        flags: 0,
        handler_type: FourCC::from([0, 0, 0, 0]),
        name: Text::new(alloc),
    }
}

/// Returns an event without a time.
fn no_event(alloc: Global) -> EmsgBox {
    EmsgBox {
        version: 0,
        flags: 0,
        timescale: 0,
        presentation_time: None,
        presentation_time_delta: None,
        event_duration: 0,
        id: 0,
        scheme_id_uri: Text::new(alloc),
        value: Text::new(alloc),
        message_data: Entries::new(alloc),
    }
}

#[test]
fn default_hdlr_emsg_url_and_dref(rt: HostRuntime) -> Result<(), Fail> {
    let alloc = rt.alloc();
    made::equal(Ok(HdlrBox::default_in(alloc)), Ok(no_handler(alloc)))
        .and(made::equal(Ok(EmsgBox::default_in(alloc)), Ok(no_event(alloc))))
        .and(made::equal(Ok(UrlBox::default_in(alloc)), Ok(same_file(alloc))))
        .and(made::equal(Ok(DrefBox::default_in(alloc)), Ok(one_reference(alloc))))?;
    Ok(())
}

#[test]
fn default_tx3g_and_mp4a(rt: HostRuntime) {
    let tx3g = Tx3gBox {
        data_reference_index: 0,
        display_flags: 0,
        horizontal_justification: 1,
        vertical_justification: -1,
        bg_color_rgba: RgbaColor {
            red: 0,
            green: 0,
            blue: 0,
            alpha: 255,
        },
        box_record: [0, 0, 0, 0],
        style_record: [0, 0, 0, 0, 0, 1, 0, 16, 255, 255, 255, 255],
    };
    assert!(rt; Tx3gBox::default() == tx3g);
    let mp4a = Mp4aBox {
        data_reference_index: 0,
        channelcount: 2,
        samplesize: 16,
        samplerate: FixedPointU16::new_raw(0xbb80_0000),
        esds: Some(EsdsBox::default()),
    };
    assert!(rt; Mp4aBox::default() == mp4a);
}
