//! Tests of boxes that are cut at every length. If a byte that reading needs is missing, the error is end of input.
//! Bytes after those are not needed.

use mp4_stream::{HvcCBox, MdhdBox, MehdBox, MvhdBox, SmhdBox, TkhdBox, TrunBox, VmhdBox};
use std::test::Fail;
use test_shared::boxes::entries::{
    avc1, avc1_of_two, avcc, avcc_of_two, hev1, hev1_of_config, hvcc, tx3g, tx3g_of_test, vp09,
    vp09_of_config, vpcc, vpcc_of_test,
};
use test_shared::boxes::flat::{
    mdhd, mdhd_long, mehd, mehd_short, mfhd, mvhd, mvhd_long, smhd, tfdt, tfdt_of_zero, tkhd,
    tkhd_full, tkhd_long, tkhd_short, trex, vmhd, vmhd_black,
};
use test_shared::boxes::sound::{esds, esds_of_test, mp4a, mp4a_of_test, stsd, stsd_of};
use test_shared::boxes::tables::{
    co64, co64_of_seven, ctts, elst, elst_long, stco, stsc, stss, stss_of_nine, stsz, stsz_of_nine,
    stsz_of_one_size, stts, tfhd, tfhd_all, tfhd_bare, trun, trun_of_four_lists,
    trun_of_three_lists,
};
use test_shared::boxes::text::{
    data_box, dinf, dinf_url, dref, dref_url, emsg, emsg_long, ftyp, hdlr, url,
};
use test_shared::helpers::expect_end_at_cuts_below;
use test_shared::made;

#[test]
fn cut_headers_of_movies_tracks_and_media(rt: HostRuntime) -> Result<(), Fail> {
    let alloc = rt.alloc();
    // The last two bytes of an `mdhd` are not read.
    expect_end_at_cuts_below(alloc, &MvhdBox::default(), 108)
        .and(expect_end_at_cuts_below(alloc, &mvhd(), 108))
        .and(expect_end_at_cuts_below(alloc, &mvhd_long(), 120))
        .and(expect_end_at_cuts_below(alloc, &TkhdBox::default(), 92))
        .and(expect_end_at_cuts_below(alloc, &tkhd_short(), 92))
        .and(expect_end_at_cuts_below(alloc, &tkhd_long(), 104))
        .and(expect_end_at_cuts_below(alloc, &tkhd_full(), 92))
        .and(expect_end_at_cuts_below(alloc, &tkhd(), 104))
        .and(made::end_at_cuts_below(alloc, MdhdBox::default_in(alloc), 30))
        .and(made::end_at_cuts_below(alloc, mdhd(alloc), 30))
        .and(made::end_at_cuts_below(alloc, mdhd_long(alloc), 42))
        .and(expect_end_at_cuts_below(alloc, &SmhdBox::default(), 14))
        .and(expect_end_at_cuts_below(alloc, &smhd(), 14))
        .and(expect_end_at_cuts_below(alloc, &VmhdBox::default(), 20))
        .and(expect_end_at_cuts_below(alloc, &vmhd_black(), 20))
        .and(expect_end_at_cuts_below(alloc, &vmhd(), 20))?;
    Ok(())
}

#[test]
fn cut_headers_of_fragments(rt: HostRuntime) -> Result<(), Fail> {
    let alloc = rt.alloc();
    expect_end_at_cuts_below(alloc, &MehdBox::default(), 16)
        .and(expect_end_at_cuts_below(alloc, &mehd_short(32), 16))
        .and(expect_end_at_cuts_below(alloc, &mehd(), 20))
        .and(expect_end_at_cuts_below(alloc, &tfdt_of_zero(0), 16))
        .and(expect_end_at_cuts_below(alloc, &tfdt_of_zero(1), 20))
        .and(expect_end_at_cuts_below(alloc, &tfdt(), 16))
        .and(expect_end_at_cuts_below(alloc, &mfhd(), 16))
        .and(expect_end_at_cuts_below(alloc, &trex(), 32))
        .and(expect_end_at_cuts_below(alloc, &tfhd_bare(), 16))
        .and(expect_end_at_cuts_below(alloc, &tfhd(), 28))
        .and(expect_end_at_cuts_below(alloc, &tfhd_all(), 40))?;
    Ok(())
}

#[test]
fn cut_tables(rt: HostRuntime) -> Result<(), Fail> {
    let alloc = rt.alloc();
    made::end_at_cuts_below(alloc, stco(alloc), 44)
        .and(made::end_at_cuts_below(alloc, co64_of_seven(alloc), 72))
        .and(made::end_at_cuts_below(alloc, co64(alloc), 32))
        .and(made::end_at_cuts_below(alloc, stsc(alloc), 40))
        .and(made::end_at_cuts_below(alloc, stss_of_nine(alloc), 52))
        .and(made::end_at_cuts_below(alloc, stss(alloc), 36))
        .and(made::end_at_cuts_below(alloc, stts(alloc), 32))
        .and(made::end_at_cuts_below(alloc, ctts(alloc), 32))
        .and(made::end_at_cuts_below(alloc, Ok(stsz_of_one_size(alloc, 1165, 12)), 20))
        .and(made::end_at_cuts_below(alloc, stsz_of_nine(alloc), 56))
        .and(made::end_at_cuts_below(alloc, stsz(alloc), 32))
        .and(made::end_at_cuts_below(alloc, elst(alloc), 28))
        .and(made::end_at_cuts_below(alloc, elst_long(alloc), 36))?;
    Ok(())
}

#[test]
fn cut_runs_texts_and_references(rt: HostRuntime) -> Result<(), Fail> {
    let alloc = rt.alloc();
    // The zero byte after the name of an `hdlr` may be missing.
    made::end_at_cuts_below(alloc, Ok(TrunBox::default_in(alloc)), 16)
        .and(made::end_at_cuts_below(alloc, trun(alloc), 28))
        .and(made::end_at_cuts_below(alloc, trun_of_three_lists(alloc), 48))
        .and(made::end_at_cuts_below(alloc, trun_of_four_lists(alloc), 160))
        .and(made::end_at_cuts_below(alloc, ftyp(alloc), 32))
        .and(made::end_at_cuts_below(alloc, hdlr(alloc), 44))
        .and(made::end_at_cuts_below(alloc, data_box(alloc), 25))
        .and(made::end_at_cuts_below(alloc, emsg(alloc), 39))
        .and(made::end_at_cuts_below(alloc, emsg_long(alloc), 43))
        .and(made::end_at_cuts_below(alloc, url(alloc), 13))
        .and(made::end_at_cuts_below(alloc, dref_url(alloc), 29))
        .and(made::end_at_cuts_below(alloc, dinf_url(alloc), 37))
        .and(made::end_at_cuts_below(alloc, Ok(dref(alloc)), 28))
        .and(made::end_at_cuts_below(alloc, Ok(dinf(alloc)), 36))?;
    Ok(())
}

#[test]
fn cut_entries_of_video_and_text(rt: HostRuntime) -> Result<(), Fail> {
    let alloc = rt.alloc();
    made::end_at_cuts_below(alloc, avcc_of_two(alloc, 3), 49)
        .and(made::end_at_cuts_below(alloc, avcc(alloc), 36))
        .and(made::end_at_cuts_below(alloc, avc1_of_two(alloc, 3), 135))
        .and(made::end_at_cuts_below(alloc, avc1(alloc), 122))
        .and(expect_end_at_cuts_below(alloc, &HvcCBox::new(), 9))
        .and(expect_end_at_cuts_below(alloc, &hvcc(), 9))
        .and(expect_end_at_cuts_below(alloc, &hev1_of_config(), 95))
        .and(expect_end_at_cuts_below(alloc, &hev1(), 95))
        .and(expect_end_at_cuts_below(alloc, &vpcc_of_test(), 20))
        .and(expect_end_at_cuts_below(alloc, &vpcc(), 20))
        .and(expect_end_at_cuts_below(alloc, &vp09_of_config(), 106))
        .and(expect_end_at_cuts_below(alloc, &vp09(), 106))
        .and(expect_end_at_cuts_below(alloc, &tx3g_of_test(), 46))
        .and(expect_end_at_cuts_below(alloc, &tx3g(), 46))?;
    Ok(())
}

#[test]
fn cut_entries_of_sound(rt: HostRuntime) -> Result<(), Fail> {
    let alloc = rt.alloc();
    expect_end_at_cuts_below(alloc, &esds_of_test(), 39)
        .and(expect_end_at_cuts_below(alloc, &esds(), 43))
        .and(expect_end_at_cuts_below(alloc, &mp4a_of_test(), 75))
        .and(expect_end_at_cuts_below(alloc, &mp4a(), 79))
        .and(made::end_at_cuts_below(alloc, Ok(stsd_of(alloc, mp4a_of_test())), 91))
        .and(made::end_at_cuts_below(alloc, Ok(stsd()), 95))?;
    Ok(())
}
