//! Tests of boxes that can't be written. Writing one leaves the vector unchanged.

use mp4_stream::{
    DinfBox, DrefBox, EmsgBox, Entries, Error, HdlrBox, MdhdBox, MehdBox, MvhdBox, StcoBox, Text,
    TfdtBox, TkhdBox, TrexBox, TrunBox, UrlBox, VmhdBox,
};
use std::alloc::Global;
use std::test::Fail;
use test_shared::boxes::flat::mehd_short;
use test_shared::boxes::tables::{elst_of, stco, tfhd_all, trun_of_three_lists};
use test_shared::boxes::text::{dref_of, dref_url, emsg, emsg_long, hdlr, url};
use test_shared::helpers::{Mismatch, expect_unwritable, expect_unwritable_of_size};
use test_shared::made;

/// Returns a media header with this version and duration.
fn media_header(alloc: Global, version: u8, duration: u64) -> Result<MdhdBox, Error> {
    let mut media = MdhdBox::default_in(alloc)?;
    media.version = version;
    media.duration = duration;
    Ok(media)
}

/// Returns a `tfdt` with this version and decode time.
fn decode_time(version: u8, base_media_decode_time: u64) -> TfdtBox {
    TfdtBox {
        version,
        flags: 0,
        base_media_decode_time,
    }
}

/// Returns a movie header with this creation time.
fn late_movie(creation_time: u64) -> MvhdBox {
    MvhdBox {
        creation_time,
        ..MvhdBox::default()
    }
}

/// Returns a track header with this modification time.
fn late_track(modification_time: u64) -> TkhdBox {
    TkhdBox {
        modification_time,
        ..TkhdBox::default()
    }
}

#[test]
fn times_past_32_bits(rt: HostRuntime) -> Result<(), Fail> {
    let alloc = rt.alloc();
    let long = 1 << 32;
    expect_unwritable_of_size(alloc, &late_movie(long), 108)
        .and(expect_unwritable_of_size(alloc, &late_track(long), 92))
        .and(made::unwritable_of_size(alloc, media_header(alloc, 0, long), 32))
        .and(expect_unwritable_of_size(alloc, &decode_time(0, long), 16))
        .and(expect_unwritable_of_size(alloc, &mehd_short(long), 16))
        .and(made::unwritable(alloc, elst_of(alloc, 2, long)))?;
    Ok(())
}

/// Returns a movie header of an unknown version.
fn unknown_movie() -> MvhdBox {
    MvhdBox {
        version: 2,
        ..MvhdBox::default()
    }
}

/// Returns a track header of an unknown version.
fn unknown_track() -> TkhdBox {
    TkhdBox {
        version: 2,
        ..TkhdBox::default()
    }
}

/// Returns an `mehd` of an unknown version.
fn unknown_extent() -> MehdBox {
    MehdBox {
        version: 2,
        flags: 0,
        fragment_duration: 1 << 32,
    }
}

#[test]
fn unknown_versions_of_headers(rt: HostRuntime) -> Result<(), Fail> {
    let alloc = rt.alloc();
    expect_unwritable_of_size(alloc, &unknown_movie(), 92)
        .and(expect_unwritable_of_size(alloc, &unknown_track(), 72))
        .and(made::unwritable_of_size(alloc, media_header(alloc, 2, 0), 16))
        .and(expect_unwritable_of_size(alloc, &unknown_extent(), 12))
        .and(expect_unwritable_of_size(alloc, &decode_time(2, 0), 16))?;
    Ok(())
}

/// The box that `$made` gives, with flags of 25 bits.
macro_rules! flagged {
    ($made:expr) => {{
        let mut made = $made?;
        made.flags = 1 << 24;
        Ok(made)
    }};
}

fn flagged_stco(alloc: Global) -> Result<StcoBox, Error> {
    flagged!(stco(alloc))
}

fn flagged_hdlr(alloc: Global) -> Result<HdlrBox, Error> {
    flagged!(hdlr(alloc))
}

fn flagged_emsg(alloc: Global) -> Result<EmsgBox, Error> {
    flagged!(emsg_long(alloc))
}

fn flagged_url(alloc: Global) -> Result<UrlBox, Error> {
    flagged!(url(alloc))
}

fn flagged_dref(alloc: Global) -> Result<DrefBox, Error> {
    flagged!(dref_url(alloc))
}

/// Expects that neither the `dref` in `made` nor a `dinf` with it can be written.
fn expect_unwritable_dref(alloc: Global, made: Result<DrefBox, Error>) -> Result<(), Mismatch> {
    let dref = made?;
    expect_unwritable(alloc, &dref).and(expect_unwritable(alloc, &DinfBox::new(dref)))
}

/// Returns a `trex` with flags of 25 bits.
fn flagged_track() -> TrexBox {
    TrexBox {
        flags: 1 << 24,
        ..TrexBox::default()
    }
}

/// Returns a `vmhd` with flags of 25 bits.
fn flagged_video() -> VmhdBox {
    VmhdBox {
        flags: 1 << 24,
        ..VmhdBox::default()
    }
}

/// Returns an `stco` without offsets, with flags of 25 bits.
fn flagged_empty(alloc: Global) -> StcoBox {
    StcoBox {
        version: 0,
        flags: 1 << 24,
        entries: Entries::new(alloc),
    }
}

#[test]
fn flags_past_24_bits(rt: HostRuntime) -> Result<(), Fail> {
    let alloc = rt.alloc();
    expect_unwritable_of_size(alloc, &flagged_track(), 32)
        .and(expect_unwritable_of_size(alloc, &flagged_video(), 20))
        .and(made::unwritable_of_size(alloc, Ok(flagged_empty(alloc)), 16))
        .and(made::unwritable(alloc, flagged_stco(alloc)))
        .and(made::unwritable(alloc, flagged_hdlr(alloc)))
        .and(made::unwritable(alloc, flagged_emsg(alloc)))?;
    Ok(())
}

/// Returns a `dref` whose `url ` has flags of 25 bits and no location.
fn dref_of_flagged(alloc: Global) -> DrefBox {
    dref_of(Some(UrlBox {
        version: 0,
        flags: 1 << 24,
        location: Text::new(alloc),
    }))
}

#[test]
fn flags_past_24_bits_in_references(rt: HostRuntime) -> Result<(), Fail> {
    let alloc = rt.alloc();
    made::unwritable(alloc, flagged_url(alloc))
        .and(expect_unwritable_dref(alloc, flagged_dref(alloc)))
        .and(expect_unwritable_dref(alloc, Ok(dref_of_flagged(alloc))))?;
    Ok(())
}

/// Returns the list of the numbers from 0 to `length - 1`.
fn numbers(alloc: Global, length: u32) -> Result<Entries<u32>, Error> {
    let numbers: Vec<u32> = (0..length).collect(alloc)?;
    Ok(numbers.into())
}

/// Returns a `trun` with this sample count and two lists of `length` numbers.
fn trun_of_numbers(alloc: Global, sample_count: u32, length: u32) -> Result<TrunBox, Error> {
    let sample_sizes = numbers(alloc, length)?;
    let sample_cts = numbers(alloc, length)?;
    Ok(TrunBox {
        version: 0,
        flags: TrunBox::FLAG_SAMPLE_SIZE | TrunBox::FLAG_SAMPLE_CTS,
        sample_count,
        data_offset: None,
        first_sample_flags: None,
        sample_durations: Entries::new(alloc),
        sample_sizes,
        sample_flags: Entries::new(alloc),
        sample_cts,
    })
}

/// Returns a `trun` whose flags announce the flags of the first sample, which are missing.
fn trun_without_first_flags(alloc: Global) -> Result<TrunBox, Error> {
    let mut trun = trun_of_three_lists(alloc)?;
    trun.first_sample_flags = None;
    Ok(trun)
}

/// Returns an `emsg` of version 1 that has the time of version 0, and not that of version 1.
fn emsg_of_other_time(alloc: Global) -> Result<EmsgBox, Error> {
    let mut made = emsg(alloc)?;
    made.message_data = Entries::new(alloc);
    made.version = 1;
    Ok(made)
}

#[test]
fn fields_and_lists_that_differ_from_flags_or_version(rt: HostRuntime) -> Result<(), Fail> {
    let alloc = rt.alloc();
    let mut tfhd = tfhd_all();
    tfhd.default_sample_flags = None;
    expect_unwritable(alloc, &tfhd)
        .and(made::unwritable(alloc, trun_without_first_flags(alloc)))
        .and(made::unwritable(alloc, trun_of_numbers(alloc, 1029, 1030)))
        .and(made::unwritable(alloc, emsg_of_other_time(alloc)))?;
    Ok(())
}
