//! Tests of clones of boxes.

use mp4_stream::{Error, FtypBox, ReadBox, StcoBox, TryClone};
use std::alloc::Global;
use test_shared::boxes::entries::{avc1, avcc, hev1, tx3g, vp09, vpcc};
use test_shared::boxes::flat::mdhd_long;
use test_shared::boxes::sound::{esds, mp4a, mp4a_of, mp4a_of_test};
use test_shared::boxes::tables::{
    STCO_OF_ONE, co64_of_seven, ctts, elst_long, stco, stsc, stss_of_nine, stsz_of_nine, stts, trun,
};
use test_shared::boxes::text::{FTYP_OF_TWO, data_box, dinf, dref_of, emsg, ftyp, hdlr, url};
use test_shared::helpers::read;
use test_shared::made;

/// Returns whether the box in `made` has a clone that is equal to it.
fn is_cloned<B: TryClone + PartialEq + Drop>(made: Result<B, Error>) -> bool {
    made::cloned(made).is_ok()
}

/// Returns whether `original` has a clone that is equal to it.
fn is_clone_equal<B: TryClone + PartialEq + Drop>(original: &B) -> bool {
    made::clone_of(original).is_ok()
}

/// Returns the box of this size that is read from `bytes`, after the 8 bytes of its header.
fn read_from<B: ReadBox + Drop>(alloc: Global, bytes: &[u8], size: u64) -> Result<B, Error> {
    read::<B>(alloc, bytes, size).0
}

/// Returns whether tables are equal to their clones.
fn tables_are_cloned(alloc: Global) -> bool {
    is_cloned(stco(alloc))
        && is_cloned(read_from::<StcoBox>(alloc, &STCO_OF_ONE, 20))
        && is_cloned(co64_of_seven(alloc))
        && is_cloned(stsc(alloc))
        && is_cloned(trun(alloc))
        && is_cloned(stss_of_nine(alloc))
        && is_cloned(stts(alloc))
        && is_cloned(ctts(alloc))
        && is_cloned(stsz_of_nine(alloc))
        && is_cloned(elst_long(alloc))
}

#[test]
fn clones_of_tables(rt: HostRuntime) {
    assert!(rt; tables_are_cloned(rt.alloc()));
}

/// Returns whether texts and references are equal to their clones.
fn texts_and_references_are_cloned(alloc: Global) -> bool {
    is_cloned(mdhd_long(alloc))
        && is_cloned(ftyp(alloc))
        && is_cloned(read_from::<FtypBox>(alloc, &FTYP_OF_TWO, 24))
        && is_cloned(data_box(alloc))
        && is_cloned(hdlr(alloc))
        && is_cloned(emsg(alloc))
        && is_cloned(url(alloc))
        && is_cloned(Ok(dref_of(None)))
        && is_cloned(Ok(dinf(alloc)))
}

#[test]
fn clones_of_texts_and_references(rt: HostRuntime) {
    assert!(rt; texts_and_references_are_cloned(rt.alloc()));
}

/// Returns whether sample entries and boxes of audio are equal to their clones.
fn entries_and_sound_are_cloned(alloc: Global) -> bool {
    is_cloned(avcc(alloc))
        && is_cloned(avc1(alloc))
        && is_clone_equal(&hev1())
        && is_clone_equal(&vpcc())
        && is_clone_equal(&vp09())
        && is_clone_equal(&tx3g())
        && is_clone_equal(&esds())
        && is_clone_equal(&mp4a())
        && is_clone_equal(&mp4a_of_test())
        && is_clone_equal(&mp4a_of(None))
}

#[test]
fn clones_of_entries_and_sound(rt: HostRuntime) {
    assert!(rt; entries_and_sound_are_cloned(rt.alloc()));
}
