//! Tests of `stsd`: the entry that is written if there are several, values that can't be written, and clones.

use mp4_stream::{Error, Mp4aBox, StsdBox, TryClone, WriteBox};
use std::alloc::Global;
use std::test::Fail;
use test_shared::boxes::entries::{AVC1, HEV1, VP09, avc1, hev1, tx3g, vp09};
use test_shared::boxes::sound::{MP4A, mp4a, mp4a_of_test, stsd_of};
use test_shared::made;

/// Returns an `stsd` with an entry of each type except `avc1`.
fn stsd_after_avc1() -> StsdBox {
    StsdBox {
        version: 0,
        flags: 0,
        avc1: None,
        hev1: Some(hev1()),
        vp09: Some(vp09()),
        mp4a: Some(mp4a()),
        tx3g: Some(tx3g()),
    }
}

/// Returns an `stsd` with an entry of each type.
fn stsd_of_all(alloc: Global) -> Result<StsdBox, Error> {
    let avc1 = Some(avc1(alloc)?);
    Ok(StsdBox {
        avc1,
        ..stsd_after_avc1()
    })
}

/// Returns the first 16 bytes of an `stsd` of this size with one child, computed from the layout table.
fn stsd_start(size: u8) -> [u8; 16] {
    [
        0, 0, 0, size, b's', b't', b's', b'd', 0, 0, 0, 0, 0, 0, 0, 1,
    ]
}

/// Returns the bytes of the box in `made`, or none if there is no box or it can't be written.
fn bytes_of(alloc: Global, made: Result<StsdBox, Error>) -> Vec<u8> {
    let mut out = Vec::new(alloc);
    if let Ok(stsd) = made {
        if stsd.write_box(&mut out).is_err() {
            out.clear();
        }
    }
    out
}

/// Returns whether `stsd` is written in `size` bytes, with `child` as its only child.
fn is_written_alone(alloc: Global, stsd: Result<StsdBox, Error>, size: u8, child: &[u8]) -> bool {
    let bytes = bytes_of(alloc, stsd);
    bytes.get(..16) == Some(stsd_start(size).as_slice()) && bytes.get(16..) == Some(child)
}

fn stsd_after_hev1() -> StsdBox {
    StsdBox {
        hev1: None,
        ..stsd_after_avc1()
    }
}

fn stsd_of_sound_and_text() -> StsdBox {
    StsdBox {
        vp09: None,
        ..stsd_after_hev1()
    }
}

#[test]
fn the_first_entry_is_written(rt: HostRuntime) {
    let alloc = rt.alloc();
    assert!(rt;
        is_written_alone(alloc, stsd_of_all(alloc), 138, &AVC1)
            && is_written_alone(alloc, Ok(stsd_after_avc1()), 111, &HEV1)
            && is_written_alone(alloc, Ok(stsd_after_hev1()), 122, &VP09)
            && is_written_alone(alloc, Ok(stsd_of_sound_and_text()), 95, &MP4A)
    );
}

/// Returns an audio entry that can't be written.
fn unwritable_mp4a() -> Mp4aBox {
    let mut mp4a = mp4a_of_test();
    if let Some(esds) = &mut mp4a.esds {
        esds.flags = 1 << 24;
    }
    mp4a
}

fn flagged_stsd(alloc: Global) -> StsdBox {
    StsdBox {
        flags: 1 << 24,
        ..StsdBox::default_in(alloc)
    }
}

#[test]
fn unwritable_stsd(rt: HostRuntime) -> Result<(), Fail> {
    let alloc = rt.alloc();
    made::unwritable_of_size(alloc, Ok(stsd_of(alloc, unwritable_mp4a())), 91).and(made::unwritable(
        alloc,
        Ok(flagged_stsd(alloc)),
    ))?;
    Ok(())
}

/// Returns whether `clone` is equal to `all`, and is unequal once its last entry is removed.
fn is_clone(clone: StsdBox, all: &StsdBox) -> bool {
    let is_equal = clone == *all;
    let other = StsdBox {
        tx3g: None,
        ..clone
    };
    is_equal && other != *all
}

/// Returns whether `all` has a clone that is equal to it, and unequal once its last entry is removed.
fn is_cloned(all: &StsdBox) -> bool {
    match all.try_clone() {
        Ok(clone) => is_clone(clone, all),
        Err(_) => false,
    }
}

/// Returns whether `made` has a box for which `is_cloned` holds.
fn is_made_and_cloned(made: Result<StsdBox, Error>) -> bool {
    match made {
        Ok(all) => is_cloned(&all),
        Err(_) => false,
    }
}

#[test]
fn clones_of_stsd(rt: HostRuntime) {
    assert!(rt; is_made_and_cloned(stsd_of_all(rt.alloc())));
}
