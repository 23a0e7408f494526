//! A test of `stsd` without an entry, and with more entries than are written.

use mp4_stream::{BoxType, Error, Mp4aBox, StsdBox};
use std::alloc::Global;
use std::test::Fail;
use test_shared::boxes::entries::avc1_of_two;
use test_shared::boxes::sound::{mp4a_of, mp4a_of_test};
use test_shared::made;

/// The bytes of an `stsd` with one entry, the `avc1` of two parameter sets.
const ONE_ENTRY: [u8; 151] = [
    0x00, 0x00, 0x00, 0x97, 0x73, 0x74, 0x73, 0x64, 0x00, 0x00, 0x00, 0x00, 0x00, 0x00, 0x00, 0x01,
    0x00, 0x00, 0x00, 0x87, 0x61, 0x76, 0x63, 0x31, 0x00, 0x00, 0x00, 0x00, 0x00, 0x00, 0x00, 0x01,
    0x00, 0x00, 0x00, 0x00, 0x00, 0x00, 0x00, 0x00, 0x00, 0x00, 0x00, 0x00, 0x00, 0x00, 0x00, 0x00,
    0x01, 0x40, 0x00, 0xf0, 0x00, 0x48, 0x00, 0x00, 0x00, 0x48, 0x00, 0x00, 0x00, 0x00, 0x00, 0x00,
    0x00, 0x01, 0x00, 0x00, 0x00, 0x00, 0x00, 0x00, 0x00, 0x00, 0x00, 0x00, 0x00, 0x00, 0x00, 0x00,
    0x00, 0x00, 0x00, 0x00, 0x00, 0x00, 0x00, 0x00, 0x00, 0x00, 0x00, 0x00, 0x00, 0x00, 0x00, 0x00,
    0x00, 0x00, 0x00, 0x18, 0xff, 0xff, 0x00, 0x00, 0x00, 0x31, 0x61, 0x76, 0x63, 0x43, 0x01, 0x64,
    0x00, 0x0d, 0xff, 0xe1, 0x00, 0x18, 0x67, 0x64, 0x00, 0x0d, 0xac, 0xd9, 0x41, 0x41, 0xfa, 0x10,
    0x00, 0x00, 0x03, 0x00, 0x10, 0x00, 0x00, 0x03, 0x03, 0x20, 0xf1, 0x42, 0x99, 0x60, 0x01, 0x00,
    0x06, 0x68, 0xeb, 0xe3, 0xcb, 0x22, 0xc0,
];

/// Returns an `stsd` with the `avc1` of two parameter sets and the audio entry `mp4a`.
fn stsd_of_video_and(alloc: Global, mp4a: Option<Mp4aBox>) -> Result<StsdBox, Error> {
    Ok(StsdBox {
        avc1: Some(avc1_of_two(alloc, 3)?),
        mp4a,
        ..StsdBox::default_in(alloc)
    })
}

/// Returns an audio entry that can't be written.
fn unwritable_mp4a() -> Mp4aBox {
    let mut mp4a = mp4a_of_test();
    if let Some(esds) = &mut mp4a.esds {
        esds.flags = 1 << 24;
    }
    mp4a
}

/// Only the `avc1` is written, so the audio entry need not be writable.
#[test]
fn stsd_without_an_entry_and_of_two(rt: HostRuntime) -> Result<(), Fail> {
    let alloc = rt.alloc();
    let alone = b"\0\0\0\x10stsd\0\0\0\0\0\0\0\0";
    let followed = b"\0\0\0\x10stsd\0\0\0\0\0\0\0\0\
\0\0\0\x24mp4a\0\0\0\0\0\0\0\x01\0\0\0\0\0\0\0\0\0\x02\0\x10\0\0\0\0\xbb\x80\0\0";
    made::round_trip(alloc, Ok(StsdBox::default_in(alloc)), alone)
        .and(made::value(alloc, Ok(StsdBox::default_in(alloc)), followed, 16))
        .and(made::normal_form(
            alloc,
            stsd_of_video_and(alloc, Some(mp4a_of(None))),
            stsd_of_video_and(alloc, None),
            &ONE_ENTRY,
        ))
        .and(made::normal_form(
            alloc,
            stsd_of_video_and(alloc, Some(unwritable_mp4a())),
            stsd_of_video_and(alloc, None),
            &ONE_ENTRY,
        ))?;
    assert_eq!(rt; type_and_size(alloc), (BoxType::StsdBox, 16));
    Ok(())
}

/// Returns the type and the size of an `stsd` without an entry.
fn type_and_size(alloc: Global) -> (BoxType, u64) {
    let none = StsdBox::default_in(alloc);
    (none.get_type(), none.get_size())
}
