//! An `ExtraBox` made of a box of its subject, and taken apart again.

use crate::tests::extra::{Ending, ending_of};
use mp4_extra::{ExtraBox, PictureBox, TrackBox};
use mp4_extra_pictures::pasp::{Pasp, PaspBox};
use mp4_extra_tracks::frma::{Frma, FrmaBox};
use mp4_stream::FourCC;
use std::alloc::Global;

/// Makes a box of pictures, the first subject.
fn picture() -> ExtraBox {
    let pasp = Pasp {
        h_spacing: 0x8182_8384,
        v_spacing: 0x8586_8788,
    };
    ExtraBox::Picture(PictureBox::PaspBox(PaspBox::new(pasp)))
}

/// Makes a box of tracks, the last subject.
fn track() -> ExtraBox {
    let frma = Frma {
        data_format: FourCC { value: *b"avc1" },
    };
    ExtraBox::Track(TrackBox::FrmaBox(FrmaBox::new(frma)))
}

/// Returns whether the box inside is that of `picture`.
fn is_picture(made: &ExtraBox) -> bool {
    match made {
        ExtraBox::Picture(PictureBox::PaspBox(pasp)) => pasp.v_spacing == 0x8586_8788,
        _ => false,
    }
}

/// Returns whether the box inside is that of `track`.
fn is_track(made: &ExtraBox) -> bool {
    match made {
        ExtraBox::Track(TrackBox::FrmaBox(frma)) => frma.data_format.value == *b"avc1",
        _ => false,
    }
}

/// Returns whether `picture` is written and taken apart.
fn first_subject(alloc: Global) -> bool {
    let made = picture();
    ending_of(alloc, &made) == Ending::Written && is_picture(&made)
}

/// Returns whether `track` is written and taken apart.
fn last_subject(alloc: Global) -> bool {
    let made = track();
    ending_of(alloc, &made) == Ending::Written && is_track(&made)
}

#[test]
fn boxes_by_subject(rt: HostRuntime) {
    let alloc = rt.alloc();
    assert!(rt; first_subject(alloc));
    assert!(rt; last_subject(alloc));
}
