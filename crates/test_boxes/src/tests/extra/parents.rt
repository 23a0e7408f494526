//! Boxes that hold boxes.

use crate::tests::extra::{Ending, bytes_of, declared_ending, ending_of};
use example_boxes::shapes::{Inner, Outer, Trep};
use mp4_box_tree::DeclaredContainer;
use mp4_stream::KeptBox;
use mp4_stream::author::Declared;
use std::alloc::{AllocError, Global};

/// A `trep` inside a `trep`.
type Nested = DeclaredContainer<Trep, DeclaredContainer<Trep, KeptBox>>;

/// Returns fields with these `flags`.
fn trep(flags: u32) -> Trep {
    Trep {
        version: 0,
        flags,
        track_id: 1,
    }
}

/// Writes a `trep` with the flags `outer` and a `trep` with the flags `inner` inside, and returns the ending.
fn nested(alloc: Global, outer: u32, inner: u32) -> Result<Ending, AllocError> {
    let mut boxes = Vec::new(alloc);
    boxes.push(DeclaredContainer::new(trep(inner), Vec::new(alloc).into()))?;
    let value = Nested::new(trep(outer), boxes.into());
    Ok(ending_of(alloc, &value))
}

/// Writes a box with an inner box with this `name`, and returns the ending.
fn outer(alloc: Global, name: &[u8]) -> Result<Ending, AllocError> {
    let name = bytes_of(alloc, name)?;
    let inner = Declared::new(Inner { name, number: 0 });
    Ok(declared_ending(
        alloc,
        Outer {
            first: 0,
            inner,
            last: 0,
        },
    ))
}

#[test]
fn boxes_in_boxes_that_do_not_fit(rt: HostRuntime) {
    let alloc = rt.alloc();
    let endings = [
        nested(alloc, 0xFF_FFFF, 0xFF_FFFF),
        nested(alloc, 1 << 24, 0),
        nested(alloc, 0, 1 << 24),
        outer(alloc, &[0x81; 255]),
        outer(alloc, &[0x81; 256]),
    ];
    let expected = [
        Ok(Ending::Written),
        Ok(Ending::Unfit),
        Ok(Ending::Unfit),
        Ok(Ending::Written),
        Ok(Ending::Unfit),
    ];
    assert!(rt; endings == expected);
}
