//! The normal form of a stream, made in the vector that it is in.

use mp4_normal::{normal_form, normalize};
use mp4_stream::Error;
use std::alloc::Global;
use std::test::Fail;

/// A free box with a size of 64 bits, and a box of 8 bytes.
const LARGE_FIRST: [u8; 25] = *b"\0\0\0\x01free\0\0\0\0\0\0\0\x11x\0\0\0\x08skip";

/// The normal form of `LARGE_FIRST`.
const SMALL_FIRST: [u8; 17] = *b"\0\0\0\x09freex\0\0\0\x08skip";

/// Returns whether `bytes` stay unchanged when their normal form is refused with end of input.
fn stays_as_it_was(alloc: Global, bytes: &[u8]) -> Result<bool, Error> {
    let mut stream = Vec::from_slice(alloc, bytes)?;
    let refused = matches!(normalize(alloc, &mut stream), Err(Error::IoError));
    Ok(refused && stream.as_slice() == bytes)
}

#[test]
fn a_first_box_that_changes_stays_if_the_last_one_is_cut(rt: HostRuntime) -> Result<(), Fail> {
    assert!(rt; stays_as_it_was(rt.alloc(), &LARGE_FIRST[..24])?);
    Ok(())
}

#[test]
fn a_copy_has_the_normal_form_too(rt: HostRuntime) -> Result<(), Fail> {
    let out = normal_form(rt.alloc(), &LARGE_FIRST)?;
    assert!(rt; out.as_slice() == SMALL_FIRST.as_slice());
    Ok(())
}
