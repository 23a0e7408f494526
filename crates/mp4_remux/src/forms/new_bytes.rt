//! New bytes of boxes that hold boxes, and of boxes whose rows are made elsewhere.

use crate::forms::refusal::{FormRefusal, FormStop, unwritten};
use mp4_frame::{FourCC, WriteBox, put_u32, put_u64};
use std::alloc::AllocError;

/// Appends four bytes.
pub(crate) fn push_u32(out: &mut Vec<u8>, number: u32) -> Result<(), AllocError> {
    out.extend_from_slice(&number.to_be_bytes())
}

/// Appends eight bytes.
pub(crate) fn push_u64(out: &mut Vec<u8>, number: u64) -> Result<(), AllocError> {
    out.extend_from_slice(&number.to_be_bytes())
}

/// Appends a header with `code`, whose size is set later, and returns its index.
pub(crate) fn begin_box(out: &mut Vec<u8>, code: u32) -> Result<usize, AllocError> {
    let at = out.len();
    push_u32(out, 0)?;
    push_u32(out, code)?;
    Ok(at)
}

/// Puts `number` at the index `at` of `out`, if there is room.
pub(crate) fn set_u32(out: &mut [u8], at: usize, number: u32) {
    if at <= out.len() && out.len() - at >= 4 {
        put_u32(out, at, number);
    }
}

/// Puts `number` at the index `at` of `out`, if there is room.
pub(crate) fn set_u64(out: &mut [u8], at: usize, number: u64) {
    if at <= out.len() && out.len() - at >= 8 {
        put_u64(out, at, number);
    }
}

/// Sets the size of the box that begins at the index `at` of `out`, and ends where `out` does.
pub(crate) fn end_box(out: &mut Vec<u8>, at: usize, code: u32) -> Result<(), FormStop> {
    let Ok(size) = u32::try_from(out.len().saturating_sub(at) as u64) else {
        return Err(FormStop::Refused(FormRefusal::Size(FourCC::from(code))));
    };
    set_u32(out.as_mut_slice(), at, size);
    Ok(())
}

/// Appends a box. `code` names it in a refusal.
pub(crate) fn push_box<B: WriteBox>(
    out: &mut Vec<u8>,
    value: &B,
    code: u32,
) -> Result<(), FormStop> {
    match value.write_box(out) {
        Ok(_) => Ok(()),
        Err(error) => Err(unwritten(&error, code)),
    }
}

/// Returns the number of bytes of the header of an `mdat` with `length` bytes of data.
pub(crate) fn media_header_length(length: u64) -> u64 {
    if length <= u64::from(u32::MAX) - 8 {
        8
    } else {
        16
    }
}

/// Appends the header of an `mdat` with `length` bytes of data.
pub(crate) fn push_media_header(out: &mut Vec<u8>, length: u64) -> Result<(), AllocError> {
    match u32::try_from(length.saturating_add(8)) {
        Ok(size) => {
            push_u32(out, size)?;
            push_u32(out, mp4_frame::codes::MDAT)
        }
        Err(_) => {
            push_u32(out, 1)?;
            push_u32(out, mp4_frame::codes::MDAT)?;
            push_u64(out, length.saturating_add(16))
        }
    }
}
