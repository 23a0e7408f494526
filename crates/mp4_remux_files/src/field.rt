//! Fields that lead to bytes of the file, and their numbers after a change.

ghost use Rattle.std.specs.Prelude.{◌≡◌, ◌++◌, ◌∷◌, [], IfSome, OnOk};
ghost use Rattle.mp4_remux_files.specs.Fields.{counted, each_field, field_at, front, still};

use crate::numbers::{NoFields, number_at, position_after};
use crate::shift::Shift;
use std::alloc::AllocError;

/// A field of a box that leads to a byte of the file. Positions are those in the content of the box.
#[derive(Clone, Copy, Debug, PartialEq, Eq)]
pub struct Field {
    /// The position of its first byte.
    pub begin: u64,
    /// The number of its bytes.
    pub width: u64,
    /// Its number after the change.
    pub value: u64,
}

/// The positions in the file from which the number of a field counts.
#[derive(Clone, Copy, Debug, PartialEq, Eq)]
pub struct Anchor {
    /// The position before the change.
    pub before: u64,
    /// The position after the change.
    pub after: u64,
}

/// Returns the front of the file.
pub fn front() -> Anchor
    ensures { result ≡ front }
{
    Anchor {
        before: 0,
        after: 0,
    }
}

/// Adds `field` to `fields`.
pub fn push(fields: &mut Vec<Field>, field: Field) -> Result<(), AllocError>
    ensures { OnOk result (fields.new.items ≡ fields.old.items ++ field ∷ []) }
{
    fields.push(field)?;
    Ok(())
}

/// Returns the number after the change in place of `number`, which counts from `anchor`. Returns `None` if it would be
/// below 0 or past 2^64 - 1.
fn counted<F: Shift>(shift: &F, anchor: Anchor, number: u64) -> Option<u64>
    ensures { IfSome result (λ n. n ≡ counted (F.after shift.now) anchor number) }
{
    match anchor.before.checked_add(number) {
        Some(offset) => match shift.shifted(offset) {
            Some(place) => place.checked_sub(anchor.after),
            None => None,
        },
        None => None,
    }
}

/// Returns the field of `width` bytes at position `at` of `bytes`, which counts from `anchor`.
fn field_at<F: Shift>(shift: &F, anchor: Anchor, bytes: &[u8], width: u64, at: u64) -> Option<Field>
    ensures { IfSome result (λ f. f ≡ field_at (F.after shift.now) anchor bytes.now width at) }
{
    match number_at(bytes, at, width) {
        Some(before) => match counted(shift, anchor, before) {
            Some(value) => Some(Field {
                begin: at,
                width,
                value,
            }),
            None => None,
        },
        None => None,
    }
}

/// Adds no field.
pub fn push_none(fields: &mut Vec<Field>) -> Result<(), NoFields>
    ensures { OnOk result (fields.new.items ≡ fields.old.items ++ []) }
{
    Ok(())
}

/// Returns the position `base`, from which numbers count before and after the change.
pub fn still(base: u64) -> Anchor
    ensures { result ≡ still base }
{
    Anchor {
        before: base,
        after: base,
    }
}

/// Adds the field of `width` bytes at position `at` of `bytes`, which counts from `anchor`.
pub fn push_field<F: Shift>(
    fields: &mut Vec<Field>,
    shift: &F,
    anchor: Anchor,
    bytes: &[u8],
    width: u64,
    at: u64,
) -> Result<(), NoFields>
    ensures { OnOk result (fields.new.items
        ≡ fields.old.items ++ field_at (F.after shift.now) anchor bytes.now width at ∷ []) }
{
    match field_at(shift, anchor, bytes, width, at) {
        Some(field) => match push(fields, field) {
            Ok(()) => Ok(()),
            Err(error) => Err(NoFields::from(error)),
        },
        None => Err(NoFields::Unknown),
    }
}

/// Adds `count` fields of `width` bytes, which count from `anchor`. The first is at position `at` of `bytes`, and each
/// is `stride` bytes after the one before.
pub fn push_each<F: Shift>(
    fields: &mut Vec<Field>,
    shift: &F,
    anchor: Anchor,
    bytes: &[u8],
    width: u64,
    stride: u64,
    count: u64,
    at: u64,
) -> Result<(), NoFields>
    ensures { OnOk result (fields.new.items
        ≡ fields.old.items ++ each_field (F.after shift.now) anchor bytes.now width stride count at) }
{
    let mut left = count;
    let mut begin = at;
    while left > 0 {
        match push_field(fields, shift, anchor, bytes, width, begin) {
            Ok(()) => {}
            Err(fault) => return Err(fault),
        }
        match position_after(begin, stride) {
            Some(next) => begin = next,
            None => return Err(NoFields::Unknown),
        }
        left -= 1;
    }
    Ok(())
}
