//! The fields of a box that lead to bytes of the file, and their numbers after a change.

ghost use Rattle.std.specs.Prelude.{◌≡◌, ◌≤◌, ◌++◌, IfOk, IfSome, OnOk};
ghost use Rattle.mp4_remux_files.specs.Fields.{access_fields, access_stride, auxiliary_by, auxiliary_fields};
ghost use Rattle.mp4_remux_files.specs.Fields.{base_anchor, base_fields, before_count, fields_in, has_fields};
ghost use Rattle.mp4_remux_files.specs.Fields.{top_place_fields};

use crate::field::{Anchor, Field, front, push_each, push_field, push_none};
use crate::fragment::Fragment;
use crate::index::push_index;
use crate::items::push_places;
use crate::numbers::{NoFields, is_flagged, number_at, wide_by};
use crate::shift::Shift;
use mp4_frame::{FourCC, codes};
use mp4_walk::TreeBox;
use std::alloc::Global;

/// Returns the number of bytes of an entry of a `tfra` with times of `width` bytes. `sizes` is the byte with the sizes
/// of its other numbers.
fn access_stride(width: u64, sizes: u64) -> u64
    requires { width ≤ 8 }
    ensures { result ≡ access_stride width sizes }
{
    2 * width + 3 + sizes / 16 % 4 + sizes / 4 % 4 + sizes % 4
}

/// Adds the fields of a `tfra` with the content `bytes`.
fn push_accesses<F: Shift>(fields: &mut Vec<Field>, shift: &F, bytes: &[u8]) -> Result<(), NoFields>
    ensures { OnOk result (fields.new.items ≡ fields.old.items ++ access_fields (F.after shift.now) bytes.now) }
{
    let Some(version) = number_at(bytes, 0, 1) else {
        return Err(NoFields::Unknown);
    };
    let Some(sizes) = number_at(bytes, 11, 1) else {
        return Err(NoFields::Unknown);
    };
    let Some(count) = number_at(bytes, 12, 4) else {
        return Err(NoFields::Unknown);
    };
    let width = wide_by(version);
    let stride = access_stride(width, sizes);
    push_each(
        fields,
        shift,
        front(),
        bytes,
        width,
        stride,
        count,
        16 + width,
    )
}

/// Adds the field of a `tfhd` with the content `bytes`, if it has a base.
fn push_base<F: Shift>(fields: &mut Vec<Field>, shift: &F, bytes: &[u8]) -> Result<(), NoFields>
    ensures { OnOk result (fields.new.items ≡ fields.old.items ++ base_fields (F.after shift.now) bytes.now) }
{
    match is_flagged(bytes) {
        Some(has_base) => {
            if has_base {
                push_field(fields, shift, front(), bytes, 8, 8)
            } else {
                push_none(fields)
            }
        }
        None => Err(NoFields::Unknown),
    }
}

/// Returns the base `base` of a fragment before and after the change, if it is known.
fn base_anchor<F: Shift>(shift: &F, base: u64) -> Option<Anchor>
    ensures { IfSome result (λ a. a ≡ base_anchor (F.after shift.now) base) }
{
    match shift.shifted(base) {
        Some(after) => Some(Anchor {
            before: base,
            after,
        }),
        None => None,
    }
}

/// Returns the number of bytes before the count of a `saio` with the content `bytes`.
fn before_count(bytes: &[u8]) -> Option<u64>
    ensures count { IfSome result (λ n. n ≡ before_count bytes.now) }
    ensures small { IfSome result (λ n. n ≤ 12) }
{
    match is_flagged(bytes) {
        Some(has_type) => { if has_type { Some(12) } else { Some(4) } }
        None => None,
    }
}

/// Adds the fields of a `saio` that count from `anchor`. Its count is at position `at` of `bytes`.
fn push_auxiliary_by<F: Shift>(
    fields: &mut Vec<Field>,
    shift: &F,
    anchor: Anchor,
    bytes: &[u8],
    width: u64,
    at: u64,
) -> Result<(), NoFields>
    requires { at ≤ 12 }
    ensures { OnOk result (fields.new.items
        ≡ fields.old.items ++ auxiliary_by (F.after shift.now) anchor bytes.now width at) }
{
    match number_at(bytes, at, 4) {
        Some(count) => push_each(fields, shift, anchor, bytes, width, width, count, at + 4),
        None => Err(NoFields::Unknown),
    }
}

/// Adds the fields of a `saio` in a fragment with the base `base`. `bytes` are its content.
fn push_auxiliary<F: Shift>(
    fields: &mut Vec<Field>,
    shift: &F,
    base: Option<u64>,
    bytes: &[u8],
) -> Result<(), NoFields>
    ensures { OnOk result (fields.new.items
        ≡ fields.old.items ++ auxiliary_fields (F.after shift.now) base bytes.now) }
{
    let Some(base) = base else {
        return Err(NoFields::Unknown);
    };
    let Some(anchor) = base_anchor(shift, base) else {
        return Err(NoFields::Unknown);
    };
    let Some(version) = number_at(bytes, 0, 1) else {
        return Err(NoFields::Unknown);
    };
    let Some(at) = before_count(bytes) else {
        return Err(NoFields::Unknown);
    };
    push_auxiliary_by(fields, shift, anchor, bytes, wide_by(version), at)
}

/// Returns whether a box with the code of `found` may have fields that lead to bytes of the file, if it is outside the
/// `moov`.
pub fn has_fields(found: &TreeBox) -> bool
    ensures { result ≡ has_fields found.now }
{
    found.has_code(FourCC::from(codes::ILOC))
        || found.has_code(FourCC::from(codes::TFRA))
        || found.has_code(FourCC::from(codes::SAIO))
        || found.has_code(FourCC::from(codes::SIDX))
        || found.has_code(FourCC::from(codes::TFHD))
}

/// Adds the fields of an `iloc` outside the `moov`, with the content `bytes`. Those in a fragment are not known.
fn push_top_places<F: Shift>(
    fields: &mut Vec<Field>,
    shift: &F,
    fragment: Fragment,
    bytes: &[u8],
) -> Result<(), NoFields>
    ensures { OnOk result (fields.new.items
        ≡ fields.old.items ++ top_place_fields (F.after shift.now) fragment bytes.now) }
{
    match fragment.moof {
        Some(_) => Err(NoFields::Unknown),
        None => push_places(fields, shift, bytes),
    }
}

/// Adds the fields of `found`, a box of `fragment` outside the `moov` with the content `bytes`.
fn push_fields<F: Shift>(
    fields: &mut Vec<Field>,
    shift: &F,
    fragment: Fragment,
    bytes: &[u8],
    found: &TreeBox,
) -> Result<(), NoFields>
    ensures { OnOk result (fields.new.items
        ≡ fields.old.items ++ fields_in (F.after shift.now) fragment bytes.now found.now) }
{
    if found.has_code(FourCC::from(codes::ILOC)) {
        return push_top_places(fields, shift, fragment, bytes);
    }
    if found.has_code(FourCC::from(codes::TFRA)) {
        return push_accesses(fields, shift, bytes);
    }
    if found.has_code(FourCC::from(codes::SAIO)) {
        return push_auxiliary(fields, shift, fragment.base, bytes);
    }
    if found.has_code(FourCC::from(codes::SIDX)) {
        return push_index(fields, shift, bytes, found);
    }
    if found.has_code(FourCC::from(codes::TFHD)) {
        return push_base(fields, shift, bytes);
    }
    push_none(fields)
}

/// Returns the fields of `found`, a box of `fragment` outside the `moov` with the content `bytes`.
pub fn fields_in<F: Shift>(
    alloc: Global,
    shift: &F,
    fragment: Fragment,
    bytes: &[u8],
    found: &TreeBox,
) -> Result<Vec<Field>, NoFields>
    ensures { IfOk result
        (λ fields. fields.items ≡ fields_in (F.after shift.now) fragment bytes.now found.now) }
{
    let mut fields = Vec::new(alloc);
    match push_fields(&mut fields, shift, fragment, bytes, found) {
        Ok(()) => Ok(fields),
        Err(fault) => Err(fault),
    }
}
