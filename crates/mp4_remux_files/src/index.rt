//! The fields of a `sidx`: the sizes of parts of the media (ISO/IEC 14496-12, 8.16.3).

ghost use Rattle.std.specs.Prelude.{◌≡◌, ◌+◌, ◌<◌, ◌≤◌, ◌^◌, ◌++◌, IfSome, OnOk};
ghost use Rattle.mp4_remux_files.specs.Fields.{distance, end_after, end_of, index_by, index_fields, part_field};
ghost use Rattle.mp4_remux_files.specs.Fields.{part_fields, part_number, part_size};

use crate::field::{Anchor, Field, push, push_field};
use crate::numbers::{NoFields, number_at, position_after, short_at, wide_by};
use crate::shift::Shift;
use mp4_walk::TreeBox;

/// A part of the media that an index has.
#[derive(Clone, Copy)]
struct Part {
    /// The field with its size.
    pub field: Field,
    /// The position after its last byte.
    pub end: u64,
}

/// Returns the position after the change of the end of a part from position `begin` to `end`. It is that of the next
/// part, if this isn't the last one.
fn end_after<F: Shift>(shift: &F, begin: u64, end: u64, is_last: bool) -> Option<u64>
    ensures { IfSome result (λ e. e ≡ end_after (F.after shift.now) begin end is_last) }
{
    if is_last && begin < end {
        match shift.shifted(end - 1) {
            Some(place) => place.checked_add(1),
            None => None,
        }
    } else {
        shift.shifted(end)
    }
}

/// Returns the number of bytes after the change of a part from position `begin` to `end`, or `None` if it needs more
/// than 31 bits.
fn size_after<F: Shift>(shift: &F, begin: u64, end: u64, is_last: bool) -> Option<u64>
    ensures size { IfSome result (λ n. n ≡ distance (F.after shift.now begin)
        (end_after (F.after shift.now) begin end is_last)) }
    ensures small { IfSome result (λ n. n < 2 ^ 31) }
{
    let Some(start) = shift.shifted(begin) else {
        return None;
    };
    let Some(stop) = end_after(shift, begin, end, is_last) else {
        return None;
    };
    match stop.checked_sub(start) {
        Some(size) => { if size < 0x8000_0000 { Some(size) } else { None } }
        None => None,
    }
}

/// Returns `old` with `size` in its lowest 31 bits.
fn part_number(old: u64, size: u64) -> u64
    requires old { old < 2 ^ 32 }
    requires size { size < 2 ^ 31 }
    ensures { result ≡ part_number old size }
{
    old / 0x8000_0000 * 0x8000_0000 + size
}

/// Returns the part at position `begin` of the file whose size is at position `at` of `bytes`.
fn part_at<F: Shift>(shift: &F, bytes: &[u8], at: u64, begin: u64, is_last: bool) -> Option<Part>
    ensures field { IfSome result (λ p. p.field ≡ part_field (F.after shift.now) bytes.now at begin is_last) }
    ensures end { IfSome result (λ p. p.end ≡ begin + part_size bytes.now at) }
{
    let Some(old) = short_at(bytes, at) else {
        return None;
    };
    let Some(end) = begin.checked_add(old % 0x8000_0000) else {
        return None;
    };
    match size_after(shift, begin, end, is_last) {
        Some(size) => Some(Part {
            field: Field {
                begin: at,
                width: 4,
                value: part_number(old, size),
            },
            end,
        }),
        None => None,
    }
}

/// Adds the sizes of `count` parts, one after the other. The first size is at position `at` of `bytes`, and the first
/// part at position `first` of the file.
fn push_parts<F: Shift>(
    fields: &mut Vec<Field>,
    shift: &F,
    bytes: &[u8],
    count: u64,
    at: u64,
    first: u64,
) -> Result<(), NoFields>
    ensures { OnOk result (fields.new.items
        ≡ fields.old.items ++ part_fields (F.after shift.now) bytes.now count at first) }
{
    let mut left = count;
    let mut begin = at;
    let mut place = first;
    while left > 0 {
        left -= 1;
        let Some(part) = part_at(shift, bytes, begin, place, left == 0) else {
            return Err(NoFields::Unknown);
        };
        match push(fields, part.field) {
            Ok(()) => place = part.end,
            Err(error) => return Err(NoFields::from(error)),
        }
        match position_after(begin, 12) {
            Some(next) => begin = next,
            None => return Err(NoFields::Unknown),
        }
    }
    Ok(())
}

/// Adds the fields of a `sidx` that counts from `anchor` and has offsets of `width` bytes.
#[tactic(auto, using(crate::proofs::FieldLists::then_others))]
fn push_index_by<F: Shift>(
    fields: &mut Vec<Field>,
    shift: &F,
    anchor: Anchor,
    bytes: &[u8],
    width: u64,
) -> Result<(), NoFields>
    requires { width ≤ 8 }
    ensures { OnOk result (fields.new.items
        ≡ fields.old.items ++ index_by (F.after shift.now) anchor bytes.now width) }
{
    let Some(offset) = number_at(bytes, 12 + width, width) else {
        return Err(NoFields::Unknown);
    };
    let Some(count) = number_at(bytes, 14 + 2 * width, 2) else {
        return Err(NoFields::Unknown);
    };
    let Some(first) = anchor.before.checked_add(offset) else {
        return Err(NoFields::Unknown);
    };
    push_field(fields, shift, anchor, bytes, width, 12 + width)?;
    push_parts(fields, shift, bytes, count, 16 + 2 * width, first)?;
    Ok(())
}

/// Returns the end of `found`, a `sidx`, before and after the change.
fn end_of<F: Shift>(shift: &F, found: &TreeBox) -> Option<Anchor>
    ensures { IfSome result (λ a. a ≡ end_of (F.after shift.now) found.now) }
{
    let Some(place) = shift.shifted(found.position) else {
        return None;
    };
    let Some(before) = found.position.checked_add(found.length) else {
        return None;
    };
    match place.checked_add(found.length) {
        Some(after) => Some(Anchor { before, after }),
        None => None,
    }
}

/// Adds the fields of `found`, a `sidx` with the content `bytes`.
pub fn push_index<F: Shift>(
    fields: &mut Vec<Field>,
    shift: &F,
    bytes: &[u8],
    found: &TreeBox,
) -> Result<(), NoFields>
    ensures { OnOk result (fields.new.items
        ≡ fields.old.items ++ index_fields (F.after shift.now) bytes.now found.now) }
{
    let Some(version) = number_at(bytes, 0, 1) else {
        return Err(NoFields::Unknown);
    };
    let Some(anchor) = end_of(shift, found) else {
        return Err(NoFields::Unknown);
    };
    push_index_by(fields, shift, anchor, bytes, wide_by(version))
}
