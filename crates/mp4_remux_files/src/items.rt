//! The places of items in the file: the fields of an `iloc` (ISO/IEC 14496-12, 8.11.3).

ghost use Rattle.std.specs.Prelude.{◌≡◌, ◌≤◌, ◌++◌, IfOk, IfSome, OnOk};
ghost use Rattle.mp4_remux_files.specs.Fields.{before_reference, extent_fields, extent_size, file_fields, id_size};
ghost use Rattle.mp4_remux_files.specs.Fields.{index_size};
ghost use Rattle.mp4_remux_files.specs.Fields.{item_at, item_end, item_fields, item_from, items_fields, method_at};
ghost use Rattle.mp4_remux_files.specs.Fields.{place_fields, sizes_of};

use crate::field::{Field, front, push_each, push_field, push_none, still};
use crate::numbers::{NoFields, number_at};
use crate::shift::Shift;
use std::alloc::Global;

/// The version of an `iloc`, and the sizes of fields of its items in bytes.
#[derive(Clone, Copy, Debug, PartialEq, Eq)]
pub struct ItemSizes {
    /// The version of the box.
    pub version: u64,
    /// The size of the offset of an extent.
    pub offset: u64,
    /// The size of the length of an extent.
    pub length: u64,
    /// The size of the base offset of an item.
    pub base: u64,
    /// The size of the index of an extent.
    pub index: u64,
}

/// The place of an item. Positions are those in the content of the `iloc`.
#[derive(Clone, Copy, Debug, PartialEq, Eq)]
pub struct ItemPlace {
    /// The kind of the place: 0 for the file, 1 for the `idat`, and 2 for another item.
    pub method: u64,
    /// The number of the data reference, or 0 for this file.
    pub reference: u64,
    /// The position of the base offset.
    pub base: u64,
    /// The position of the first extent.
    pub extents: u64,
    /// The number of extents.
    pub count: u64,
}

/// Returns the size of the index of an extent in this version, by the byte of the `iloc` that has it.
fn index_size(version: u64, byte: u64) -> u64
    ensures { result ≡ index_size version byte }
{
    if version == 0 { 0 } else { byte % 16 }
}

/// Returns the version and the sizes of an `iloc` with the content `bytes`.
fn sizes_of(bytes: &[u8]) -> Option<ItemSizes>
    ensures { IfSome result (λ s. s ≡ sizes_of bytes.now) }
{
    let Some(version) = number_at(bytes, 0, 1) else {
        return None;
    };
    let Some(first) = number_at(bytes, 4, 1) else {
        return None;
    };
    let Some(second) = number_at(bytes, 5, 1) else {
        return None;
    };
    Some(ItemSizes {
        version,
        offset: first / 16,
        length: first % 16,
        base: second / 16,
        index: index_size(version, second),
    })
}

/// Returns the size of the number of an item.
fn id_size(sizes: ItemSizes) -> u64
    ensures size { result ≡ id_size sizes }
    ensures small { result ≤ 4 }
{
    if sizes.version < 2 { 2 } else { 4 }
}

/// Returns the number of bytes of an item before its data reference.
fn before_reference(sizes: ItemSizes) -> u64
    ensures size { result ≡ before_reference sizes }
    ensures small { result ≤ 6 }
{
    if sizes.version == 0 {
        id_size(sizes)
    } else {
        id_size(sizes) + 2
    }
}

/// Returns the kind of place of the item at position `at` of `bytes`.
fn method_at(sizes: ItemSizes, bytes: &[u8], at: u64) -> Option<u64>
    ensures { IfSome result (λ m. m ≡ method_at sizes bytes.now at) }
{
    if sizes.version == 0 {
        return Some(0);
    }
    let Some(place) = at.checked_add(id_size(sizes) + 1) else {
        return None;
    };
    match number_at(bytes, place, 1) {
        Some(byte) => Some(byte % 16),
        None => None,
    }
}

/// Returns the number of bytes of an extent, or `None` if it is past 2^64 - 1.
fn extent_size(sizes: ItemSizes) -> Option<u64>
    ensures { IfSome result (λ n. n ≡ extent_size sizes) }
{
    match sizes.index.checked_add(sizes.offset) {
        Some(size) => size.checked_add(sizes.length),
        None => None,
    }
}

/// Returns the place of the item at position `at` of `bytes`, whose base offset is at position `base`.
fn item_from(sizes: ItemSizes, bytes: &[u8], at: u64, base: u64) -> Option<ItemPlace>
    ensures { IfSome result (λ i. i ≡ item_from sizes bytes.now at base) }
{
    let Some(method) = method_at(sizes, bytes, at) else {
        return None;
    };
    let Some(place) = at.checked_add(before_reference(sizes)) else {
        return None;
    };
    let Some(reference) = number_at(bytes, place, 2) else {
        return None;
    };
    let Some(end) = base.checked_add(sizes.base) else {
        return None;
    };
    let Some(count) = number_at(bytes, end, 2) else {
        return None;
    };
    let Some(extents) = end.checked_add(2) else {
        return None;
    };
    Some(ItemPlace {
        method,
        reference,
        base,
        extents,
        count,
    })
}

/// Returns the place of the item at position `at` of `bytes`.
fn item_at(sizes: ItemSizes, bytes: &[u8], at: u64) -> Option<ItemPlace>
    ensures { IfSome result (λ i. i ≡ item_at sizes bytes.now at) }
{
    match at.checked_add(before_reference(sizes) + 2) {
        Some(base) => item_from(sizes, bytes, at, base),
        None => None,
    }
}

/// Returns the position after the last extent of `item`.
fn item_end(sizes: ItemSizes, item: ItemPlace) -> Option<u64>
    ensures { IfSome result (λ e. e ≡ item_end sizes item) }
{
    let Some(size) = extent_size(sizes) else {
        return None;
    };
    match item.count.checked_mul(size) {
        Some(length) => item.extents.checked_add(length),
        None => None,
    }
}

/// Adds the offsets of the extents of `item`, which count from `base`.
fn push_extents<F: Shift>(
    fields: &mut Vec<Field>,
    shift: &F,
    bytes: &[u8],
    sizes: ItemSizes,
    item: ItemPlace,
    base: u64,
) -> Result<(), NoFields>
    ensures { OnOk result (fields.new.items
        ≡ fields.old.items ++ extent_fields (F.after shift.now) bytes.now sizes item base) }
{
    let Some(stride) = extent_size(sizes) else {
        return Err(NoFields::Unknown);
    };
    let Some(at) = item.extents.checked_add(sizes.index) else {
        return Err(NoFields::Unknown);
    };
    push_each(
        fields,
        shift,
        still(base),
        bytes,
        sizes.offset,
        stride,
        item.count,
        at,
    )
}

/// Adds the fields of `item`, which is in this file by positions.
fn push_in_file<F: Shift>(
    fields: &mut Vec<Field>,
    shift: &F,
    bytes: &[u8],
    sizes: ItemSizes,
    item: ItemPlace,
) -> Result<(), NoFields>
    ensures { OnOk result (fields.new.items
        ≡ fields.old.items ++ file_fields (F.after shift.now) bytes.now sizes item) }
{
    if sizes.offset == 0 {
        return push_field(fields, shift, front(), bytes, sizes.base, item.base);
    }
    match number_at(bytes, item.base, sizes.base) {
        Some(base) => push_extents(fields, shift, bytes, sizes, item, base),
        None => Err(NoFields::Unknown),
    }
}

/// Adds the fields of `item`.
fn push_item<F: Shift>(
    fields: &mut Vec<Field>,
    shift: &F,
    bytes: &[u8],
    sizes: ItemSizes,
    item: ItemPlace,
) -> Result<(), NoFields>
    ensures { OnOk result (fields.new.items
        ≡ fields.old.items ++ item_fields (F.after shift.now) bytes.now sizes item) }
{
    if item.method == 1 || item.method == 2 {
        return push_none(fields);
    }
    if item.method == 0 && item.reference == 0 {
        return push_in_file(fields, shift, bytes, sizes, item);
    }
    Err(NoFields::Unknown)
}

/// Adds the fields of `count` items, of which the first is at position `at` of `bytes`.
fn push_items<F: Shift>(
    fields: &mut Vec<Field>,
    shift: &F,
    bytes: &[u8],
    sizes: ItemSizes,
    count: u64,
    at: u64,
) -> Result<(), NoFields>
    ensures { OnOk result (fields.new.items
        ≡ fields.old.items ++ items_fields (F.after shift.now) bytes.now sizes count at) }
{
    let mut left = count;
    let mut begin = at;
    while left > 0 {
        let Some(item) = item_at(sizes, bytes, begin) else {
            return Err(NoFields::Unknown);
        };
        match push_item(fields, shift, bytes, sizes, item) {
            Ok(()) => {}
            Err(fault) => return Err(fault),
        }
        match item_end(sizes, item) {
            Some(next) => begin = next,
            None => return Err(NoFields::Unknown),
        }
        left -= 1;
    }
    Ok(())
}

/// Adds the fields of an `iloc` with the content `bytes`.
pub fn push_places<F: Shift>(
    fields: &mut Vec<Field>,
    shift: &F,
    bytes: &[u8],
) -> Result<(), NoFields>
    ensures { OnOk result (fields.new.items ≡ fields.old.items ++ place_fields (F.after shift.now) bytes.now) }
{
    let Some(sizes) = sizes_of(bytes) else {
        return Err(NoFields::Unknown);
    };
    if sizes.version > 2 {
        return Err(NoFields::Unknown);
    }
    if sizes.version == 2 {
        return match number_at(bytes, 6, 4) {
            Some(count) => push_items(fields, shift, bytes, sizes, count, 10),
            None => Err(NoFields::Unknown),
        };
    }
    match number_at(bytes, 6, 2) {
        Some(count) => push_items(fields, shift, bytes, sizes, count, 8),
        None => Err(NoFields::Unknown),
    }
}

/// Returns the fields of an `iloc` with the content `bytes`.
pub fn places<F: Shift>(alloc: Global, shift: &F, bytes: &[u8]) -> Result<Vec<Field>, NoFields>
    ensures { IfOk result (λ fields. fields.items ≡ place_fields (F.after shift.now) bytes.now) }
{
    let mut fields = Vec::new(alloc);
    match push_places(&mut fields, shift, bytes) {
        Ok(()) => Ok(fields),
        Err(fault) => Err(fault),
    }
}
