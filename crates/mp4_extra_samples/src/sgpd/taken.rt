//! Takes the box back out of its JSON.

ghost use Rattle.mp4_declared.specs.OwnBox.{no_context};
ghost use Rattle.mp4_extra_samples.specs.declared.sgpd.TheConstants as sgpd;
ghost use Rattle.std.specs.Prelude.{◌≡◌, ℕ, ◌<◌, ◌^◌, ◌++◌, IfOk, length, map, slice_index};
ghost use Rattle.mp4_frame.specs.Bytes.{be_bytes};
ghost use Rattle.mp4_shown.specs.Numbers.{seen_number};
ghost use Rattle.mp4_shown.specs.Object.{left};
ghost use Rattle.mp4_extra_samples.specs.TakenSgpd.{bit_taken, counted_description, description_members};
ghost use Rattle.mp4_extra_samples.specs.TakenSgpd.{description_taken, kind_taken, roll_taken, sized_bytes};
ghost use Rattle.mp4_extra_samples.specs.TakenSgpd.{sized_description};
ghost use Rattle.mp4_extra_samples.specs.TakenSgpd.{encryption_bytes, encryption_taken, encryption_widths};
ghost use Rattle.mp4_extra_samples.specs.TakenSgpd.{fields_or_bytes, key_taken, sgpd_taken};
ghost use Rattle.mp4_shown.specs.Taking.{TakesAs};

use super::{
    CONSTANT_IV, DESCRIPTION_LENGTH, Descriptions, ENCRYPTION, GroupKind, KID, LEADING, LEVEL,
    ROLL_DISTANCE, Sgpd, UNKNOWN, kind_of, usual_size,
};
use crate::sgpd;
use json::Value;
use mp4_declared::{Code, FromVersion, Full, If, Last, U32};
use mp4_frame::Entries;
use mp4_shown::NumberName;
use mp4_shown::taken::{
    NO_CONTEXT, Object, Reason, Result, TakeFields, TakePieces, TakeShape, end_object, object_in,
    push_number, refuse, take_bytes, take_count, take_numbers, take_pieces, take_signed,
};
use std::alloc::{AllocError, Global};

/// The fields before the descriptions.
type Front = Full<
    3,
    (
        Code,
        If<FromVersion<1>, U32>,
        If<FromVersion<2>, U32>,
        Last<U32>,
    ),
>;

/// Takes a bit and the seven bits after it out.
fn take_bit_and_rest(
    alloc: Global,
    names: &[NumberName],
    object: &mut Object<'_>,
) -> Result<Vec<u8>>
    ensures { TakesAs (λ bytes. (bytes.items, left object.new)) result
        (bit_taken (map seen_number names.now) (left object.old)) }
{
    let numbers = take_numbers(alloc, names, &[1, 7], object)?;
    let mut bytes = Vec::new(alloc);
    push_number(numbers[0] * 128 + numbers[1], 1, &mut bytes)?;
    Ok(bytes)
}

/// Returns the bytes of the numbers of a `seig`.
#[tactic(auto, unfolding(mp4_frame::specs::Bytes::bytes_of_fields, mp4_frame::specs::Bytes::bytes_of_fields_onto))]
fn encryption_bytes(alloc: Global, numbers: &[u64; 5]) -> std::result::Result<Vec<u8>, AllocError>
    requires { (k : ℕ) → slice_index numbers.now k < 2 ^ slice_index encryption_widths k }
    ensures { IfOk result (λ bytes. bytes.items ≡ encryption_bytes numbers.now) }
{
    let mut bytes = Vec::new(alloc);
    push_number(numbers[0], 1, &mut bytes)?;
    push_number(numbers[1] * 16 + numbers[2], 1, &mut bytes)?;
    push_number(numbers[3], 1, &mut bytes)?;
    push_number(numbers[4], 1, &mut bytes)?;
    Ok(bytes)
}

/// Takes the key of a `seig` out.
fn take_key(alloc: Global, object: &mut Object<'_>) -> Result<Vec<u8>>
    ensures { TakesAs (λ bytes. (bytes.items, left object.new)) result (key_taken (left object.old)) }
{
    let key = take_bytes(alloc, KID, object)?;
    if key.len() != 16 {
        return Err(refuse(alloc, KID.0, Reason::WrongLength));
    }
    Ok(key)
}

/// Takes the fields of a `seig` out.
fn take_encryption(alloc: Global, object: &mut Object<'_>) -> Result<Vec<u8>>
    ensures { TakesAs (λ bytes. (bytes.items, left object.new)) result (encryption_taken (left object.old)) }
{
    let numbers = take_numbers(alloc, ENCRYPTION, &[8, 4, 4, 8, 8], object)?;
    let mut bytes = encryption_bytes(alloc, &numbers)?;
    let key = take_key(alloc, object)?;
    bytes.extend_from_slice(key.as_slice())?;
    if numbers[3] == 1 && numbers[4] == 0 {
        let constant = take_bytes(alloc, CONSTANT_IV, object)?;
        bytes.extend_from_slice(constant.as_slice())?;
    }
    Ok(bytes)
}

/// Takes the distance of a `roll` out.
fn take_roll(alloc: Global, object: &mut Object<'_>) -> Result<Vec<u8>>
    ensures { TakesAs (λ bytes. (bytes.items, left object.new)) result (roll_taken (left object.old)) }
{
    let distance = take_signed(alloc, ROLL_DISTANCE, -(1 << 15), (1 << 15) - 1, object)?;
    let mut bytes = Vec::new(alloc);
    push_number(distance.cast_unsigned(), 2, &mut bytes)?;
    Ok(bytes)
}

/// Takes the fields of a description of this `kind` out.
fn take_kind(alloc: Global, kind: GroupKind, object: &mut Object<'_>) -> Result<Vec<u8>>
    ensures { TakesAs (λ bytes. (bytes.items, left object.new)) result (kind_taken kind (left object.old)) }
{
    match kind {
        GroupKind::Roll => take_roll(alloc, object),
        GroupKind::RandomAccess => take_bit_and_rest(alloc, LEADING, object),
        GroupKind::Level => take_bit_and_rest(alloc, LEVEL, object),
        GroupKind::Encryption => take_encryption(alloc, object),
        GroupKind::Unknown => take_bytes(alloc, UNKNOWN, object),
    }
}

/// Takes a description of this `kind` out: its fields, or bytes.
fn take_description(alloc: Global, kind: GroupKind, object: &mut Object<'_>) -> Result<Vec<u8>>
    ensures { TakesAs (λ bytes. (bytes.items, left object.new)) result (fields_or_bytes kind (left object.old)) }
{
    if object.has(UNKNOWN.0) {
        take_bytes(alloc, UNKNOWN, object)
    } else {
        take_kind(alloc, kind, object)
    }
}

/// Returns a description after its length, which has 32 bits.
fn counted_bytes(alloc: Global, description: &[u8]) -> std::result::Result<Vec<u8>, AllocError>
    ensures { IfOk result (λ bytes. bytes.items ≡ be_bytes 4 (length description.now) ++ description.now) }
{
    let mut bytes = Vec::new(alloc);
    push_number(description.len() as u64, 4, &mut bytes)?;
    bytes.extend_from_slice(description)?;
    Ok(bytes)
}

/// Takes the length of a description out, and returns the description after it.
fn take_counted(alloc: Global, description: &[u8], object: &mut Object<'_>) -> Result<Vec<u8>>
    ensures { TakesAs (λ bytes. (bytes.items, left object.new)) result
        (counted_description description.now (left object.old)) }
{
    take_count(alloc, DESCRIPTION_LENGTH.0, description.len(), object)?;
    if description.len() >= 1 << 32 {
        return Err(refuse(alloc, "", Reason::WrongLength));
    }
    Ok(counted_bytes(alloc, description)?)
}

/// Returns a description that has to be `size` bytes.
fn sized_bytes(alloc: Global, size: usize, description: Vec<u8>) -> Result<Vec<u8>>
    ensures { TakesAs (λ bytes. bytes.items) result (sized_bytes size description.items) }
{
    if description.len() == size {
        Ok(description)
    } else {
        Err(refuse(alloc, "", Reason::WrongLength))
    }
}

/// Returns a description of this `kind` and default length, after its own length if it has one.
fn with_length(
    alloc: Global,
    kind: GroupKind,
    default_length: Option<u32>,
    description: Vec<u8>,
    object: &mut Object<'_>,
) -> Result<Vec<u8>>
    ensures { TakesAs (λ bytes. (bytes.items, left object.new)) result
        (sized_description kind default_length description.items (left object.old)) }
{
    match default_length {
        None => {
            let size = usual_size(kind, description.as_slice());
            Ok(sized_bytes(alloc, size, description)?)
        }
        Some(length) => {
            if length == 0 {
                take_counted(alloc, description.as_slice(), object)
            } else {
                Ok(sized_bytes(alloc, length as usize, description)?)
            }
        }
    }
}

/// Takes a description out, after its length if each has its own.
fn take_piece(
    alloc: Global,
    descriptions: &Descriptions,
    object: &mut Object<'_>,
) -> Result<Vec<u8>>
    ensures { TakesAs (λ bytes. (bytes.items, left object.new)) result
        (description_members descriptions.now (left object.old)) }
{
    let kind = kind_of(u32::from(descriptions.grouping_type));
    let description = take_description(alloc, kind, object)?;
    with_length(
        alloc,
        kind,
        descriptions.default_length,
        description,
        object,
    )
}

impl TakePieces for Descriptions {
    ghost taken = { description_taken };

    fn take(&self, alloc: Global, value: Value<'_>) -> Result<Entries<u8>> {
        let mut object = object_in(alloc, "", value)?;
        let bytes = take_piece(alloc, self, &mut object)?;
        end_object(alloc, &object)?;
        Ok(bytes.into())
    }
}

impl TakeFields for Sgpd {
    ghost taken = { sgpd_taken (⟦<Front as TakeShape>⟧.taken (
      sgpd.NAMES.now.0,
      (
        sgpd.NAMES.now.1.0,
        (
          sgpd.NAMES.now.1.1.0,
          (
            sgpd.NAMES.now.1.1.1.0,
            (
              sgpd.NAMES.now.1.1.1.1.0,
              (sgpd.NAMES.now.1.1.1.1.1.0, tt),
            ),
          ),
        ),
      ),
    ) no_context) };

    fn take(alloc: Global, object: &mut Object<'_>) -> Result<Sgpd> {
        let names = (
            sgpd::NAMES.0,
            (
                sgpd::NAMES.1.0,
                (
                    sgpd::NAMES.1.1.0,
                    (
                        sgpd::NAMES.1.1.1.0,
                        (sgpd::NAMES.1.1.1.1.0, (sgpd::NAMES.1.1.1.1.1.0, ())),
                    ),
                ),
            ),
        );
        let (version, (flags, front)) = Front::take(alloc, &names, NO_CONTEXT, object)?;
        let (grouping_type, (default_length, (default_group_description_index, count))) = front;
        let (entry_count, ()) = count;
        let descriptions = Descriptions {
            grouping_type,
            default_length,
        };
        let count_name = sgpd::NAMES.1.1.1.1.1.0.0;
        let pieces_names = sgpd::NAMES.1.1.1.1.1.1;
        let count = u64::from(entry_count);
        let entries = take_pieces(alloc, pieces_names, descriptions, count_name, count, object)?;
        Ok(Sgpd {
            version,
            flags,
            grouping_type,
            default_length,
            default_group_description_index,
            entry_count,
            entries,
        })
    }
}
