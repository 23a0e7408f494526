//! Takes the box back out of its JSON.

ghost use Rattle.mp4_shown.specs.TakenShapes.{declared_taken};
ghost use Rattle.mp4_extra_sound.specs.declared.dfla.TheConstants.{NAMES};
ghost use Rattle.std.specs.Prelude.{◌≡◌, ℕ, ◌<◌, ◌≤◌, ◌^◌, IfOk, OnOk, slice_index};
ghost use Rattle.mp4_extra_sound.specs.declared.dfla.TheConstants as dfla;
ghost use Rattle.mp4_shown.specs.Runs.{seen_bytes};
ghost use Rattle.mp4_extra_sound.specs.TakenDfla.{block_data_taken, block_members, block_taken, checksum_taken};
ghost use Rattle.mp4_extra_sound.specs.TakenDfla.{counted_from_one, info_taken, stream_bytes, stream_numbers_taken};
ghost use Rattle.mp4_extra_sound.specs.TakenDfla.{stream_widths, stream_word};
ghost use Rattle.mp4_shown.specs.Object.{left};
ghost use Rattle.mp4_shown.specs.Taking.{TakesAs};

use super::{BLOCK, Dfla, DflaShape, FlacBlockKind, FlacMetadataBlock, NAMES, STREAM};
use json::Value;
use mp4_declared::{Bits, Context, DeclaredBox, EntryLayout};
use mp4_shown::BytesName;
use mp4_shown::taken::{
    NO_CONTEXT, Object, Reason, Result, TakeEntry, TakeFields, TakeShape, end_object, object_in,
    push_number, refuse, take_bytes, take_count, take_declared, take_numbers,
};
use std::alloc::{AllocError, Global};

/// The widths of the numbers of a STREAMINFO, in bits.
const WIDTHS: [u8; 8] = [16, 16, 24, 24, 20, 4, 6, 36];

/// The name of the number of channels.
const CHANNELS: &str = "channels";

/// The name of the number of bits of a sample.
const SAMPLE_BITS: &str = "bits_per_sample";

/// Refuses `number`, which is called `name` and is kept minus one, unless it is 1 at least, and at most `most`.
fn check_count(alloc: Global, name: &str, most: u64, number: u64) -> Result<()>
    ensures value { TakesAs (λ v. v) result (counted_from_one name.now most number) }
    ensures range { OnOk result ((1 ≤ number) × (number ≤ most)) }
{
    if 1 <= number && number <= most {
        Ok(())
    } else {
        Err(refuse(alloc, name, Reason::OutOfRange))
    }
}

/// Returns the last eight bytes before the checksum of a STREAMINFO, as one number. Channels and bits are kept minus
/// one.
fn stream_word(rate: u64, channels: u64, bits: u64, total: u64) -> u64
    requires rate { rate < 2 ^ 20 }
    requires channels { (1 ≤ channels) × (channels ≤ 8) }
    requires bits { (1 ≤ bits) × (bits ≤ 32) }
    requires total { total < 2 ^ 36 }
    ensures { result ≡ stream_word rate channels bits total }
{
    rate * (1 << 44) + (channels - 1) * (1 << 41) + (bits - 1) * (1 << 36) + total
}

/// Returns the bytes of a STREAMINFO with these numbers, without the checksum.
#[tactic(auto, unfolding(mp4_frame::specs::Bytes::bytes_of_fields, mp4_frame::specs::Bytes::bytes_of_fields_onto))]
fn stream_bytes(alloc: Global, numbers: &[u64; 8]) -> std::result::Result<Vec<u8>, AllocError>
    requires fit { (k : ℕ) → slice_index numbers.now k < 2 ^ slice_index stream_widths k }
    requires channels { (1 ≤ slice_index numbers.now 5) × (slice_index numbers.now 5 ≤ 8) }
    requires bits { (1 ≤ slice_index numbers.now 6) × (slice_index numbers.now 6 ≤ 32) }
    ensures { IfOk result (λ bytes. bytes.items ≡ stream_bytes numbers.now) }
{
    let word = stream_word(numbers[4], numbers[5], numbers[6], numbers[7]);
    let mut bytes = Vec::new(alloc);
    push_number(numbers[0], 2, &mut bytes)?;
    push_number(numbers[1], 2, &mut bytes)?;
    push_number(numbers[2], 3, &mut bytes)?;
    push_number(numbers[3], 3, &mut bytes)?;
    push_number(word, 8, &mut bytes)?;
    Ok(bytes)
}

/// Takes the numbers of a STREAMINFO out. There is a channel and a bit at least.
fn take_stream_numbers(alloc: Global, object: &mut Object<'_>) -> Result<[u64; 8]>
    ensures value { TakesAs (λ ns. (ns, left object.new)) result (stream_numbers_taken (left object.old)) }
    ensures fit { IfOk result (λ ns. (k : ℕ) → slice_index ns k < 2 ^ slice_index stream_widths k) }
    ensures channels { IfOk result (λ ns. (1 ≤ slice_index ns 5) × (slice_index ns 5 ≤ 8)) }
    ensures bits { IfOk result (λ ns. (1 ≤ slice_index ns 6) × (slice_index ns 6 ≤ 32)) }
{
    let numbers = take_numbers(alloc, STREAM, &WIDTHS, object)?;
    check_count(alloc, CHANNELS, 8, numbers[5])?;
    check_count(alloc, SAMPLE_BITS, 32, numbers[6])?;
    Ok(numbers)
}

/// Takes the checksum of a STREAMINFO out.
fn take_checksum(alloc: Global, name: BytesName, object: &mut Object<'_>) -> Result<Vec<u8>>
    ensures { TakesAs (λ bytes. (bytes.items, left object.new)) result
        (checksum_taken (seen_bytes name.entry) (left object.old)) }
{
    let sum = take_bytes(alloc, name, object)?;
    if sum.len() != 16 {
        return Err(refuse(alloc, name.0, Reason::WrongLength));
    }
    Ok(sum)
}

/// Takes the data of a STREAMINFO out.
fn take_stream_info(alloc: Global, checksum: BytesName, object: &mut Object<'_>) -> Result<Vec<u8>>
    ensures { TakesAs (λ bytes. (bytes.items, left object.new)) result
        (info_taken (seen_bytes checksum.entry) (left object.old)) }
{
    let numbers = take_stream_numbers(alloc, object)?;
    let mut bytes = stream_bytes(alloc, &numbers)?;
    let sum = take_checksum(alloc, checksum, object)?;
    bytes.extend_from_slice(sum.as_slice())?;
    Ok(bytes)
}

/// Takes the data of a block out: the fields of a STREAMINFO, or bytes.
fn take_data(alloc: Global, block_type: u8, object: &mut Object<'_>) -> Result<Vec<u8>>
    ensures { TakesAs (λ bytes. (bytes.items, left object.new)) result (block_data_taken block_type (left object.old)) }
{
    let (checksum, bytes) = BLOCK.1.1.1;
    if block_type == 0 && !object.has(bytes.0) {
        take_stream_info(alloc, checksum, object)
    } else {
        take_bytes(alloc, bytes, object)
    }
}

/// Takes a block out.
fn take_block(alloc: Global, object: &mut Object<'_>) -> Result<FlacMetadataBlock>
    ensures { TakesAs (λ block. (block, left object.new)) result
        (block_members ⟦<FlacBlockKind as EntryLayout<2, 1>>⟧.layout (left object.old)) }
{
    let kind = Bits::<FlacBlockKind, 2, 1>::take(alloc, &BLOCK.0, NO_CONTEXT, object)?;
    let block_data = take_data(alloc, kind.block_type, object)?;
    if block_data.len() >= 1 << 24 {
        return Err(refuse(alloc, BLOCK.1.1.1.1.0, Reason::WrongLength));
    }
    take_count(alloc, BLOCK.1.0.0, block_data.len(), object)?;
    Ok(FlacMetadataBlock {
        kind,
        block_data: block_data.into(),
    })
}

impl TakeEntry for FlacMetadataBlock {
    ghost taken = { λ c j. block_taken ⟦<FlacBlockKind as EntryLayout<2, 1>>⟧.layout j };

    fn take(alloc: Global, _context: Context, value: Value<'_>) -> Result<FlacMetadataBlock> {
        let mut object = object_in(alloc, "", value)?;
        let block = take_block(alloc, &mut object)?;
        end_object(alloc, &object)?;
        Ok(block)
    }
}

impl TakeFields for Dfla {
    ghost taken = { declared_taken ⟦<Dfla as DeclaredBox>⟧.layout (⟦<DflaShape as TakeShape>⟧.taken NAMES.now) };

    fn take(alloc: Global, object: &mut Object<'_>) -> Result<Dfla> {
        take_declared::<Dfla, DflaShape>(alloc, NAMES, object)
    }
}
