//! Takes the box back out of its JSON.

ghost use Rattle.std.specs.Prelude.{◌≡◌, ◌≤◌, ◌*◌, IfOk, map};
ghost use Rattle.mp4_declared.specs.Shape.{time_width};
ghost use Rattle.mp4_extra_samples.specs.ShownAccesses.{width_of};
ghost use Rattle.mp4_declared.specs.OwnBox.{no_context};
ghost use Rattle.mp4_extra_samples.specs.declared.tfra.TheConstants as tfra;
ghost use Rattle.mp4_shown.specs.Object.{left};
ghost use Rattle.mp4_extra_samples.specs.TakenTfra.{access_bytes, access_members, access_taken, access_widths};
ghost use Rattle.mp4_extra_samples.specs.TakenTfra.{tfra_taken};
ghost use Rattle.mp4_shown.specs.Taking.{TakesAs};

use super::{ACCESS, Accesses, Tfra, TfraLengths};
use crate::tfra;
use json::Value;
use mp4_declared::{Bits, Full, Last, U32};
use mp4_frame::Entries;
use mp4_shown::taken::{
    NO_CONTEXT, Object, Result, TakeFields, TakePieces, TakeShape, end_object, object_in,
    push_number, take_numbers, take_pieces,
};
use std::alloc::{AllocError, Global};

/// The fields before the entries.
type Front = Full<2, (U32, Bits<TfraLengths, 4, 4>, Last<U32>)>;

/// Returns the number of bytes of a time in `version`.
fn time_width(version: u8) -> u8
    ensures value { result ≡ time_width version }
    ensures few { result ≤ 8 }
{
    if version == 0 { 4 } else { 8 }
}

/// Returns the number of bytes of a number with this `length`, which is kept minus one in two bits.
fn width_of(length: u8) -> u8
    ensures value { result ≡ width_of length }
    ensures few { result ≤ 4 }
{
    length % 4 + 1
}

/// Returns the widths of the numbers of an entry, in bits.
fn access_widths(accesses: &Accesses) -> [u8; 5]
    ensures { result ≡ map (λ w. 8 * w) (access_widths accesses.now) }
{
    let time = time_width(accesses.version);
    [
        8 * time,
        8 * time,
        8 * width_of(accesses.lengths.length_size_of_traf_num),
        8 * width_of(accesses.lengths.length_size_of_trun_num),
        8 * width_of(accesses.lengths.length_size_of_sample_num),
    ]
}

/// Returns the bytes of an entry with these numbers.
#[tactic(auto, unfolding(mp4_frame::specs::Bytes::bytes_of_fields, mp4_frame::specs::Bytes::bytes_of_fields_onto))]
fn access_bytes(
    alloc: Global,
    accesses: &Accesses,
    numbers: &[u64; 5],
) -> std::result::Result<Vec<u8>, AllocError>
    ensures { IfOk result (λ bytes. bytes.items ≡ access_bytes accesses.now numbers.now) }
{
    let time = usize::from(time_width(accesses.version));
    let traf = usize::from(width_of(accesses.lengths.length_size_of_traf_num));
    let trun = usize::from(width_of(accesses.lengths.length_size_of_trun_num));
    let sample = usize::from(width_of(accesses.lengths.length_size_of_sample_num));
    let mut bytes = Vec::new(alloc);
    push_number(numbers[0], time, &mut bytes)?;
    push_number(numbers[1], time, &mut bytes)?;
    push_number(numbers[2], traf, &mut bytes)?;
    push_number(numbers[3], trun, &mut bytes)?;
    push_number(numbers[4], sample, &mut bytes)?;
    Ok(bytes)
}

/// Takes the numbers of an entry out, and returns its bytes.
fn take_access(alloc: Global, accesses: &Accesses, object: &mut Object<'_>) -> Result<Vec<u8>>
    ensures { TakesAs (λ bytes. (bytes.items, left object.new)) result
        (access_members accesses.now (left object.old)) }
{
    let widths = access_widths(accesses);
    let numbers = take_numbers(alloc, ACCESS, &widths, object)?;
    Ok(access_bytes(alloc, accesses, &numbers)?)
}

impl TakePieces for Accesses {
    ghost taken = { access_taken };

    fn take(&self, alloc: Global, value: Value<'_>) -> Result<Entries<u8>> {
        let mut object = object_in(alloc, "", value)?;
        let bytes = take_access(alloc, self, &mut object)?;
        end_object(alloc, &object)?;
        Ok(bytes.into())
    }
}

impl TakeFields for Tfra {
    ghost taken = { tfra_taken (⟦<Front as TakeShape>⟧.taken (
      tfra.NAMES.now.0,
      (
        tfra.NAMES.now.1.0,
        (
          tfra.NAMES.now.1.1.0,
          (tfra.NAMES.now.1.1.1.0, (tfra.NAMES.now.1.1.1.1.0, tt)),
        ),
      ),
    ) no_context) };

    fn take(alloc: Global, object: &mut Object<'_>) -> Result<Tfra> {
        let names = (
            tfra::NAMES.0,
            (
                tfra::NAMES.1.0,
                (
                    tfra::NAMES.1.1.0,
                    (tfra::NAMES.1.1.1.0, (tfra::NAMES.1.1.1.1.0, ())),
                ),
            ),
        );
        let (version, (flags, front)) = Front::take(alloc, &names, NO_CONTEXT, object)?;
        let (track_id, (lengths, (number_of_entry, ()))) = front;
        let accesses = Accesses { version, lengths };
        let count_name = tfra::NAMES.1.1.1.1.0.0;
        let pieces_names = tfra::NAMES.1.1.1.1.1;
        let count = u64::from(number_of_entry);
        let entries = take_pieces(alloc, pieces_names, accesses, count_name, count, object)?;
        Ok(Tfra {
            version,
            flags,
            track_id,
            lengths,
            number_of_entry,
            entries,
        })
    }
}
