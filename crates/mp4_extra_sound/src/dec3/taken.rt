//! Takes the box back out of its JSON.

ghost use Rattle.std.specs.Prelude.{◌≡◌};
ghost use Rattle.mp4_extra_sound.specs.TakenDec3.{dec3_taken, no_dependents, parent_taken, single_taken};
ghost use Rattle.mp4_extra_sound.specs.TakenDec3.{stream_members, stream_taken};
ghost use Rattle.mp4_shown.specs.Object.{left};
ghost use Rattle.mp4_shown.specs.Taking.{TakesAs};

use super::{Dec3, Ec3Config, PARENT, PARENT_WIDTHS, STREAM, STREAM_WIDTHS, Streams};
use crate::dec3;
use json::Value;
use mp4_declared::{Bits, EntryLayout};
use mp4_frame::Entries;
use mp4_shown::taken::{
    NO_CONTEXT, Object, Result, TakeFields, TakePieces, TakeShape, end_object, joined, object_in,
    push_number, take_numbers, take_pieces,
};
use std::alloc::Global;

/// The number of streams that depend on a stream.
const DEPENDENTS: &str = "num_dep_sub";

/// Returns whether no stream depends on a stream.
fn has_no_dependents(object: &Object<'_>) -> bool
    ensures { result ≡ no_dependents (left object.now) }
{
    match object.number(DEPENDENTS) {
        Some(number) => number == 0,
        None => false,
    }
}

/// Takes the bytes of a stream that none depends on out.
fn take_single(alloc: Global, object: &mut Object<'_>) -> Result<Vec<u8>>
    ensures { TakesAs (λ bytes. (bytes.items, left object.new)) result (single_taken (left object.old)) }
{
    let numbers = take_numbers(alloc, STREAM, &STREAM_WIDTHS, object)?;
    let word = joined(&STREAM_WIDTHS, &numbers);
    let mut bytes = Vec::new(alloc);
    push_number(word, 3, &mut bytes)?;
    Ok(bytes)
}

/// Takes the bytes of a stream that others depend on out.
fn take_parent(alloc: Global, object: &mut Object<'_>) -> Result<Vec<u8>>
    ensures { TakesAs (λ bytes. (bytes.items, left object.new)) result (parent_taken (left object.old)) }
{
    let numbers = take_numbers(alloc, PARENT, &PARENT_WIDTHS, object)?;
    let word = joined(&PARENT_WIDTHS, &numbers);
    let mut bytes = Vec::new(alloc);
    push_number(word, 4, &mut bytes)?;
    Ok(bytes)
}

/// Takes the bytes of a stream out.
fn take_stream(alloc: Global, object: &mut Object<'_>) -> Result<Vec<u8>>
    ensures { TakesAs (λ bytes. (bytes.items, left object.new)) result (stream_members (left object.old)) }
{
    if has_no_dependents(object) {
        take_single(alloc, object)
    } else {
        take_parent(alloc, object)
    }
}

impl TakePieces for Streams {
    ghost taken = { λ streams j. stream_taken j };

    fn take(&self, alloc: Global, value: Value<'_>) -> Result<Entries<u8>> {
        let mut object = object_in(alloc, "", value)?;
        let bytes = take_stream(alloc, &mut object)?;
        end_object(alloc, &object)?;
        Ok(bytes.into())
    }
}

impl TakeFields for Dec3 {
    ghost taken = { dec3_taken ⟦<Ec3Config as EntryLayout<2, 2>>⟧.layout };

    fn take(alloc: Global, object: &mut Object<'_>) -> Result<Dec3> {
        let config = Bits::<Ec3Config, 2, 2>::take(alloc, &dec3::NAMES.0, NO_CONTEXT, object)?;
        let count = u64::from(config.num_ind_sub) + 1;
        let substreams = take_pieces(alloc, dec3::NAMES.1, Streams, "num_ind_sub", count, object)?;
        Ok(Dec3 { config, substreams })
    }
}
