//! Boxes of movie fragments with optional fields.

ghost use Rattle.std.specs.Prelude.{◌≡◌, []};
ghost use Rattle.mp4_declared.specs.OwnBox.{no_context};
ghost use Rattle.mp4_show.specs.declared.taken.fragments.TheConstants.{TFHD, TRUN};
ghost use Rattle.mp4_show.specs.TakenFragments.{column_taken, has_flag, is_left_out, make_tfhd, offset_in};
ghost use Rattle.mp4_show.specs.TakenFragments.{trun_taken, whole_column};
ghost use Rattle.mp4_shown.specs.Object.{left};
ghost use Rattle.mp4_shown.specs.TakenRuns.{small_in};
ghost use Rattle.mp4_shown.specs.TakenShapes.{made_of};
ghost use Rattle.mp4_shown.specs.Taking.{TakesAs};

use crate::taken::take_box::TakeBox;
use json::Value;
use mp4_declared::{Full, I32, If, IfFlags, Last, U32, U64};
use mp4_frame::Entries;
use mp4_shown::taken::integer::signed_in;
use mp4_shown::taken::{
    NO_CONTEXT, Object, Reason, Result, TakeItem, TakeShape, number_of, refuse, small_in,
    take_array, take_each,
};
use mp4_shown::{FLAGS, VERSION, names_of, number};
use mp4_tables::{TfhdBox, TrunBox};
use std::alloc::Global;

/// The parts of a track fragment header. Flags say which of them are present.
type TfhdTaken = Full<
    256,
    (
        U32,
        If<IfFlags<0x01>, U64>,
        If<IfFlags<0x02>, U32>,
        If<IfFlags<0x08>, U32>,
        (If<IfFlags<0x10>, U32>, Last<If<IfFlags<0x20>, U32>>),
    ),
>;

/// The names of its fields.
const TFHD: &<TfhdTaken as TakeShape>::Names = &names_of!(
    VERSION,
    FLAGS,
    number!("track_ID"),
    number!("base_data_offset"),
    number!("sample_description_index"),
    number!("default_sample_duration"),
    number!("default_sample_size"),
    number!("default_sample_flags")
);

impl TakeBox for TfhdBox {
    ghost taken = { made_of make_tfhd (⟦<TfhdTaken as TakeShape>⟧.taken TFHD.now no_context) };

    fn take(alloc: Global, object: &mut Object<'_>) -> Result<TfhdBox> {
        let (version, (flags, rest)) = TfhdTaken::take(alloc, TFHD, NO_CONTEXT, object)?;
        let (
            track_id,
            (base_data_offset, (sample_description_index, (default_sample_duration, rest))),
        ) = rest;
        let (default_sample_size, (default_sample_flags, ())) = rest;
        Ok(TfhdBox {
            version,
            flags,
            track_id,
            base_data_offset,
            sample_description_index,
            default_sample_duration,
            default_sample_size,
            default_sample_flags,
        })
    }
}

/// An entry that is an offset of a run in a `version`: it has a sign in every version but 0.
#[derive(Drop)]
struct OffsetItem {
    version: u8,
}

impl TakeItem<u32> for OffsetItem {
    ghost taken = { λ by j. offset_in by.version j };

    fn take(&self, alloc: Global, value: Value<'_>) -> Result<u32> {
        if self.version == 0 {
            return Ok(small_in(alloc, "", 32, &value)? as u32);
        }
        let Some(number) = signed_in(&value) else {
            return Err(refuse(alloc, "", Reason::NotWhole));
        };
        if number < -(1 << 31) || number > (1 << 31) - 1 {
            return Err(refuse(alloc, "", Reason::OutOfRange));
        }
        Ok((number as i32).cast_unsigned())
    }
}

/// An entry that is a number of 32 bits.
#[derive(Drop)]
struct NumberItem;

impl TakeItem<u32> for NumberItem {
    ghost taken = { λ by j. small_in 32 [] j };

    fn take(&self, alloc: Global, value: Value<'_>) -> Result<u32> {
        Ok(small_in(alloc, "", 32, &value)? as u32)
    }
}

/// Returns whether the list `name` of a run is left out: if `is_there` isn't set, or if the run has no sample and
/// `object` no such member.
fn is_left_out(name: &str, is_there: bool, count: u32, object: &Object<'_>) -> bool
    ensures { result ≡ is_left_out name.now is_there count (left object.now) }
{
    !is_there || (count == 0 && !object.has(name))
}

/// Takes the list `name` of a run out, which has `count` numbers.
fn take_whole<T: TakeItem<u32>>(
    alloc: Global,
    name: &str,
    count: u32,
    by: &T,
    object: &mut Object<'_>,
) -> Result<Entries<u32>>
    ensures { TakesAs (λ numbers. (numbers, left object.new)) result
        (whole_column name.now count (T.taken by.now) (left object.old)) }
{
    let items = take_array(alloc, name, object)?;
    if number_of(items.as_slice()) != count as usize {
        return Err(refuse(alloc, name, Reason::WrongCount));
    }
    let numbers: Vec<u32> = take_each(alloc, name, by, items)?;
    Ok(numbers.into())
}

/// Takes the list `name` of a run out, which has `count` numbers if `is_there` is set, and else none. A list without
/// numbers may be absent.
fn take_column<T: TakeItem<u32>>(
    alloc: Global,
    name: &str,
    is_there: bool,
    count: u32,
    by: &T,
    object: &mut Object<'_>,
) -> Result<Entries<u32>>
    ensures { TakesAs (λ numbers. (numbers, left object.new)) result
        (column_taken name.now is_there count (T.taken by.now) (left object.old)) }
{
    if is_left_out(name, is_there, count, object) {
        return Ok(Entries::new(alloc));
    }
    take_whole(alloc, name, count, by, object)
}

/// Returns whether a flag of `mask` is set in `flags`.
fn has_flag(flags: u32, mask: u32) -> bool
    ensures { result ≡ has_flag flags mask }
{
    flags & mask > 0
}

/// The parts of a run before its samples.
type TrunFront = Full<256, (U32, If<IfFlags<0x01>, I32>, Last<If<IfFlags<0x04>, U32>>)>;

/// The names of its fields.
const TRUN: &<TrunFront as TakeShape>::Names = &names_of!(
    VERSION,
    FLAGS,
    number!("sample_count"),
    number!("data_offset"),
    number!("first_sample_flags")
);

/// The name of the list of durations.
const DURATIONS: &str = "sample_duration";

/// The name of the list of sizes.
const SIZES: &str = "sample_size";

/// The name of the list of flags.
const SAMPLE_FLAGS: &str = "sample_flags";

/// The name of the list of composition time offsets.
const OFFSETS: &str = "sample_composition_time_offset";

/// The lists follow one another, each if its flag is set.
impl TakeBox for TrunBox {
    ghost taken = { trun_taken (⟦<TrunFront as TakeShape>⟧.taken TRUN.now no_context) };

    fn take(alloc: Global, object: &mut Object<'_>) -> Result<TrunBox> {
        let (version, (flags, rest)) = TrunFront::take(alloc, TRUN, NO_CONTEXT, object)?;
        let (sample_count, (data_offset, (first_sample_flags, ()))) = rest;
        let plain = NumberItem;
        let signed = OffsetItem { version };
        let count = sample_count;
        let is_there = has_flag(flags, 0x100);
        let sample_durations = take_column(alloc, DURATIONS, is_there, count, &plain, object)?;
        let is_there = has_flag(flags, 0x200);
        let sample_sizes = take_column(alloc, SIZES, is_there, count, &plain, object)?;
        let is_there = has_flag(flags, 0x400);
        let sample_flags = take_column(alloc, SAMPLE_FLAGS, is_there, count, &plain, object)?;
        let is_there = has_flag(flags, 0x800);
        let sample_cts = take_column(alloc, OFFSETS, is_there, count, &signed, object)?;
        Ok(TrunBox {
            version,
            flags,
            sample_count,
            data_offset,
            first_sample_flags,
            sample_durations,
            sample_sizes,
            sample_flags,
            sample_cts,
        })
    }
}
