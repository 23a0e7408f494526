//! Tables of samples.

ghost use Rattle.std.specs.Prelude.{◌≡◌, length};
ghost use Rattle.mp4_declared.specs.OwnBox.{no_context};
ghost use Rattle.mp4_show.specs.declared.taken.tables.TheConstants.{CO64, CTTS, DELTA, EDIT, ELST, OFFSET, STCO};
ghost use Rattle.mp4_show.specs.declared.taken.tables.TheConstants.{STSS, STSZ, STTS};
ghost use Rattle.mp4_shown.specs.Event.{Text as SeenText, seen_text};
ghost use Rattle.mp4_shown.specs.Numbers.{NumberName as SeenName, seen_number};
ghost use Rattle.mp4_show.specs.TakenTables.{edit_bits, edit_time_taken, least_edit, make_co64, make_ctts};
ghost use Rattle.mp4_show.specs.TakenTables.{make_edit, make_elst, make_offset, make_run, make_stco, make_stss};
ghost use Rattle.mp4_show.specs.TakenTables.{make_stsz, make_stts, most_edit, sizes_fit, time_bits};
ghost use Rattle.mp4_shown.specs.TakenShapes.{entry_made};
ghost use Rattle.mp4_shown.specs.TakenNumbers.{number_taken};
ghost use Rattle.mp4_shown.specs.TakenShapes.{made_if, made_of};
ghost use Rattle.mp4_shown.specs.declared.taken.error.Reason.TheVariants.{WrongCount};

use crate::taken::shapes::{EntriesIn, WideNumbers};
use crate::taken::take_box::{TakeBox, TakeCodecEntry};
use json::Value;
use mp4_declared::{Context, Full, I16, I32, Last, Numbers, U32};
use mp4_shown::taken::{
    NO_CONTEXT, Object, Reason, Result, TakeShape, refuse, take_members, take_number, take_signed,
};
use mp4_shown::{FLAGS, NumberAs, NumberName, VERSION, names_of, number};
use mp4_tables::{
    Co64Box, CttsBox, CttsEntry, ElstBox, ElstEntry, StcoBox, StssBox, StszBox, SttsBox, SttsEntry,
};
use std::alloc::Global;

/// The parts of a table of offsets.
type StcoTaken = Full<256, Last<Numbers>>;

/// The names of its fields.
const STCO: &<StcoTaken as TakeShape>::Names = &names_of!(VERSION, FLAGS, "chunk_offset");

impl TakeBox for StcoBox {
    ghost taken = { made_of make_stco (⟦<StcoTaken as TakeShape>⟧.taken STCO.now no_context) };

    fn take(alloc: Global, object: &mut Object<'_>) -> Result<StcoBox> {
        let (version, (flags, rest)) = StcoTaken::take(alloc, STCO, NO_CONTEXT, object)?;
        let (entries, ()) = rest;
        Ok(StcoBox {
            version,
            flags,
            entries,
        })
    }
}

/// The parts of a table of offsets of 64 bits.
type Co64Taken = Full<256, Last<WideNumbers>>;

/// The names of its fields.
const CO64: &<Co64Taken as TakeShape>::Names = &names_of!(VERSION, FLAGS, "chunk_offset");

impl TakeBox for Co64Box {
    ghost taken = { made_of make_co64 (⟦<Co64Taken as TakeShape>⟧.taken CO64.now no_context) };

    fn take(alloc: Global, object: &mut Object<'_>) -> Result<Co64Box> {
        let (version, (flags, rest)) = Co64Taken::take(alloc, CO64, NO_CONTEXT, object)?;
        let (entries, ()) = rest;
        Ok(Co64Box {
            version,
            flags,
            entries,
        })
    }
}

/// The parts of a table of samples.
type StssTaken = Full<256, Last<Numbers>>;

/// The names of its fields.
const STSS: &<StssTaken as TakeShape>::Names = &names_of!(VERSION, FLAGS, "sample_number");

impl TakeBox for StssBox {
    ghost taken = { made_of make_stss (⟦<StssTaken as TakeShape>⟧.taken STSS.now no_context) };

    fn take(alloc: Global, object: &mut Object<'_>) -> Result<StssBox> {
        let (version, (flags, rest)) = StssTaken::take(alloc, STSS, NO_CONTEXT, object)?;
        let (entries, ()) = rest;
        Ok(StssBox {
            version,
            flags,
            entries,
        })
    }
}

/// The parts of a table of decoding times.
type SttsTaken = Full<256, Last<EntriesIn<SttsEntry>>>;

/// The names of its fields.
const STTS: &<SttsTaken as TakeShape>::Names = &names_of!(VERSION, FLAGS, "entries");

impl TakeBox for SttsBox {
    ghost taken = { made_of make_stts (⟦<SttsTaken as TakeShape>⟧.taken STTS.now no_context) };

    fn take(alloc: Global, object: &mut Object<'_>) -> Result<SttsBox> {
        let (version, (flags, rest)) = SttsTaken::take(alloc, STTS, NO_CONTEXT, object)?;
        let (entries, ()) = rest;
        Ok(SttsBox {
            version,
            flags,
            entries,
        })
    }
}

/// The parts of a table of composition times.
type CttsTaken = Full<256, Last<EntriesIn<CttsEntry>>>;

/// The names of its fields.
const CTTS: &<CttsTaken as TakeShape>::Names = &names_of!(VERSION, FLAGS, "entries");

impl TakeBox for CttsBox {
    ghost taken = { made_of make_ctts (⟦<CttsTaken as TakeShape>⟧.taken CTTS.now no_context) };

    fn take(alloc: Global, object: &mut Object<'_>) -> Result<CttsBox> {
        let (version, (flags, rest)) = CttsTaken::take(alloc, CTTS, NO_CONTEXT, object)?;
        let (entries, ()) = rest;
        Ok(CttsBox {
            version,
            flags,
            entries,
        })
    }
}

/// The parts of an edit list.
type ElstTaken = Full<256, Last<EntriesIn<ElstEntry>>>;

/// The names of its fields.
const ELST: &<ElstTaken as TakeShape>::Names = &names_of!(VERSION, FLAGS, "entries");

impl TakeBox for ElstBox {
    ghost taken = { made_of make_elst (⟦<ElstTaken as TakeShape>⟧.taken ELST.now no_context) };

    fn take(alloc: Global, object: &mut Object<'_>) -> Result<ElstBox> {
        let (version, (flags, rest)) = ElstTaken::take(alloc, ELST, NO_CONTEXT, object)?;
        let (entries, ()) = rest;
        Ok(ElstBox {
            version,
            flags,
            entries,
        })
    }
}
/// The parts of a table of sizes.
type StszTaken = Full<256, (U32, U32, Last<Numbers>)>;

/// The names of its fields.
const STSZ: &<StszTaken as TakeShape>::Names = &names_of!(
    VERSION,
    FLAGS,
    number!("sample_size"),
    number!("sample_count"),
    "entry_size"
);

/// Returns whether a table of sizes has `count` entries if `size` is 0, and else none.
fn sizes_fit(size: u32, count: u32, entries: usize) -> bool
    ensures { result ≡ sizes_fit size count entries }
{
    if size == 0 {
        entries == count as usize
    } else {
        entries == 0
    }
}

/// The table has an entry for each sample, unless all samples have one size.
impl TakeBox for StszBox {
    ghost taken = { made_if (λ v. sizes_fit v.1.1.0 v.1.1.1.0 (length v.1.1.1.1.0)) STSZ.now.1.1.1.1.0.now WrongCount
        make_stsz (⟦<StszTaken as TakeShape>⟧.taken STSZ.now no_context) };

    fn take(alloc: Global, object: &mut Object<'_>) -> Result<StszBox> {
        let (version, (flags, rest)) = StszTaken::take(alloc, STSZ, NO_CONTEXT, object)?;
        let (sample_size, (sample_count, (sample_sizes, ()))) = rest;
        if !sizes_fit(sample_size, sample_count, sample_sizes.len()) {
            return Err(refuse(alloc, STSZ.1.1.1.1.0, Reason::WrongCount));
        }
        Ok(StszBox {
            version,
            flags,
            sample_size,
            sample_count,
            sample_sizes,
        })
    }
}

/// The parts of a run of samples with one duration.
type DeltaTaken = (U32, Last<U32>);

/// The names of its fields.
const DELTA: &<DeltaTaken as TakeShape>::Names = &names_of!(
    number!("sample_count"),
    number!("sample_delta")
);

impl TakeCodecEntry for SttsEntry {
    ghost taken = { λ c j. entry_made make_run (⟦<DeltaTaken as TakeShape>⟧.taken DELTA.now c) j };

    fn take(alloc: Global, context: Context, value: Value<'_>) -> Result<SttsEntry> {
        let (sample_count, (sample_delta, ())) = take_members::<DeltaTaken>(
            alloc, DELTA, context, value,
        )?;
        Ok(SttsEntry {
            sample_count,
            sample_delta,
        })
    }
}

/// The parts of a run of samples with one offset.
type OffsetTaken = (U32, Last<I32>);

/// The names of its fields.
const OFFSET: &<OffsetTaken as TakeShape>::Names = &names_of!(
    number!("sample_count"),
    number!("sample_offset")
);

impl TakeCodecEntry for CttsEntry {
    ghost taken = { λ c j. entry_made make_offset (⟦<OffsetTaken as TakeShape>⟧.taken OFFSET.now c) j };

    fn take(alloc: Global, context: Context, value: Value<'_>) -> Result<CttsEntry> {
        let (sample_count, (sample_offset, ())) = take_members::<OffsetTaken>(
            alloc, OFFSET, context, value,
        )?;
        Ok(CttsEntry {
            sample_count,
            sample_offset,
        })
    }
}

/// Returns the number of bits of the times of an edit list in `version`.
fn edit_bits(version: u8) -> u32
    ensures { result ≡ edit_bits version }
{
    if version == 1 { 64 } else { 32 }
}

/// The duration of an edit: 64 bits in version 1, and 32 in every other.
struct EditDuration;

impl TakeShape for EditDuration {
    type Names = NumberName;

    type Taken = u64;

    ghost Known = { SeenName };

    ghost known = { seen_number };

    ghost taken = { λ name c ms. number_taken name (edit_bits c.version) ms };

    fn take(
        alloc: Global,
        name: &NumberName,
        context: Context,
        object: &mut Object<'_>,
    ) -> Result<u64> {
        take_number(alloc, *name, edit_bits(context.version), object)
    }
}

/// Returns the least media time in `version`. Only versions 0 and 1 have a sign.
fn least_edit(version: u8) -> i64
    ensures { result ≡ least_edit version }
{
    if version == 0 {
        -(1 << 31)
    } else if version == 1 {
        i64::MIN
    } else {
        0
    }
}

/// Returns the largest media time in `version`.
fn most_edit(version: u8) -> i64
    ensures { result ≡ most_edit version }
{
    if version == 0 {
        (1 << 31) - 1
    } else if version == 1 {
        i64::MAX
    } else {
        (1 << 32) - 1
    }
}

/// Returns the media time `time` as an entry of an edit list in `version` has it: without its sign.
fn time_bits(version: u8, time: i64) -> u64
    ensures { result ≡ time_bits version time }
{
    if version == 0 {
        time.cast_unsigned() % (1 << 32)
    } else {
        time.cast_unsigned()
    }
}

/// The time in its media at which an edit begins.
struct MediaTime;

impl TakeShape for MediaTime {
    type Names = &'static str;

    type Taken = u64;

    ghost Known = { SeenText };

    ghost known = { seen_text };

    ghost taken = { λ name c ms. edit_time_taken name c.version ms };

    fn take(
        alloc: Global,
        name: &&'static str,
        context: Context,
        object: &mut Object<'_>,
    ) -> Result<u64> {
        let version = context.version;
        let least = least_edit(version);
        let most = most_edit(version);
        let time = take_signed(alloc, (*name, NumberAs::Plain, &[]), least, most, object)?;
        Ok(time_bits(version, time))
    }
}

/// The parts of an edit.
type EditTaken = (EditDuration, MediaTime, I16, Last<I16>);

/// The names of its fields.
const EDIT: &<EditTaken as TakeShape>::Names = &names_of!(
    number!("segment_duration"),
    "media_time",
    number!("media_rate_integer"),
    number!("media_rate_fraction")
);

impl TakeCodecEntry for ElstEntry {
    ghost taken = { λ c j. entry_made make_edit (⟦<EditTaken as TakeShape>⟧.taken EDIT.now c) j };

    fn take(alloc: Global, context: Context, value: Value<'_>) -> Result<ElstEntry> {
        let (segment_duration, (media_time, (media_rate, (fraction, ())))) = take_members::<
            EditTaken,
        >(alloc, EDIT, context, value)?;
        Ok(ElstEntry {
            segment_duration,
            media_time,
            media_rate: media_rate.cast_unsigned(),
            media_rate_fraction: fraction.cast_unsigned(),
        })
    }
}
