//! The fields of the boxes of movie fragments.

ghost use Rattle.std.specs.Prelude.{◌≡◌, ◌++◌, OnOk, if◌then◌else◌};
ghost use Rattle.std.proofs.Common.{refl};
ghost use Rattle.mp4_show.specs.BoxRows.{mehd_row, mfhd_row, tfdt_row, tfhd_row, trex_row, trun_row};
ghost use Rattle.mp4_show.specs.Row.{row_entry, seen_part, shown_row, whole_row, whole_row_entry};
ghost use Rattle.mp4_show.specs.Run.{entry_at, first_columns, flags_item, last_columns, longest, offset_as};
ghost use Rattle.mp4_show.specs.Run.{offset_item, offset_part, sample_row, shown_columns, shown_samples};
ghost use Rattle.mp4_show.specs.Run.{whole_columns, whole_samples};
ghost use Rattle.mp4_show.specs.declared.fields.fragments.TheConstants.{MEHD, MFHD, SAMPLE, TFDT, TFHD, TREX, TRUN};
ghost use Rattle.mp4_show.specs.declared.flag_names.TheConstants.{SAMPLE as MEANINGS};
ghost use Rattle.mp4_shown.specs.Event.{shown_of};
ghost use Rattle.mp4_shown.specs.Hands.{Hands};
ghost use Rattle.mp4_shown.specs.Members.{members_append, members_if};

use crate::box_fields::BoxFields;
use crate::flag_names::{SAMPLE as SAMPLE_FLAGS, TRACK_FRAGMENT, TRACK_RUN};
use crate::lists::{BoxEntry, put_list_if};
use crate::placed::{PlacedEntries, put_placed};
use crate::row::{Part, put_entry_row, put_row};
use mp4_shown::{FLAGS, FieldSink, NumberName, Result, VERSION, Value, View, number};
use mp4_stream::{Entries, MehdBox, MfhdBox, TfdtBox, TfhdBox, TrexBox, TrunBox};

/// The fields of a movie extends header (ISO/IEC 14496-12, 8.8.2).
const MEHD: &[NumberName] = &[VERSION, FLAGS, number!("fragment_duration")];

impl BoxFields for MehdBox {
    ghost shown = { λ view b. shown_row MEHD.now (mehd_row b) };

    ghost whole = { λ view b. whole_row MEHD.now (mehd_row b) };

    fn show<K: FieldSink>(&self, _view: View, sink: &mut K) -> Result<()> {
        let parts = [
            Part::U8(self.version),
            Part::U32(self.flags),
            Part::U64(self.fragment_duration),
        ];
        put_row(MEHD, &parts, sink)
    }
}

/// The defaults of the samples of a track's fragments (ISO/IEC 14496-12, 8.8.3).
const TREX: &[NumberName] = &[
    VERSION,
    FLAGS,
    number!("track_ID"),
    number!("default_sample_description_index"),
    number!("default_sample_duration"),
    number!("default_sample_size"),
    number!("default_sample_flags", Flags(8), SAMPLE_FLAGS),
];

impl BoxFields for TrexBox {
    ghost shown = { λ view b. shown_row TREX.now (trex_row b) };

    ghost whole = { λ view b. whole_row TREX.now (trex_row b) };

    fn show<K: FieldSink>(&self, _view: View, sink: &mut K) -> Result<()> {
        let parts = [
            Part::U8(self.version),
            Part::U32(self.flags),
            Part::U32(self.track_id),
            Part::U32(self.default_sample_description_index),
            Part::U32(self.default_sample_duration),
            Part::U32(self.default_sample_size),
            Part::U32(self.default_sample_flags),
        ];
        put_row(TREX, &parts, sink)
    }
}

/// The fields of a movie fragment header (ISO/IEC 14496-12, 8.8.5).
const MFHD: &[NumberName] = &[VERSION, FLAGS, number!("sequence_number")];

impl BoxFields for MfhdBox {
    ghost shown = { λ view b. shown_row MFHD.now (mfhd_row b) };

    ghost whole = { λ view b. whole_row MFHD.now (mfhd_row b) };

    fn show<K: FieldSink>(&self, _view: View, sink: &mut K) -> Result<()> {
        let parts = [
            Part::U8(self.version),
            Part::U32(self.flags),
            Part::U32(self.sequence_number),
        ];
        put_row(MFHD, &parts, sink)
    }
}

/// The decoding time of a fragment's first sample (ISO/IEC 14496-12, 8.8.12).
const TFDT: &[NumberName] = &[VERSION, FLAGS, number!("baseMediaDecodeTime")];

impl BoxFields for TfdtBox {
    ghost shown = { λ view b. shown_row TFDT.now (tfdt_row b) };

    ghost whole = { λ view b. whole_row TFDT.now (tfdt_row b) };

    fn show<K: FieldSink>(&self, _view: View, sink: &mut K) -> Result<()> {
        let parts = [
            Part::U8(self.version),
            Part::U32(self.flags),
            Part::U64(self.base_media_decode_time),
        ];
        put_row(TFDT, &parts, sink)
    }
}

/// The fields of a track fragment header (ISO/IEC 14496-12, 8.8.7). Fields that it lacks are left out.
const TFHD: &[NumberName] = &[
    VERSION,
    number!("flags", Flags(6), TRACK_FRAGMENT),
    number!("track_ID"),
    number!("base_data_offset"),
    number!("sample_description_index"),
    number!("default_sample_duration"),
    number!("default_sample_size"),
    number!("default_sample_flags", Flags(8), SAMPLE_FLAGS),
];

impl BoxFields for TfhdBox {
    ghost shown = { λ view b. shown_row TFHD.now (tfhd_row b) };

    ghost whole = { λ view b. whole_row TFHD.now (tfhd_row b) };

    fn show<K: FieldSink>(&self, _view: View, sink: &mut K) -> Result<()> {
        let parts = [
            Part::U8(self.version),
            Part::U32(self.flags),
            Part::U32(self.track_id),
            Part::SomeU64(self.base_data_offset),
            Part::SomeU32(self.sample_description_index),
            Part::SomeU32(self.default_sample_duration),
            Part::SomeU32(self.default_sample_size),
            Part::SomeU32(self.default_sample_flags),
        ];
        put_row(TFHD, &parts, sink)
    }
}

/// Returns a composition time offset: signed in version 1, unsigned in version 0.
fn offset_as(version: u8, offset: u32) -> Value<'static>
    ensures { shown_of result ≡ offset_as version offset }
{
    if version == 0 {
        Value::Number(u64::from(offset))
    } else {
        Value::Signed(i64::from(offset.cast_signed()))
    }
}

/// Entries are the flags of samples.
#[derive(Clone, Copy)]
pub(crate) struct FlagColumn {}

impl BoxEntry<FlagColumn> for u32 {
    ghost shown = { λ view c n. flags_item MEANINGS.now n };

    ghost whole = { λ view c n s. refl };

    fn show<K: FieldSink>(&self, _view: View, _context: FlagColumn, sink: &mut K) -> Result<()> {
        sink.item(Value::Flags(u64::from(*self), 8, SAMPLE_FLAGS))
    }
}

/// An entry is shown as a composition time offset of a box of this version.
impl BoxEntry<u8> for u32 {
    ghost shown = { λ view version n. offset_item version n };

    ghost whole = { λ view version n s. refl };

    fn show<K: FieldSink>(&self, _view: View, version: u8, sink: &mut K) -> Result<()> {
        sink.item(offset_as(version, *self))
    }
}

/// Hands the lists of the times and sizes of a run to a sink.
fn put_first_columns<K: FieldSink>(b: &TrunBox, view: View, sink: &mut K) -> Result<()>
    ensures { OnOk result (Hands K.trace K.after sink.old (first_columns view.rows b.now) sink.new) }
{
    let durations = &b.sample_durations;
    let sizes = &b.sample_sizes;
    put_list_if("sample_duration", durations, view, (), sink)?;
    put_list_if("sample_size", sizes, view, (), sink)
}

/// Hands the lists of the flags and offsets of a run to a sink.
fn put_last_columns<K: FieldSink>(b: &TrunBox, view: View, sink: &mut K) -> Result<()>
    ensures { OnOk result (Hands K.trace K.after sink.old (last_columns MEANINGS.now view.rows b.now) sink.new) }
{
    let flags = &b.sample_flags;
    let offsets = &b.sample_cts;
    let name = "sample_composition_time_offset";
    put_list_if("sample_flags", flags, view, FlagColumn {}, sink)?;
    put_list_if(name, offsets, view, b.version, sink)
}

/// Hands the lists of a run to a sink, one after the other. Those that it lacks are left out.
fn put_columns<K: FieldSink>(b: &TrunBox, view: View, sink: &mut K) -> Result<()>
    ensures { OnOk result (Hands K.trace K.after sink.old (shown_columns MEANINGS.now view.rows b.now) sink.new) }
{
    put_first_columns(b, view, sink)?;
    put_last_columns(b, view, sink)
}

/// The fields of a sample of a run. Fields that it lacks are left out.
const SAMPLE: &[NumberName] = &[
    number!("sample_duration"),
    number!("sample_size"),
    number!("sample_flags", Flags(8), SAMPLE_FLAGS),
    number!("sample_composition_time_offset"),
];

/// Returns the number at a place of a list, if the list has one there.
fn entry_at(numbers: &Entries<u32>, index: usize) -> Option<u32>
    ensures { result ≡ entry_at numbers.now index }
{
    let numbers = numbers.as_slice();
    if index < numbers.len() {
        Some(numbers[index])
    } else {
        None
    }
}

/// Returns the composition time offset at a place of a list of a box of this version, if the list has one there. It is
/// signed in version 1, and unsigned in version 0.
fn offset_part(version: u8, offsets: &Entries<u32>, index: usize) -> Part<'static>
    ensures { seen_part result ≡ offset_part version offsets.now index }
{
    let offsets = offsets.as_slice();
    if index >= offsets.len() {
        Part::SomeU32(None)
    } else if version == 0 {
        Part::U32(offsets[index])
    } else {
        Part::I32(offsets[index].cast_signed())
    }
}

/// The entries are samples.
impl PlacedEntries for TrunBox {
    ghost shown_at = { λ view b i. row_entry SAMPLE.now (sample_row b i) };

    ghost whole_at = { λ view b i. whole_row_entry SAMPLE.now (sample_row b i) };

    fn show_at<K: FieldSink>(&self, _view: View, index: usize, sink: &mut K) -> Result<()> {
        let parts = [
            Part::SomeU32(entry_at(&self.sample_durations, index)),
            Part::SomeU32(entry_at(&self.sample_sizes, index)),
            Part::SomeU32(entry_at(&self.sample_flags, index)),
            offset_part(self.version, &self.sample_cts, index),
        ];
        put_entry_row(SAMPLE, &parts, sink)
    }
}

/// Returns the number of samples of a run: the length of its longest list.
fn longest(b: &TrunBox) -> usize
    ensures { result ≡ longest b.now }
{
    let first = b.sample_durations.len().max(b.sample_sizes.len());
    let second = b.sample_flags.len().max(b.sample_cts.len());
    first.max(second)
}

/// Hands the samples of a run to a sink.
fn put_samples<K: FieldSink>(b: &TrunBox, view: View, sink: &mut K) -> Result<()>
    ensures { OnOk result (Hands K.trace K.after sink.old (shown_samples
        (⟦<TrunBox as PlacedEntries>⟧.shown_at view b.now)
        view.rows (longest b.now)) sink.new) }
{
    let count = longest(b);
    if count == 0 {
        return Ok(());
    }
    sink.begin_list("samples", count)?;
    put_placed(b, count.min(view.rows), view, sink)?;
    sink.end_list()
}

/// Hands the samples of a run to a sink: its lists, if they are wanted one after the other, or else one list.
fn put_run<K: FieldSink>(b: &TrunBox, view: View, sink: &mut K) -> Result<()>
    ensures { OnOk result (Hands K.trace K.after sink.old (if view.columns
        then shown_columns MEANINGS.now view.rows b.now
        else shown_samples (⟦<TrunBox as PlacedEntries>⟧.shown_at view b.now) view.rows (longest b.now)) sink.new) }
{
    if view.columns {
        put_columns(b, view, sink)
    } else {
        put_samples(b, view, sink)
    }
}

/// The fields of a run before its samples (ISO/IEC 14496-12, 8.8.8).
const TRUN: &[NumberName] = &[
    VERSION,
    number!("flags", Flags(6), TRACK_RUN),
    number!("sample_count"),
    number!("data_offset"),
    number!("first_sample_flags", Flags(8), SAMPLE_FLAGS),
];

impl BoxFields for TrunBox {
    ghost shown = { λ view b. shown_row TRUN.now (trun_row b)
        ++ (if view.columns then shown_columns MEANINGS.now view.rows b
        else shown_samples (⟦<TrunBox as PlacedEntries>⟧.shown_at view b) view.rows (longest b)) };

    ghost whole = { λ view b. members_append (shown_row TRUN.now (trun_row b))
        (if view.columns then shown_columns MEANINGS.now view.rows b
        else shown_samples (⟦<TrunBox as PlacedEntries>⟧.shown_at view b) view.rows (longest b))
        (whole_row TRUN.now (trun_row b))
        (members_if view.columns (shown_columns MEANINGS.now view.rows b)
        (shown_samples (⟦<TrunBox as PlacedEntries>⟧.shown_at view b) view.rows (longest b))
        (whole_columns MEANINGS.now view.rows b)
        (whole_samples (⟦<TrunBox as PlacedEntries>⟧.shown_at view b)
        (⟦<TrunBox as PlacedEntries>⟧.whole_at view b) view.rows (longest b))) };

    fn show<K: FieldSink>(&self, view: View, sink: &mut K) -> Result<()> {
        let parts = [
            Part::U8(self.version),
            Part::U32(self.flags),
            Part::U32(self.sample_count),
            Part::SomeI32(self.data_offset),
            Part::SomeU32(self.first_sample_flags),
        ];
        put_row(TRUN, &parts, sink)?;
        put_run(self, view, sink)
    }
}
