//! The fields of the tables of samples.

ghost use Rattle.std.specs.Prelude.{codes};
ghost use Rattle.mp4_show.specs.Lists.{shown_table, whole_table};
ghost use Rattle.mp4_show.specs.Row.{full_row, row_entry, whole_row_entry};
ghost use Rattle.mp4_show.specs.SampleRows.{chunks_row, delta_row, offset_row, stsz_row};
ghost use Rattle.mp4_show.specs.declared.fields.samples.TheConstants.{CHUNKS, DELTA, OFFSET, STSZ};
ghost use Rattle.mp4_show.specs.declared.row.TheConstants.{FULL};

use crate::box_fields::BoxFields;
use crate::lists::{BoxEntry, put_table};
use crate::row::{FULL, Part, put_entry_row};
use mp4_shown::{FLAGS, FieldSink, NumberName, Result, VERSION, View, number};
use mp4_stream::{
    Co64Box, CttsBox, CttsEntry, StcoBox, StscBox, StscEntry, StssBox, StszBox, SttsBox, SttsEntry,
};

/// The offsets of chunks (ISO/IEC 14496-12, 8.7.5).
impl BoxFields for StcoBox {
    ghost shown = { λ view b. shown_table FULL.now (full_row b.version b.flags) (codes "chunk_offset")
        (⟦<u32 as BoxEntry<()>>⟧.shown view tt) view.rows b.entries };

    ghost whole = { λ view b. whole_table FULL.now (full_row b.version b.flags) (codes "chunk_offset")
        (⟦<u32 as BoxEntry<()>>⟧.shown view tt) (⟦<u32 as BoxEntry<()>>⟧.whole view tt) view.rows b.entries };

    fn show<K: FieldSink>(&self, view: View, sink: &mut K) -> Result<()> {
        let parts = [Part::U8(self.version), Part::U32(self.flags)];
        put_table(FULL, &parts, "chunk_offset", &self.entries, view, (), sink)
    }
}

/// The offsets of chunks, in 64 bits (ISO/IEC 14496-12, 8.7.5).
impl BoxFields for Co64Box {
    ghost shown = { λ view b. shown_table FULL.now (full_row b.version b.flags) (codes "chunk_offset")
        (⟦<u64 as BoxEntry<()>>⟧.shown view tt) view.rows b.entries };

    ghost whole = { λ view b. whole_table FULL.now (full_row b.version b.flags) (codes "chunk_offset")
        (⟦<u64 as BoxEntry<()>>⟧.shown view tt) (⟦<u64 as BoxEntry<()>>⟧.whole view tt) view.rows b.entries };

    fn show<K: FieldSink>(&self, view: View, sink: &mut K) -> Result<()> {
        let parts = [Part::U8(self.version), Part::U32(self.flags)];
        put_table(FULL, &parts, "chunk_offset", &self.entries, view, (), sink)
    }
}

/// The samples with which decoding can begin (ISO/IEC 14496-12, 8.6.2).
impl BoxFields for StssBox {
    ghost shown = { λ view b. shown_table FULL.now (full_row b.version b.flags) (codes "sample_number")
        (⟦<u32 as BoxEntry<()>>⟧.shown view tt) view.rows b.entries };

    ghost whole = { λ view b. whole_table FULL.now (full_row b.version b.flags) (codes "sample_number")
        (⟦<u32 as BoxEntry<()>>⟧.shown view tt) (⟦<u32 as BoxEntry<()>>⟧.whole view tt) view.rows b.entries };

    fn show<K: FieldSink>(&self, view: View, sink: &mut K) -> Result<()> {
        let parts = [Part::U8(self.version), Part::U32(self.flags)];
        put_table(FULL, &parts, "sample_number", &self.entries, view, (), sink)
    }
}

/// The fields of the sizes of samples before their list (ISO/IEC 14496-12, 8.7.3.2).
const STSZ: &[NumberName] = &[
    VERSION,
    FLAGS,
    number!("sample_size"),
    number!("sample_count"),
];

impl BoxFields for StszBox {
    ghost shown = { λ view b. shown_table STSZ.now (stsz_row b) (codes "entry_size")
        (⟦<u32 as BoxEntry<()>>⟧.shown view tt) view.rows b.sample_sizes };

    ghost whole = { λ view b. whole_table STSZ.now (stsz_row b) (codes "entry_size")
        (⟦<u32 as BoxEntry<()>>⟧.shown view tt) (⟦<u32 as BoxEntry<()>>⟧.whole view tt) view.rows b.sample_sizes };

    fn show<K: FieldSink>(&self, view: View, sink: &mut K) -> Result<()> {
        let parts = [
            Part::U8(self.version),
            Part::U32(self.flags),
            Part::U32(self.sample_size),
            Part::U32(self.sample_count),
        ];
        put_table(
            STSZ,
            &parts,
            "entry_size",
            &self.sample_sizes,
            view,
            (),
            sink,
        )
    }
}

/// The fields of an entry of the decoding times of samples.
const DELTA: &[NumberName] = &[number!("sample_count"), number!("sample_delta")];

impl BoxEntry<()> for SttsEntry {
    ghost shown = { λ view c x. row_entry DELTA.now (delta_row x) };

    ghost whole = { λ view c x. whole_row_entry DELTA.now (delta_row x) };

    fn show<K: FieldSink>(&self, _view: View, _context: (), sink: &mut K) -> Result<()> {
        let parts = [Part::U32(self.sample_count), Part::U32(self.sample_delta)];
        put_entry_row(DELTA, &parts, sink)
    }
}

/// The decoding times of samples (ISO/IEC 14496-12, 8.6.1.2).
impl BoxFields for SttsBox {
    ghost shown = { λ view b. shown_table FULL.now (full_row b.version b.flags) (codes "entries")
        (⟦<SttsEntry as BoxEntry<()>>⟧.shown view tt) view.rows b.entries };

    ghost whole = { λ view b. whole_table FULL.now (full_row b.version b.flags) (codes "entries")
        (⟦<SttsEntry as BoxEntry<()>>⟧.shown view tt)
        (⟦<SttsEntry as BoxEntry<()>>⟧.whole view tt) view.rows b.entries };

    fn show<K: FieldSink>(&self, view: View, sink: &mut K) -> Result<()> {
        let parts = [Part::U8(self.version), Part::U32(self.flags)];
        put_table(FULL, &parts, "entries", &self.entries, view, (), sink)
    }
}

/// The fields of an entry of the composition times of samples. The codec reads every offset with a sign.
const OFFSET: &[NumberName] = &[number!("sample_count"), number!("sample_offset")];

impl BoxEntry<()> for CttsEntry {
    ghost shown = { λ view c x. row_entry OFFSET.now (offset_row x) };

    ghost whole = { λ view c x. whole_row_entry OFFSET.now (offset_row x) };

    fn show<K: FieldSink>(&self, _view: View, _context: (), sink: &mut K) -> Result<()> {
        let parts = [Part::U32(self.sample_count), Part::I32(self.sample_offset)];
        put_entry_row(OFFSET, &parts, sink)
    }
}

/// The composition times of samples (ISO/IEC 14496-12, 8.6.1.3).
impl BoxFields for CttsBox {
    ghost shown = { λ view b. shown_table FULL.now (full_row b.version b.flags) (codes "entries")
        (⟦<CttsEntry as BoxEntry<()>>⟧.shown view tt) view.rows b.entries };

    ghost whole = { λ view b. whole_table FULL.now (full_row b.version b.flags) (codes "entries")
        (⟦<CttsEntry as BoxEntry<()>>⟧.shown view tt)
        (⟦<CttsEntry as BoxEntry<()>>⟧.whole view tt) view.rows b.entries };

    fn show<K: FieldSink>(&self, view: View, sink: &mut K) -> Result<()> {
        let parts = [Part::U8(self.version), Part::U32(self.flags)];
        put_table(FULL, &parts, "entries", &self.entries, view, (), sink)
    }
}

/// The fields of a run of chunks. The number of its first sample isn't in the file.
const CHUNKS: &[NumberName] = &[
    number!("first_chunk"),
    number!("samples_per_chunk"),
    number!("sample_description_index"),
    number!("first_sample"),
];

impl BoxEntry<()> for StscEntry {
    ghost shown = { λ view c x. row_entry CHUNKS.now (chunks_row x) };

    ghost whole = { λ view c x. whole_row_entry CHUNKS.now (chunks_row x) };

    fn show<K: FieldSink>(&self, _view: View, _context: (), sink: &mut K) -> Result<()> {
        let parts = [
            Part::U32(self.first_chunk),
            Part::U32(self.samples_per_chunk),
            Part::U32(self.sample_description_index),
            Part::U32(self.first_sample),
        ];
        put_entry_row(CHUNKS, &parts, sink)
    }
}

/// The samples of chunks (ISO/IEC 14496-12, 8.7.4).
impl BoxFields for StscBox {
    ghost shown = { λ view b. shown_table FULL.now (full_row b.version b.flags) (codes "entries")
        (⟦<StscEntry as BoxEntry<()>>⟧.shown view tt) view.rows b.entries };

    ghost whole = { λ view b. whole_table FULL.now (full_row b.version b.flags) (codes "entries")
        (⟦<StscEntry as BoxEntry<()>>⟧.shown view tt)
        (⟦<StscEntry as BoxEntry<()>>⟧.whole view tt) view.rows b.entries };

    fn show<K: FieldSink>(&self, view: View, sink: &mut K) -> Result<()> {
        let parts = [Part::U8(self.version), Part::U32(self.flags)];
        put_table(FULL, &parts, "entries", &self.entries, view, (), sink)
    }
}
