//! The fields of the boxes of a track: its header, its edits, its media's header and handler.

ghost use Rattle.std.specs.Prelude.{◌≡◌, codes};
ghost use Rattle.mp4_show.specs.BoxRows.{edit_row, hdlr_row, mdhd_row, tkhd_row};
ghost use Rattle.mp4_show.specs.Edits.{signed_time};
ghost use Rattle.mp4_show.specs.Lists.{shown_table, whole_table};
ghost use Rattle.mp4_show.specs.Row.{full_row, row_entry, shown_row, whole_row, whole_row_entry};
ghost use Rattle.mp4_show.specs.declared.fields.tracks.TheConstants.{EDIT, HDLR, MDHD, TKHD};
ghost use Rattle.mp4_show.specs.declared.row.TheConstants.{FULL};

use crate::box_fields::BoxFields;
use crate::flag_names::TRACK;
use crate::lists::{BoxEntry, put_table};
use crate::row::{FULL, Part, field, put_entry_row, put_row};
use mp4_shown::{FLAGS, FieldSink, NumberName, Result, VERSION, View, number};
use mp4_stream::{ElstBox, ElstEntry, HdlrBox, MdhdBox, TkhdBox};

/// The fields of a track header (ISO/IEC 14496-12, 8.3.2). The standard has a sign in `layer`, `alternate_group` and
/// `volume`.
const TKHD: &[NumberName] = &[
    VERSION,
    number!("flags", Flags(6), TRACK),
    number!("creation_time", Date),
    number!("modification_time", Date),
    number!("track_ID"),
    number!("duration"),
    number!("layer"),
    number!("alternate_group"),
    number!("volume", Fixed(8)),
    field!("matrix"),
    number!("width", Fixed(16)),
    number!("height", Fixed(16)),
];

impl BoxFields for TkhdBox {
    ghost shown = { λ view b. shown_row TKHD.now (tkhd_row b) };

    ghost whole = { λ view b. whole_row TKHD.now (tkhd_row b) };

    fn show<K: FieldSink>(&self, _view: View, sink: &mut K) -> Result<()> {
        let parts = [
            Part::U8(self.version),
            Part::U32(self.flags),
            Part::U64(self.creation_time),
            Part::U64(self.modification_time),
            Part::U32(self.track_id),
            Part::U64(self.duration),
            Part::I16(self.layer.cast_signed()),
            Part::I16(self.alternate_group.cast_signed()),
            Part::I16(self.volume.raw_value().cast_signed()),
            Part::Matrix(&self.matrix),
            Part::U32(self.width.raw_value()),
            Part::U32(self.height.raw_value()),
        ];
        put_row(TKHD, &parts, sink)
    }
}

/// The fields of a media header (ISO/IEC 14496-12, 8.4.2).
const MDHD: &[NumberName] = &[
    VERSION,
    FLAGS,
    number!("creation_time", Date),
    number!("modification_time", Date),
    number!("timescale"),
    number!("duration"),
    field!("language"),
];

impl BoxFields for MdhdBox {
    ghost shown = { λ view b. shown_row MDHD.now (mdhd_row b) };

    ghost whole = { λ view b. whole_row MDHD.now (mdhd_row b) };

    fn show<K: FieldSink>(&self, _view: View, sink: &mut K) -> Result<()> {
        let parts = [
            Part::U8(self.version),
            Part::U32(self.flags),
            Part::U64(self.creation_time),
            Part::U64(self.modification_time),
            Part::U32(self.timescale),
            Part::U64(self.duration),
            Part::Language(self.language.as_str()),
        ];
        put_row(MDHD, &parts, sink)
    }
}

/// The fields of a handler reference (ISO/IEC 14496-12, 8.4.3).
const HDLR: &[NumberName] = &[VERSION, FLAGS, field!("handler_type"), field!("name")];

impl BoxFields for HdlrBox {
    ghost shown = { λ view b. shown_row HDLR.now (hdlr_row b) };

    ghost whole = { λ view b. whole_row HDLR.now (hdlr_row b) };

    fn show<K: FieldSink>(&self, _view: View, sink: &mut K) -> Result<()> {
        let parts = [
            Part::U8(self.version),
            Part::U32(self.flags),
            Part::Code(self.handler_type),
            Part::Text(self.name.as_bytes()),
        ];
        put_row(HDLR, &parts, sink)
    }
}

/// Returns `media_time` with its sign: it has 32 bits in version 0, and 64 in version 1.
fn signed_time(version: u8, media_time: u64) -> i64
    ensures { result ≡ signed_time version media_time }
{
    if version == 0 && media_time < 0x1_0000_0000 {
        i64::from((media_time as u32).cast_signed())
    } else {
        media_time.cast_signed()
    }
}

/// The fields of an entry of an edit list. The standard has a sign in both halves of the rate.
const EDIT: &[NumberName] = &[
    number!("segment_duration"),
    field!("media_time"),
    number!("media_rate_integer"),
    number!("media_rate_fraction"),
];

/// The version of the box says how many bits a media time has.
impl BoxEntry<u8> for ElstEntry {
    ghost shown = { λ view version x. row_entry EDIT.now (edit_row version x) };

    ghost whole = { λ view version x. whole_row_entry EDIT.now (edit_row version x) };

    fn show<K: FieldSink>(&self, _view: View, version: u8, sink: &mut K) -> Result<()> {
        let parts = [
            Part::U64(self.segment_duration),
            Part::MediaTime(signed_time(version, self.media_time)),
            Part::I16(self.media_rate.cast_signed()),
            Part::I16(self.media_rate_fraction.cast_signed()),
        ];
        put_entry_row(EDIT, &parts, sink)
    }
}

/// An edit list (ISO/IEC 14496-12, 8.6.6).
impl BoxFields for ElstBox {
    ghost shown = { λ view b. shown_table FULL.now (full_row b.version b.flags) (codes "entries")
        (⟦<ElstEntry as BoxEntry<u8>>⟧.shown view b.version) view.rows b.entries };

    ghost whole = { λ view b. whole_table FULL.now (full_row b.version b.flags) (codes "entries")
        (⟦<ElstEntry as BoxEntry<u8>>⟧.shown view b.version) (⟦<ElstEntry as BoxEntry<u8>>⟧.whole view b.version)
        view.rows b.entries };

    fn show<K: FieldSink>(&self, view: View, sink: &mut K) -> Result<()> {
        let parts = [Part::U8(self.version), Part::U32(self.flags)];
        put_table(
            FULL,
            &parts,
            "entries",
            &self.entries,
            view,
            self.version,
            sink,
        )
    }
}
