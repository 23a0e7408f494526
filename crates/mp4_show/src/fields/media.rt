//! The fields of the headers of media, and of references to media data.

ghost use Rattle.std.specs.Prelude.{codes};
ghost use Rattle.mp4_show.specs.BoxRows.{smhd_row, url_row, vmhd_row};
ghost use Rattle.mp4_show.specs.Row.{full_row, row_and_group_if, shown_row, whole_row, whole_row_and_group_if};
ghost use Rattle.mp4_show.specs.declared.fields.media.TheConstants.{SMHD, URL, VMHD};
ghost use Rattle.mp4_show.specs.declared.row.TheConstants.{FULL};
ghost use Rattle.mp4_shown.specs.Members.{whole_group};
ghost use Rattle.mp4_shown.specs.Shapes.{shown_group};

use crate::box_fields::BoxFields;
use crate::flag_names::REFERENCE;
use crate::row::{FULL, Part, field, put_group, put_group_if, put_row};
use mp4_shown::{FLAGS, FieldSink, NumberName, Result, VERSION, View, number};
use mp4_stream::{DinfBox, DrefBox, SmhdBox, UrlBox, VmhdBox};

/// The fields of a video media header (ISO/IEC 14496-12, 12.1.2).
const VMHD: &[NumberName] = &[
    VERSION,
    FLAGS,
    number!("graphicsmode"),
    number!("opcolor_red"),
    number!("opcolor_green"),
    number!("opcolor_blue"),
];

impl BoxFields for VmhdBox {
    ghost shown = { λ view b. shown_row VMHD.now (vmhd_row b) };

    ghost whole = { λ view b. whole_row VMHD.now (vmhd_row b) };

    fn show<K: FieldSink>(&self, _view: View, sink: &mut K) -> Result<()> {
        let parts = [
            Part::U8(self.version),
            Part::U32(self.flags),
            Part::U16(self.graphics_mode),
            Part::U16(self.op_color.red),
            Part::U16(self.op_color.green),
            Part::U16(self.op_color.blue),
        ];
        put_row(VMHD, &parts, sink)
    }
}

/// The fields of a sound media header (ISO/IEC 14496-12, 12.2.2).
const SMHD: &[NumberName] = &[VERSION, FLAGS, number!("balance", Fixed(8))];

impl BoxFields for SmhdBox {
    ghost shown = { λ view b. shown_row SMHD.now (smhd_row b) };

    ghost whole = { λ view b. whole_row SMHD.now (smhd_row b) };

    fn show<K: FieldSink>(&self, _view: View, sink: &mut K) -> Result<()> {
        let parts = [
            Part::U8(self.version),
            Part::U32(self.flags),
            Part::I16(self.balance.raw_value()),
        ];
        put_row(SMHD, &parts, sink)
    }
}

/// The fields of a reference to media data by a location (ISO/IEC 14496-12, 8.7.2).
pub(crate) const URL: &[NumberName] = &[
    VERSION,
    number!("flags", Flags(6), REFERENCE),
    field!("location"),
];

impl BoxFields for UrlBox {
    ghost shown = { λ view b. shown_row URL.now (url_row b) };

    ghost whole = { λ view b. whole_row URL.now (url_row b) };

    fn show<K: FieldSink>(&self, _view: View, sink: &mut K) -> Result<()> {
        let parts = [
            Part::U8(self.version),
            Part::U32(self.flags),
            Part::Text(self.location.as_bytes()),
        ];
        put_row(URL, &parts, sink)
    }
}

/// The references to media data (ISO/IEC 14496-12, 8.7.2). The codec keeps the last `url `.
impl BoxFields for DrefBox {
    ghost shown = { λ view b. row_and_group_if FULL.now (full_row b.version b.flags) (codes "url ")
        (⟦<UrlBox as BoxFields>⟧.shown view) b.url };

    ghost whole = { λ view b. whole_row_and_group_if FULL.now (full_row b.version b.flags) (codes "url ")
        (⟦<UrlBox as BoxFields>⟧.shown view) (⟦<UrlBox as BoxFields>⟧.whole view) b.url };

    fn show<K: FieldSink>(&self, view: View, sink: &mut K) -> Result<()> {
        let parts = [Part::U8(self.version), Part::U32(self.flags)];
        put_row(FULL, &parts, sink)?;
        put_group_if("url ", &self.url, view, sink)
    }
}

/// The place of media data (ISO/IEC 14496-12, 8.7.1).
impl BoxFields for DinfBox {
    ghost shown = { λ view b. shown_group (codes "dref") (⟦<DrefBox as BoxFields>⟧.shown view b.dref) };

    ghost whole = { λ view b. whole_group (codes "dref") (⟦<DrefBox as BoxFields>⟧.shown view b.dref)
        (⟦<DrefBox as BoxFields>⟧.whole view b.dref) };

    fn show<K: FieldSink>(&self, view: View, sink: &mut K) -> Result<()> {
        put_group("dref", self.dref(), view, sink)
    }
}
