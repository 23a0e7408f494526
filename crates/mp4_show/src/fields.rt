//! The fields of each box that the codec reads.

ghost use Rattle.mp4_stream.specs.declared.any_box.AnyBox.TheVariants as any;

mod entries;
mod fragments;
mod media;
mod metadata;
mod movie;
mod samples;
mod sound;
mod tracks;

use crate::box_fields::BoxFields;
pub(crate) use media::URL;
pub use metadata::{DATA_TYPES, integer, integer_width};
use mp4_shown::{FieldSink, Result, View};
use mp4_stream::{
    AnyBox, Avc1Box, AvcCBox, Co64Box, CttsBox, DataBox, DinfBox, DrefBox, ElstBox, EmsgBox,
    EsdsBox, FtypBox, HdlrBox, Hev1Box, HvcCBox, MdhdBox, MehdBox, MfhdBox, Mp4aBox, MvhdBox,
    SmhdBox, StcoBox, StscBox, StsdBox, StssBox, StszBox, SttsBox, TfdtBox, TfhdBox, TkhdBox,
    TrexBox, TrunBox, Tx3gBox, UrlBox, VmhdBox, Vp09Box, VpccBox,
};

/// A box is shown as the box inside.
impl BoxFields for AnyBox {
    ghost shown = { λ view. elim [
      | any.FtypBox b ↦ ⟦<FtypBox as BoxFields>⟧.shown view b
      | any.MvhdBox b ↦ ⟦<MvhdBox as BoxFields>⟧.shown view b
      | any.TkhdBox b ↦ ⟦<TkhdBox as BoxFields>⟧.shown view b
      | any.MdhdBox b ↦ ⟦<MdhdBox as BoxFields>⟧.shown view b
      | any.MehdBox b ↦ ⟦<MehdBox as BoxFields>⟧.shown view b
      | any.MfhdBox b ↦ ⟦<MfhdBox as BoxFields>⟧.shown view b
      | any.SmhdBox b ↦ ⟦<SmhdBox as BoxFields>⟧.shown view b
      | any.VmhdBox b ↦ ⟦<VmhdBox as BoxFields>⟧.shown view b
      | any.TrexBox b ↦ ⟦<TrexBox as BoxFields>⟧.shown view b
      | any.TfdtBox b ↦ ⟦<TfdtBox as BoxFields>⟧.shown view b
      | any.StcoBox b ↦ ⟦<StcoBox as BoxFields>⟧.shown view b
      | any.Co64Box b ↦ ⟦<Co64Box as BoxFields>⟧.shown view b
      | any.SttsBox b ↦ ⟦<SttsBox as BoxFields>⟧.shown view b
      | any.CttsBox b ↦ ⟦<CttsBox as BoxFields>⟧.shown view b
      | any.StssBox b ↦ ⟦<StssBox as BoxFields>⟧.shown view b
      | any.StszBox b ↦ ⟦<StszBox as BoxFields>⟧.shown view b
      | any.StscBox b ↦ ⟦<StscBox as BoxFields>⟧.shown view b
      | any.ElstBox b ↦ ⟦<ElstBox as BoxFields>⟧.shown view b
      | any.TfhdBox b ↦ ⟦<TfhdBox as BoxFields>⟧.shown view b
      | any.TrunBox b ↦ ⟦<TrunBox as BoxFields>⟧.shown view b
      | any.HdlrBox b ↦ ⟦<HdlrBox as BoxFields>⟧.shown view b
      | any.DataBox b ↦ ⟦<DataBox as BoxFields>⟧.shown view b
      | any.EmsgBox b ↦ ⟦<EmsgBox as BoxFields>⟧.shown view b
      | any.UrlBox b ↦ ⟦<UrlBox as BoxFields>⟧.shown view b
      | any.DrefBox b ↦ ⟦<DrefBox as BoxFields>⟧.shown view b
      | any.DinfBox b ↦ ⟦<DinfBox as BoxFields>⟧.shown view b
      | any.AvcCBox b ↦ ⟦<AvcCBox as BoxFields>⟧.shown view b
      | any.Avc1Box b ↦ ⟦<Avc1Box as BoxFields>⟧.shown view b
      | any.HvcCBox b ↦ ⟦<HvcCBox as BoxFields>⟧.shown view b
      | any.Hev1Box b ↦ ⟦<Hev1Box as BoxFields>⟧.shown view b
      | any.VpccBox b ↦ ⟦<VpccBox as BoxFields>⟧.shown view b
      | any.Vp09Box b ↦ ⟦<Vp09Box as BoxFields>⟧.shown view b
      | any.Tx3gBox b ↦ ⟦<Tx3gBox as BoxFields>⟧.shown view b
      | any.EsdsBox b ↦ ⟦<EsdsBox as BoxFields>⟧.shown view b
      | any.Mp4aBox b ↦ ⟦<Mp4aBox as BoxFields>⟧.shown view b
      | any.StsdBox b ↦ ⟦<StsdBox as BoxFields>⟧.shown view b
    ] };

    ghost whole = { λ view. elim [
      | any.FtypBox b ↦ ⟦<FtypBox as BoxFields>⟧.whole view b
      | any.MvhdBox b ↦ ⟦<MvhdBox as BoxFields>⟧.whole view b
      | any.TkhdBox b ↦ ⟦<TkhdBox as BoxFields>⟧.whole view b
      | any.MdhdBox b ↦ ⟦<MdhdBox as BoxFields>⟧.whole view b
      | any.MehdBox b ↦ ⟦<MehdBox as BoxFields>⟧.whole view b
      | any.MfhdBox b ↦ ⟦<MfhdBox as BoxFields>⟧.whole view b
      | any.SmhdBox b ↦ ⟦<SmhdBox as BoxFields>⟧.whole view b
      | any.VmhdBox b ↦ ⟦<VmhdBox as BoxFields>⟧.whole view b
      | any.TrexBox b ↦ ⟦<TrexBox as BoxFields>⟧.whole view b
      | any.TfdtBox b ↦ ⟦<TfdtBox as BoxFields>⟧.whole view b
      | any.StcoBox b ↦ ⟦<StcoBox as BoxFields>⟧.whole view b
      | any.Co64Box b ↦ ⟦<Co64Box as BoxFields>⟧.whole view b
      | any.SttsBox b ↦ ⟦<SttsBox as BoxFields>⟧.whole view b
      | any.CttsBox b ↦ ⟦<CttsBox as BoxFields>⟧.whole view b
      | any.StssBox b ↦ ⟦<StssBox as BoxFields>⟧.whole view b
      | any.StszBox b ↦ ⟦<StszBox as BoxFields>⟧.whole view b
      | any.StscBox b ↦ ⟦<StscBox as BoxFields>⟧.whole view b
      | any.ElstBox b ↦ ⟦<ElstBox as BoxFields>⟧.whole view b
      | any.TfhdBox b ↦ ⟦<TfhdBox as BoxFields>⟧.whole view b
      | any.TrunBox b ↦ ⟦<TrunBox as BoxFields>⟧.whole view b
      | any.HdlrBox b ↦ ⟦<HdlrBox as BoxFields>⟧.whole view b
      | any.DataBox b ↦ ⟦<DataBox as BoxFields>⟧.whole view b
      | any.EmsgBox b ↦ ⟦<EmsgBox as BoxFields>⟧.whole view b
      | any.UrlBox b ↦ ⟦<UrlBox as BoxFields>⟧.whole view b
      | any.DrefBox b ↦ ⟦<DrefBox as BoxFields>⟧.whole view b
      | any.DinfBox b ↦ ⟦<DinfBox as BoxFields>⟧.whole view b
      | any.AvcCBox b ↦ ⟦<AvcCBox as BoxFields>⟧.whole view b
      | any.Avc1Box b ↦ ⟦<Avc1Box as BoxFields>⟧.whole view b
      | any.HvcCBox b ↦ ⟦<HvcCBox as BoxFields>⟧.whole view b
      | any.Hev1Box b ↦ ⟦<Hev1Box as BoxFields>⟧.whole view b
      | any.VpccBox b ↦ ⟦<VpccBox as BoxFields>⟧.whole view b
      | any.Vp09Box b ↦ ⟦<Vp09Box as BoxFields>⟧.whole view b
      | any.Tx3gBox b ↦ ⟦<Tx3gBox as BoxFields>⟧.whole view b
      | any.EsdsBox b ↦ ⟦<EsdsBox as BoxFields>⟧.whole view b
      | any.Mp4aBox b ↦ ⟦<Mp4aBox as BoxFields>⟧.whole view b
      | any.StsdBox b ↦ ⟦<StsdBox as BoxFields>⟧.whole view b
    ] };

    fn show<K: FieldSink>(&self, view: View, sink: &mut K) -> Result<()> {
        match self {
            AnyBox::FtypBox(b) => b.show(view, sink),
            AnyBox::MvhdBox(b) => b.show(view, sink),
            AnyBox::TkhdBox(b) => b.show(view, sink),
            AnyBox::MdhdBox(b) => b.show(view, sink),
            AnyBox::MehdBox(b) => b.show(view, sink),
            AnyBox::MfhdBox(b) => b.show(view, sink),
            AnyBox::SmhdBox(b) => b.show(view, sink),
            AnyBox::VmhdBox(b) => b.show(view, sink),
            AnyBox::TrexBox(b) => b.show(view, sink),
            AnyBox::TfdtBox(b) => b.show(view, sink),
            AnyBox::StcoBox(b) => b.show(view, sink),
            AnyBox::Co64Box(b) => b.show(view, sink),
            AnyBox::SttsBox(b) => b.show(view, sink),
            AnyBox::CttsBox(b) => b.show(view, sink),
            AnyBox::StssBox(b) => b.show(view, sink),
            AnyBox::StszBox(b) => b.show(view, sink),
            AnyBox::StscBox(b) => b.show(view, sink),
            AnyBox::ElstBox(b) => b.show(view, sink),
            AnyBox::TfhdBox(b) => b.show(view, sink),
            AnyBox::TrunBox(b) => b.show(view, sink),
            AnyBox::HdlrBox(b) => b.show(view, sink),
            AnyBox::DataBox(b) => b.show(view, sink),
            AnyBox::EmsgBox(b) => b.show(view, sink),
            AnyBox::UrlBox(b) => b.show(view, sink),
            AnyBox::DrefBox(b) => b.show(view, sink),
            AnyBox::DinfBox(b) => b.show(view, sink),
            AnyBox::AvcCBox(b) => b.show(view, sink),
            AnyBox::Avc1Box(b) => b.show(view, sink),
            AnyBox::HvcCBox(b) => b.show(view, sink),
            AnyBox::Hev1Box(b) => b.show(view, sink),
            AnyBox::VpccBox(b) => b.show(view, sink),
            AnyBox::Vp09Box(b) => b.show(view, sink),
            AnyBox::Tx3gBox(b) => b.show(view, sink),
            AnyBox::EsdsBox(b) => b.show(view, sink),
            AnyBox::Mp4aBox(b) => b.show(view, sink),
            AnyBox::StsdBox(b) => b.show(view, sink),
        }
    }
}
