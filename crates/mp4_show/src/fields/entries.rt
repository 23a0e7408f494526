//! The fields of sample entries of video and subtitles, and of the configurations of their decoders.

ghost use Rattle.std.specs.Prelude.{◌++◌, OnOk, codes};
ghost use Rattle.mp4_show.specs.EntryRows.{avc1_row, avcc_row, color_row, hev1_row, hvcc_row};
ghost use Rattle.mp4_show.specs.EntryRows.{style_row, tx3g_row, vp09_row, vpcc_row};
ghost use Rattle.mp4_show.specs.Lists.{listed, shown_table, whole_listed, whole_table};
ghost use Rattle.mp4_show.specs.Row.{row_and_group, shown_row, whole_row, whole_row_and_group};
ghost use Rattle.mp4_show.specs.declared.fields.entries.TheConstants.{AVC1, AVCC, COLOR, HEV1, HVCC, STYLE, TX3G};
ghost use Rattle.mp4_show.specs.declared.fields.entries.TheConstants.{VP09, VPCC};
ghost use Rattle.mp4_shown.specs.Hands.{Hands};
ghost use Rattle.mp4_shown.specs.Lists.{bytes_item};
ghost use Rattle.mp4_shown.specs.Members.{members_append, whole_bytes_item, whole_group};
ghost use Rattle.mp4_shown.specs.Shapes.{shown_group};

use crate::box_fields::BoxFields;
use crate::lists::{BoxEntry, put_list, put_table};
use crate::row::{Part, field, put_group, put_row};
use mp4_shown::{FLAGS, FieldSink, NumberName, Result, VERSION, Value, View, number};
use mp4_stream::{
    Avc1Box, AvcCBox, Hev1Box, HvcCBox, NalUnit, RgbaColor, Tx3gBox, Vp09Box, VpccBox,
};

/// A unit is shown as its bytes.
impl BoxEntry<()> for NalUnit {
    ghost shown = { λ view c unit. bytes_item unit.bytes };

    ghost whole = { λ view c unit. whole_bytes_item unit.bytes };

    fn show<K: FieldSink>(&self, _view: View, _context: (), sink: &mut K) -> Result<()> {
        sink.item(Value::Bytes(self.bytes.as_slice()))
    }
}

/// The fields of the configuration of an AVC decoder before its sets (ISO/IEC 14496-15, 5.3.3.1).
const AVCC: &[NumberName] = &[
    number!("configurationVersion"),
    number!("AVCProfileIndication"),
    number!("profile_compatibility"),
    number!("AVCLevelIndication"),
    number!("lengthSizeMinusOne"),
];

impl BoxFields for AvcCBox {
    ghost shown = { λ view b. shown_table AVCC.now (avcc_row b) (codes "sequenceParameterSetNALUnit")
        (⟦<NalUnit as BoxEntry<()>>⟧.shown view tt) view.rows b.sequence_parameter_sets
        ++ listed (codes "pictureParameterSetNALUnit") (⟦<NalUnit as BoxEntry<()>>⟧.shown view tt) view.rows
        b.picture_parameter_sets };

    ghost whole = { λ view b. members_append
        (shown_table AVCC.now (avcc_row b) (codes "sequenceParameterSetNALUnit")
        (⟦<NalUnit as BoxEntry<()>>⟧.shown view tt) view.rows b.sequence_parameter_sets)
        (listed (codes "pictureParameterSetNALUnit") (⟦<NalUnit as BoxEntry<()>>⟧.shown view tt) view.rows
        b.picture_parameter_sets)
        (whole_table AVCC.now (avcc_row b) (codes "sequenceParameterSetNALUnit")
        (⟦<NalUnit as BoxEntry<()>>⟧.shown view tt) (⟦<NalUnit as BoxEntry<()>>⟧.whole view tt) view.rows
        b.sequence_parameter_sets)
        (whole_listed (codes "pictureParameterSetNALUnit") (⟦<NalUnit as BoxEntry<()>>⟧.shown view tt)
        (⟦<NalUnit as BoxEntry<()>>⟧.whole view tt) view.rows b.picture_parameter_sets) };

    fn show<K: FieldSink>(&self, view: View, sink: &mut K) -> Result<()> {
        let parts = [
            Part::U8(self.configuration_version),
            Part::U8(self.avc_profile_indication),
            Part::U8(self.profile_compatibility),
            Part::U8(self.avc_level_indication),
            Part::U8(self.length_size_minus_one),
        ];
        let sequences = &self.sequence_parameter_sets;
        let pictures = &self.picture_parameter_sets;
        put_table(
            AVCC,
            &parts,
            "sequenceParameterSetNALUnit",
            sequences,
            view,
            (),
            sink,
        )?;
        put_list("pictureParameterSetNALUnit", pictures, view, (), sink)
    }
}

/// The field of the configuration of an HEVC decoder that the codec reads (ISO/IEC 14496-15, 8.3.3.1).
const HVCC: &[NumberName] = &[number!("configurationVersion")];

impl BoxFields for HvcCBox {
    ghost shown = { λ view b. shown_row HVCC.now (hvcc_row b) };

    ghost whole = { λ view b. whole_row HVCC.now (hvcc_row b) };

    fn show<K: FieldSink>(&self, _view: View, sink: &mut K) -> Result<()> {
        let parts = [Part::U8(self.configuration_version)];
        put_row(HVCC, &parts, sink)
    }
}

/// The configuration of a VP decoder (VP Codec ISO Media File Format Binding, 2.2).
const VPCC: &[NumberName] = &[
    VERSION,
    FLAGS,
    number!("profile"),
    number!("level"),
    number!("bitDepth"),
    number!("chromaSubsampling"),
    number!("videoFullRangeFlag"),
    number!("colourPrimaries"),
    number!("transferCharacteristics"),
    number!("matrixCoefficients"),
    number!("codecInitializationDataSize"),
];

impl BoxFields for VpccBox {
    ghost shown = { λ view b. shown_row VPCC.now (vpcc_row b) };

    ghost whole = { λ view b. whole_row VPCC.now (vpcc_row b) };

    fn show<K: FieldSink>(&self, _view: View, sink: &mut K) -> Result<()> {
        let parts = [
            Part::U8(self.version),
            Part::U32(self.flags),
            Part::U8(self.profile),
            Part::U8(self.level),
            Part::U8(self.bit_depth),
            Part::U8(self.chroma_subsampling),
            Part::Bit(self.video_full_range_flag),
            Part::U8(self.color_primaries),
            Part::U8(self.transfer_characteristics),
            Part::U8(self.matrix_coefficients),
            Part::U16(self.codec_initialization_data_size),
        ];
        put_row(VPCC, &parts, sink)
    }
}

/// A sample entry of AVC video (ISO/IEC 14496-15, 5.4.2.1).
const AVC1: &[NumberName] = &[
    number!("data_reference_index"),
    number!("width"),
    number!("height"),
    number!("horizresolution", Fixed(16)),
    number!("vertresolution", Fixed(16)),
    number!("frame_count"),
    number!("depth"),
];

impl BoxFields for Avc1Box {
    ghost shown = { λ view b. row_and_group AVC1.now (avc1_row b) (codes "avcC")
        (⟦<AvcCBox as BoxFields>⟧.shown view b.avcc) };

    ghost whole = { λ view b. whole_row_and_group AVC1.now (avc1_row b) (codes "avcC")
        (⟦<AvcCBox as BoxFields>⟧.shown view b.avcc) (⟦<AvcCBox as BoxFields>⟧.whole view b.avcc) };

    fn show<K: FieldSink>(&self, view: View, sink: &mut K) -> Result<()> {
        let parts = [
            Part::U16(self.data_reference_index),
            Part::U16(self.width),
            Part::U16(self.height),
            Part::U32(self.horizresolution.raw_value()),
            Part::U32(self.vertresolution.raw_value()),
            Part::U16(self.frame_count),
            Part::U16(self.depth),
        ];
        put_row(AVC1, &parts, sink)?;
        put_group("avcC", &self.avcc, view, sink)
    }
}

/// A sample entry of HEVC video (ISO/IEC 14496-15, 8.4.1.1).
const HEV1: &[NumberName] = &[
    number!("data_reference_index"),
    number!("width"),
    number!("height"),
    number!("horizresolution", Fixed(16)),
    number!("vertresolution", Fixed(16)),
    number!("frame_count"),
    number!("depth"),
];

impl BoxFields for Hev1Box {
    ghost shown = { λ view b. row_and_group HEV1.now (hev1_row b) (codes "hvcC")
        (⟦<HvcCBox as BoxFields>⟧.shown view b.hvcc) };

    ghost whole = { λ view b. whole_row_and_group HEV1.now (hev1_row b) (codes "hvcC")
        (⟦<HvcCBox as BoxFields>⟧.shown view b.hvcc) (⟦<HvcCBox as BoxFields>⟧.whole view b.hvcc) };

    fn show<K: FieldSink>(&self, view: View, sink: &mut K) -> Result<()> {
        let parts = [
            Part::U16(self.data_reference_index),
            Part::U16(self.width),
            Part::U16(self.height),
            Part::U32(self.horizresolution.raw_value()),
            Part::U32(self.vertresolution.raw_value()),
            Part::U16(self.frame_count),
            Part::U16(self.depth),
        ];
        put_row(HEV1, &parts, sink)?;
        put_group("hvcC", &self.hvcc, view, sink)
    }
}

/// A sample entry of VP9 video (VP Codec ISO Media File Format Binding, 2.1).
const VP09: &[NumberName] = &[
    VERSION,
    FLAGS,
    number!("start_code"),
    number!("data_reference_index"),
    field!("reserved0"),
    number!("width"),
    number!("height"),
    field!("horizresolution"),
    field!("vertresolution"),
    field!("reserved1"),
    number!("frame_count"),
    field!("compressorname"),
    number!("depth"),
    number!("end_code"),
];

impl BoxFields for Vp09Box {
    ghost shown = { λ view b. row_and_group VP09.now (vp09_row b) (codes "vpcC")
        (⟦<VpccBox as BoxFields>⟧.shown view b.vpcc) };

    ghost whole = { λ view b. whole_row_and_group VP09.now (vp09_row b) (codes "vpcC")
        (⟦<VpccBox as BoxFields>⟧.shown view b.vpcc) (⟦<VpccBox as BoxFields>⟧.whole view b.vpcc) };

    fn show<K: FieldSink>(&self, view: View, sink: &mut K) -> Result<()> {
        let parts = [
            Part::U8(self.version),
            Part::U32(self.flags),
            Part::U16(self.start_code),
            Part::U16(self.data_reference_index),
            Part::Bytes(&self.reserved0),
            Part::U16(self.width),
            Part::U16(self.height),
            Part::Resolution(self.horizresolution),
            Part::Resolution(self.vertresolution),
            Part::Bytes(&self.reserved1),
            Part::U16(self.frame_count),
            Part::Bytes(&self.compressorname),
            Part::U16(self.depth),
            Part::U16(self.end_code),
        ];
        put_row(VP09, &parts, sink)?;
        put_group("vpcC", &self.vpcc, view, sink)
    }
}

/// A colour.
const COLOR: &[NumberName] = &[
    number!("red"),
    number!("green"),
    number!("blue"),
    number!("alpha"),
];

impl BoxFields for RgbaColor {
    ghost shown = { λ view b. shown_row COLOR.now (color_row b) };

    ghost whole = { λ view b. whole_row COLOR.now (color_row b) };

    fn show<K: FieldSink>(&self, _view: View, sink: &mut K) -> Result<()> {
        let parts = [
            Part::U8(self.red),
            Part::U8(self.green),
            Part::U8(self.blue),
            Part::U8(self.alpha),
        ];
        put_row(COLOR, &parts, sink)
    }
}

/// The fields of a sample entry of timed text before its colour (3GPP TS 26.245, 5.16).
const TX3G: &[NumberName] = &[
    number!("data_reference_index"),
    number!("displayFlags", Flags(8)),
    number!("horizontal-justification"),
    number!("vertical-justification"),
];

/// The fields after its colour.
const STYLE: &[NumberName] = &[field!("default-text-box"), field!("default-style")];

/// Hands the fields of a sample entry of timed text after its colour to a sink.
fn put_style<K: FieldSink>(b: &Tx3gBox, sink: &mut K) -> Result<()>
    ensures { OnOk result (Hands K.trace K.after sink.old (shown_row STYLE.now (style_row b.now)) sink.new) }
{
    let parts = [Part::Numbers(&b.box_record), Part::Bytes(&b.style_record)];
    put_row(STYLE, &parts, sink)
}

impl BoxFields for Tx3gBox {
    ghost shown = { λ view b. shown_row TX3G.now (tx3g_row b)
        ++ (shown_group (codes "background-color-rgba") (⟦<RgbaColor as BoxFields>⟧.shown view b.bg_color_rgba)
        ++ shown_row STYLE.now (style_row b)) };

    ghost whole = { λ view b. members_append (shown_row TX3G.now (tx3g_row b))
        (shown_group (codes "background-color-rgba") (⟦<RgbaColor as BoxFields>⟧.shown view b.bg_color_rgba)
        ++ shown_row STYLE.now (style_row b))
        (whole_row TX3G.now (tx3g_row b))
        (members_append
        (shown_group (codes "background-color-rgba") (⟦<RgbaColor as BoxFields>⟧.shown view b.bg_color_rgba))
        (shown_row STYLE.now (style_row b))
        (whole_group (codes "background-color-rgba") (⟦<RgbaColor as BoxFields>⟧.shown view b.bg_color_rgba)
        (⟦<RgbaColor as BoxFields>⟧.whole view b.bg_color_rgba))
        (whole_row STYLE.now (style_row b))) };

    fn show<K: FieldSink>(&self, view: View, sink: &mut K) -> Result<()> {
        let parts = [
            Part::U16(self.data_reference_index),
            Part::U32(self.display_flags),
            Part::I8(self.horizontal_justification),
            Part::I8(self.vertical_justification),
        ];
        put_row(TX3G, &parts, sink)?;
        put_group("background-color-rgba", &self.bg_color_rgba, view, sink)?;
        put_style(self, sink)
    }
}
