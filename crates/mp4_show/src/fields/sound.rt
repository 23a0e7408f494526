//! The fields of the sample entry of MPEG-4 audio, of its descriptors, and of sample descriptions.

ghost use Rattle.std.specs.Prelude.{◌++◌, OnOk, codes};
ghost use Rattle.mp4_show.specs.Descriptions.{shown_others, shown_video, whole_others, whole_video};
ghost use Rattle.mp4_show.specs.Row.{full_row, row_and_group, row_and_group_if, shown_row, whole_row};
ghost use Rattle.mp4_show.specs.Row.{whole_row_and_group, whole_row_and_group_if};
ghost use Rattle.mp4_show.specs.SoundRows.{config_row, mp4a_row, specific_row, stream_row};
ghost use Rattle.mp4_show.specs.declared.fields.sound.TheConstants.{CONFIG, MP4A, SPECIFIC, STREAM};
ghost use Rattle.mp4_show.specs.declared.row.TheConstants.{FULL};
ghost use Rattle.mp4_shown.specs.Hands.{Hands};
ghost use Rattle.mp4_shown.specs.Members.{members_append};

use crate::box_fields::BoxFields;
use crate::row::{FULL, Part, put_group, put_group_if, put_row};
use mp4_shown::{FieldSink, NumberName, Result, View, number};
use mp4_stream::{
    Avc1Box, DecoderConfigDescriptor, DecoderSpecificDescriptor, ESDescriptor, EsdsBox, Hev1Box,
    Mp4aBox, StsdBox, Tx3gBox, Vp09Box,
};

/// The configuration of a decoder of MPEG-4 audio (ISO/IEC 14496-3, 1.6.2.1).
const SPECIFIC: &[NumberName] = &[
    number!("audioObjectType"),
    number!("samplingFrequencyIndex"),
    number!("samplingFrequency"),
    number!("channelConfiguration"),
];

impl BoxFields for DecoderSpecificDescriptor {
    ghost shown = { λ view b. shown_row SPECIFIC.now (specific_row b) };

    ghost whole = { λ view b. whole_row SPECIFIC.now (specific_row b) };

    fn show<K: FieldSink>(&self, _view: View, sink: &mut K) -> Result<()> {
        let parts = [
            Part::U8(self.profile),
            Part::U8(self.freq_index),
            Part::SomeU32(self.sample_rate),
            Part::U8(self.chan_conf),
        ];
        put_row(SPECIFIC, &parts, sink)
    }
}

/// The configuration of the decoder of a stream (ISO/IEC 14496-1, 7.2.6.6).
const CONFIG: &[NumberName] = &[
    number!("objectTypeIndication"),
    number!("streamType"),
    number!("upStream"),
    number!("bufferSizeDB"),
    number!("maxBitrate"),
    number!("avgBitrate"),
];

impl BoxFields for DecoderConfigDescriptor {
    ghost shown = { λ view b. row_and_group CONFIG.now (config_row b) (codes "decSpecificInfo")
        (⟦<DecoderSpecificDescriptor as BoxFields>⟧.shown view b.dec_specific) };

    ghost whole = { λ view b. whole_row_and_group CONFIG.now (config_row b) (codes "decSpecificInfo")
        (⟦<DecoderSpecificDescriptor as BoxFields>⟧.shown view b.dec_specific)
        (⟦<DecoderSpecificDescriptor as BoxFields>⟧.whole view b.dec_specific) };

    fn show<K: FieldSink>(&self, view: View, sink: &mut K) -> Result<()> {
        let parts = [
            Part::U8(self.object_type_indication),
            Part::U8(self.stream_type),
            Part::U8(self.up_stream),
            Part::U32(self.buffer_size_db),
            Part::U32(self.max_bitrate),
            Part::U32(self.avg_bitrate),
        ];
        put_row(CONFIG, &parts, sink)?;
        put_group("decSpecificInfo", &self.dec_specific, view, sink)
    }
}

/// The description of a stream (ISO/IEC 14496-1, 7.2.6.5).
const STREAM: &[NumberName] = &[number!("ES_ID")];

impl BoxFields for ESDescriptor {
    ghost shown = { λ view b. row_and_group STREAM.now (stream_row b) (codes "decConfigDescr")
        (⟦<DecoderConfigDescriptor as BoxFields>⟧.shown view b.dec_config) };

    ghost whole = { λ view b. whole_row_and_group STREAM.now (stream_row b) (codes "decConfigDescr")
        (⟦<DecoderConfigDescriptor as BoxFields>⟧.shown view b.dec_config)
        (⟦<DecoderConfigDescriptor as BoxFields>⟧.whole view b.dec_config) };

    fn show<K: FieldSink>(&self, view: View, sink: &mut K) -> Result<()> {
        let parts = [Part::U16(self.es_id)];
        put_row(STREAM, &parts, sink)?;
        put_group("decConfigDescr", &self.dec_config, view, sink)
    }
}

/// The box with the description of a stream of MPEG-4 audio (ISO/IEC 14496-14, 5.6).
impl BoxFields for EsdsBox {
    ghost shown = { λ view b. row_and_group FULL.now (full_row b.version b.flags) (codes "ES")
        (⟦<ESDescriptor as BoxFields>⟧.shown view b.es_desc) };

    ghost whole = { λ view b. whole_row_and_group FULL.now (full_row b.version b.flags) (codes "ES")
        (⟦<ESDescriptor as BoxFields>⟧.shown view b.es_desc) (⟦<ESDescriptor as BoxFields>⟧.whole view b.es_desc) };

    fn show<K: FieldSink>(&self, view: View, sink: &mut K) -> Result<()> {
        let parts = [Part::U8(self.version), Part::U32(self.flags)];
        put_row(FULL, &parts, sink)?;
        put_group("ES", &self.es_desc, view, sink)
    }
}

/// The fields of a sample entry of MPEG-4 audio before its descriptors (ISO/IEC 14496-14, 5.6).
const MP4A: &[NumberName] = &[
    number!("data_reference_index"),
    number!("channelcount"),
    number!("samplesize"),
    number!("samplerate", Fixed(16)),
];

impl BoxFields for Mp4aBox {
    ghost shown = { λ view b. row_and_group_if MP4A.now (mp4a_row b) (codes "esds")
        (⟦<EsdsBox as BoxFields>⟧.shown view) b.esds };

    ghost whole = { λ view b. whole_row_and_group_if MP4A.now (mp4a_row b) (codes "esds")
        (⟦<EsdsBox as BoxFields>⟧.shown view) (⟦<EsdsBox as BoxFields>⟧.whole view) b.esds };

    fn show<K: FieldSink>(&self, view: View, sink: &mut K) -> Result<()> {
        let parts = [
            Part::U16(self.data_reference_index),
            Part::U16(self.channelcount),
            Part::U16(self.samplesize),
            Part::U32(self.samplerate.raw_value()),
        ];
        put_row(MP4A, &parts, sink)?;
        put_group_if("esds", &self.esds, view, sink)
    }
}

/// Hands the sample entries of video in sample descriptions to a sink.
fn put_video<K: FieldSink>(b: &StsdBox, view: View, sink: &mut K) -> Result<()>
    ensures { OnOk result (Hands K.trace K.after sink.old
        (shown_video (⟦<Avc1Box as BoxFields>⟧.shown view) (⟦<Hev1Box as BoxFields>⟧.shown view)
        (⟦<Vp09Box as BoxFields>⟧.shown view) b.now) sink.new) }
{
    put_group_if("avc1", &b.avc1, view, sink)?;
    put_group_if("hev1", &b.hev1, view, sink)?;
    put_group_if("vp09", &b.vp09, view, sink)
}

/// Hands the sample entries of sound and text in sample descriptions to a sink.
fn put_others<K: FieldSink>(b: &StsdBox, view: View, sink: &mut K) -> Result<()>
    ensures { OnOk result (Hands K.trace K.after sink.old
        (shown_others (⟦<Mp4aBox as BoxFields>⟧.shown view) (⟦<Tx3gBox as BoxFields>⟧.shown view) b.now) sink.new) }
{
    put_group_if("mp4a", &b.mp4a, view, sink)?;
    put_group_if("tx3g", &b.tx3g, view, sink)
}

/// Sample descriptions (ISO/IEC 14496-12, 8.5.2). The codec reads the first.
impl BoxFields for StsdBox {
    ghost shown = { λ view b. shown_row FULL.now (full_row b.version b.flags)
        ++ (shown_video (⟦<Avc1Box as BoxFields>⟧.shown view) (⟦<Hev1Box as BoxFields>⟧.shown view)
        (⟦<Vp09Box as BoxFields>⟧.shown view) b
        ++ shown_others (⟦<Mp4aBox as BoxFields>⟧.shown view) (⟦<Tx3gBox as BoxFields>⟧.shown view) b) };

    ghost whole = { λ view b. members_append (shown_row FULL.now (full_row b.version b.flags))
        (shown_video (⟦<Avc1Box as BoxFields>⟧.shown view) (⟦<Hev1Box as BoxFields>⟧.shown view)
        (⟦<Vp09Box as BoxFields>⟧.shown view) b
        ++ shown_others (⟦<Mp4aBox as BoxFields>⟧.shown view) (⟦<Tx3gBox as BoxFields>⟧.shown view) b)
        (whole_row FULL.now (full_row b.version b.flags))
        (members_append
        (shown_video (⟦<Avc1Box as BoxFields>⟧.shown view) (⟦<Hev1Box as BoxFields>⟧.shown view)
        (⟦<Vp09Box as BoxFields>⟧.shown view) b)
        (shown_others (⟦<Mp4aBox as BoxFields>⟧.shown view) (⟦<Tx3gBox as BoxFields>⟧.shown view) b)
        (whole_video (⟦<Avc1Box as BoxFields>⟧.shown view) (⟦<Avc1Box as BoxFields>⟧.whole view)
        (⟦<Hev1Box as BoxFields>⟧.shown view) (⟦<Hev1Box as BoxFields>⟧.whole view)
        (⟦<Vp09Box as BoxFields>⟧.shown view) (⟦<Vp09Box as BoxFields>⟧.whole view) b)
        (whole_others (⟦<Mp4aBox as BoxFields>⟧.shown view) (⟦<Mp4aBox as BoxFields>⟧.whole view)
        (⟦<Tx3gBox as BoxFields>⟧.shown view) (⟦<Tx3gBox as BoxFields>⟧.whole view) b)) };

    fn show<K: FieldSink>(&self, view: View, sink: &mut K) -> Result<()> {
        let parts = [Part::U8(self.version), Part::U32(self.flags)];
        put_row(FULL, &parts, sink)?;
        put_video(self, view, sink)?;
        put_others(self, view, sink)
    }
}
