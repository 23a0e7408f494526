//! The structs for C of MPEG-4 audio: its descriptors and its sample entry.

ghost use Rattle.std.specs.Prelude.{◌≡◌};
ghost use Rattle.mp4_c_boxes.specs.Audio.{esds_of, rate_if, fields_esds, mp4a_of, no_mp4a, fields_mp4a};

use crate::to_struct::ToStruct;
use mp4_media::FixedPointU16;
use mp4_sound::{
    DecoderConfigDescriptor, DecoderSpecificDescriptor, ESDescriptor, EsdsBox, Mp4aBox,
    SLConfigDescriptor,
};

/// The fields of an `esds` (ISO/IEC 14496-14, 5.6) and of its descriptors (ISO/IEC 14496-1, 7.2.6.5 and 7.2.6.6;
/// ISO/IEC 14496-3, 1.6.2.1).
#[repr(C)]
#[derive(Clone, Copy, Default)]
pub struct Esds {
    /// The flags of the box: 24 bits.
    pub flags: u32,
    /// The size of the decoding buffer, in bytes, below 2^24.
    pub buffer_size_db: u32,
    /// The maximum bit rate, in bits per second.
    pub max_bitrate: u32,
    /// The average bit rate, in bits per second; 0 if it varies.
    pub avg_bitrate: u32,
    /// The sampling frequency, in hertz, if `freq_index` is 15: below 2^24. Else 0.
    pub sample_rate: u32,
    /// The number of the stream.
    pub es_id: u16,
    /// The version of the box.
    pub version: u8,
    /// The coding of the stream: 0x40 is MPEG-4 audio.
    pub object_type_indication: u8,
    /// The type of the stream, at most 63: 5 is audio.
    pub stream_type: u8,
    /// 2 for a stream from the receiver to the sender, else 0.
    pub up_stream: u8,
    /// The audio object type: 0 to 95, except 31.
    pub profile: u8,
    /// The index of the sampling frequency, at most 15.
    pub freq_index: u8,
    /// The channel configuration, at most 15.
    pub chan_conf: u8,
}

impl ToStruct<Esds> for EsdsBox {
    ghost to_struct = { fields_esds };

    fn to_struct(&self) -> Esds {
        let config = &self.es_desc.dec_config;
        let specific = &config.dec_specific;
        Esds {
            flags: self.flags,
            buffer_size_db: config.buffer_size_db,
            max_bitrate: config.max_bitrate,
            avg_bitrate: config.avg_bitrate,
            sample_rate: specific.sample_rate.unwrap_or(0),
            es_id: self.es_desc.es_id,
            version: self.version,
            object_type_indication: config.object_type_indication,
            stream_type: config.stream_type,
            up_stream: config.up_stream,
            profile: specific.profile,
            freq_index: specific.freq_index,
            chan_conf: specific.chan_conf,
        }
    }
}

/// A rate, if the index says that there is one.
fn rate_if(freq_index: u8, sample_rate: u32) -> Option<u32>
    ensures { result ≡ rate_if freq_index sample_rate }
{
    if freq_index == 15 {
        Some(sample_rate)
    } else {
        None
    }
}

/// Returns the box with `fields`.
pub(crate) fn esds_of(fields: &Esds) -> EsdsBox
    ensures { result ≡ esds_of fields.now }
{
    let dec_specific = DecoderSpecificDescriptor {
        profile: fields.profile,
        freq_index: fields.freq_index,
        sample_rate: rate_if(fields.freq_index, fields.sample_rate),
        chan_conf: fields.chan_conf,
    };
    let dec_config = DecoderConfigDescriptor {
        object_type_indication: fields.object_type_indication,
        stream_type: fields.stream_type,
        up_stream: fields.up_stream,
        buffer_size_db: fields.buffer_size_db,
        max_bitrate: fields.max_bitrate,
        avg_bitrate: fields.avg_bitrate,
        dec_specific,
    };
    EsdsBox {
        version: fields.version,
        flags: fields.flags,
        es_desc: ESDescriptor {
            es_id: fields.es_id,
            dec_config,
            sl_config: SLConfigDescriptor::new(),
        },
    }
}

/// The fields of an `mp4a` (ISO/IEC 14496-14, 5.6; ISO/IEC 14496-12, 12.2.3).
#[repr(C)]
#[derive(Clone, Copy, Default)]
pub struct Mp4a {
    /// The fields of its `esds`; zeros if there is none.
    pub esds: Esds,
    /// The sampling rate, in hertz, times 65536.
    pub samplerate: u32,
    /// The index of the data reference of the samples, counted from 1.
    pub data_reference_index: u16,
    /// The number of channels.
    pub channelcount: u16,
    /// The number of bits of a sample.
    pub samplesize: u16,
    /// 1 if there is an `esds`, else 0.
    pub has_esds: u8,
}

impl Mp4a {
    /// Returns zeros, for an `stsd` whose entry is of another type.
    pub(crate) fn none() -> Mp4a
        ensures { result ≡ no_mp4a }
    {
        Mp4a::default()
    }
}

impl ToStruct<Mp4a> for Mp4aBox {
    ghost to_struct = { fields_mp4a };

    fn to_struct(&self) -> Mp4a {
        let (has_esds, esds) = match &self.esds {
            Some(esds) => (1, esds.to_struct()),
            None => (0, Esds::default()),
        };
        Mp4a {
            esds,
            samplerate: self.samplerate.raw_value(),
            data_reference_index: self.data_reference_index,
            channelcount: self.channelcount,
            samplesize: self.samplesize,
            has_esds,
        }
    }
}

/// Returns the box with `fields`.
pub(crate) fn mp4a_of(fields: &Mp4a) -> Mp4aBox
    ensures { result ≡ mp4a_of fields.now }
{
    let esds = if fields.has_esds == 0 {
        None
    } else {
        Some(esds_of(&fields.esds))
    };
    Mp4aBox {
        data_reference_index: fields.data_reference_index,
        channelcount: fields.channelcount,
        samplesize: fields.samplesize,
        samplerate: FixedPointU16::new_raw(fields.samplerate),
        esds,
    }
}
