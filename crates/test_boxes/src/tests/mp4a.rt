//! Tests of `mp4a` and its `esds`: an entry that is made from a configuration, and numbers that don't fit.

use mp4_stream::{
    AacConfig, AudioObjectType, ChannelConfig, EsdsBox, FixedPointU16, Mp4aBox, SampleFreqIndex,
};
use std::alloc::Global;
use std::test::Fail;
use test_shared::boxes::sound::{esds_of, mp4a_of, specific};
use test_shared::helpers::{Mismatch, expect_unwritable_of_size};

/// Each field comes from the configuration, or differs from all fields that do.
#[test]
fn new_mp4a(rt: HostRuntime) {
    let made = Mp4aBox::new(&AacConfig {
        bitrate: 0x8182_8384,
        profile: AudioObjectType::UnifiedSpeechAudioCoding,
        freq_index: SampleFreqIndex::Freq96000,
        chan_conf: ChannelConfig::FiveOne,
    });
    let mut esds = EsdsBox::default();
    esds.es_desc.es_id = 1;
    esds.es_desc.dec_config.object_type_indication = 0x40;
    esds.es_desc.dec_config.stream_type = 5;
    esds.es_desc.dec_config.max_bitrate = 0x8182_8384;
    esds.es_desc.dec_config.avg_bitrate = 0x8182_8384;
    esds.es_desc.dec_config.dec_specific = specific(42, 0, None, 6);
    let value = Mp4aBox {
        data_reference_index: 1,
        channelcount: 6,
        samplesize: 16,
        samplerate: FixedPointU16::new_raw(0x7700_0000),
        esds: Some(esds),
    };
    assert!(rt; made == value);
}

/// Expects that neither an `esds` with these numbers nor its `mp4a` can be written. The stream has number 1, low
/// complexity, 48000 hertz and two channels.
fn expect_unwritable_esds(
    alloc: Global,
    flags: u32,
    stream_type: u8,
    buffer_size_db: u32,
) -> Result<(), Mismatch> {
    let mut esds = esds_of(1, 128000, specific(2, 3, None, 2));
    esds.flags = flags;
    esds.es_desc.dec_config.stream_type = stream_type;
    esds.es_desc.dec_config.buffer_size_db = buffer_size_db;
    expect_unwritable_of_size(alloc, &esds, 39)?;
    expect_unwritable_of_size(alloc, &mp4a_of(Some(esds)), 75)
}

#[test]
fn unwritable_esds_and_mp4a(rt: HostRuntime) -> Result<(), Fail> {
    let alloc = rt.alloc();
    expect_unwritable_esds(alloc, 1 << 24, 5, 0)
        .and(expect_unwritable_esds(alloc, 0, 64, 0))
        .and(expect_unwritable_esds(alloc, 0, 5, 1 << 24))?;
    Ok(())
}
