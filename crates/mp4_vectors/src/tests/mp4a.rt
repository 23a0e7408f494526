//! Tests of `mp4a`, the sample entry of audio, with and without descriptors.

use mp4_stream::{
    AacConfig, AudioObjectType, BoxType, ChannelConfig, EsdsBox, Mp4aBox, SampleFreqIndex,
};
use std::test::Fail;
use test_shared::boxes::sound::{MP4A_OF_TEST, esds_of, mp4a_of, mp4a_of_test, specific};
use test_shared::helpers::{
    Kind, expect_list_kind, expect_round_trip, expect_value, expect_value_to,
};

/// The last entry has a size of 20 and needs more bytes. In a list the next box begins at 20, and ends at 37.
#[test]
fn mp4a_with_and_without_descriptors(rt: HostRuntime) -> Result<(), Fail> {
    let alloc = rt.alloc();
    let alone = b"\0\0\0\x24mp4a\0\0\0\0\0\0\0\x01\0\0\0\0\0\0\0\0\0\x02\0\x10\0\0\0\0\xbb\x80\0\0";
    let followed =
        b"\0\0\0\x24mp4a\0\0\0\0\0\0\0\x01\0\0\0\0\0\0\0\0\0\x02\0\x10\0\0\0\0\xbb\x80\0\0\
\0\0\0\x27esds\0\0\0\0\x03\x19\0\x01\0\x04\x11\x40\x15\0\0\0\0\x01\xf4\0\0\x01\xf4\0\x05\x02\x11\x90\x06\0\0";
    let short =
        b"\0\0\0\x14mp4a\0\0\0\0\0\0\0\x01\0\0\0\0\0\0\0\x11\0\x02\0\x10\0\0\0\0\xbb\x80\0\0";
    expect_round_trip(alloc, &mp4a_of(None), alone)
        .and(expect_value(alloc, &mp4a_of(None), followed, 36))
        .and(expect_value_to(alloc, &mp4a_of(None), alone, 20, 36))
        .and(expect_round_trip(alloc, &mp4a_of_test(), &MP4A_OF_TEST))
        .and(expect_value_to(alloc, &mp4a_of(None), short, 20, 36))
        .and(expect_list_kind(alloc, short, Kind::End))?;
    assert_eq!(rt; MP4A_OF_TEST.len(), 75);
    Ok(())
}

#[test]
fn descriptors_of_configurations(rt: HostRuntime) -> Result<(), Fail> {
    let mut config = AacConfig::default();
    config.bitrate = 128000;
    assert!(rt; EsdsBox::new(&config) == esds_of(1, 128000, specific(2, 3, None, 2)));
    for (freq_index, rate) in [
        (SampleFreqIndex::Freq96000, 30464),
        (SampleFreqIndex::Freq88200, 22664),
        (SampleFreqIndex::Freq48000, 48000),
        (SampleFreqIndex::Freq7350, 7350),
    ] {
        config.freq_index = freq_index;
        assert_eq!(rt; Mp4aBox::new(&config).samplerate.value(), rate);
    }
    let made = Mp4aBox::new(&AacConfig {
        bitrate: 67695,
        profile: AudioObjectType::UnifiedSpeechAudioCoding,
        freq_index: SampleFreqIndex::Freq48000,
        chan_conf: ChannelConfig::SevenOne,
    });
    let mut expected = mp4a_of(Some(esds_of(1, 67695, specific(42, 3, None, 7))));
    expected.channelcount = 7;
    assert!(rt; made == expected);
    assert_eq!(rt; (made.get_type(), made.get_size()), (BoxType::Mp4aBox, 76));
    Ok(())
}
