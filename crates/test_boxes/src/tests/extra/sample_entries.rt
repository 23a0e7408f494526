//! The fields of sample entries in trees.

use crate::tests::extra::bytes_of;
use mp4_box_tree::{
    AudioFields, AudioFirst, AudioSecond, AudioVersion, Container, VisualFields,
    data_reference_index,
};
use mp4_stream::{FixedPointU16, KeptBox};
use std::alloc::{AllocError, Global};

/// The outcome of a check, unless memory ran out.
type Outcome = Result<bool, AllocError>;

/// The outcome of a check that passes.
const PASSES: Outcome = Ok(true);

/// `hvc1`, a code of video.
const HVC1: u32 = 0x6876_6331;

/// `Opus`, a code of audio.
const OPUS: u32 = 0x4f70_7573;

/// `text`, a code of an entry that is kept as bytes.
const TEXT: u32 = 0x7465_7874;

/// The fields of video. Bytes that are not reserved count up from 0x81.
const VISUAL: &[u8] = b"\0\0\0\0\0\0\x81\x82\0\0\0\0\0\0\0\0\0\0\0\0\0\0\0\0\x83\x84\x85\x86\
\x87\x88\x89\x8a\x8b\x8c\x8d\x8e\0\0\0\0\x8f\x90\x91\x92\x93\x94\x95\x96\
\x97\x98\x99\x9a\x9b\x9c\x9d\x9e\x9f\xa0\xa1\xa2\xa3\xa4\xa5\xa6\xa7\xa8\xa9\
\xaa\xab\xac\xad\xae\xaf\xb0\xb1\xb2\xff\xff";

/// `VISUAL` with other reserved bytes.
const RESERVED: &[u8] =
    b"\xe1\0\0\0\0\xe1\x81\x82\xe1\0\0\0\0\0\0\0\0\0\0\0\0\0\0\xe1\x83\x84\x85\x86\
\x87\x88\x89\x8a\x8b\x8c\x8d\x8e\xe1\0\0\xe1\x8f\x90\x91\x92\x93\x94\x95\x96\
\x97\x98\x99\x9a\x9b\x9c\x9d\x9e\x9f\xa0\xa1\xa2\xa3\xa4\xa5\xa6\xa7\xa8\xa9\
\xaa\xab\xac\xad\xae\xaf\xb0\xb1\xb2\xe1\xe1";

/// `VISUAL` with one more byte.
const LONGER: &[u8] = b"\0\0\0\0\0\0\x81\x82\0\0\0\0\0\0\0\0\0\0\0\0\0\0\0\0\x83\x84\x85\x86\
\x87\x88\x89\x8a\x8b\x8c\x8d\x8e\0\0\0\0\x8f\x90\x91\x92\x93\x94\x95\x96\
\x97\x98\x99\x9a\x9b\x9c\x9d\x9e\x9f\xa0\xa1\xa2\xa3\xa4\xa5\xa6\xa7\xa8\xa9\
\xaa\xab\xac\xad\xae\xaf\xb0\xb1\xb2\xff\xff\0";

/// The name of the compressor in `VISUAL`.
const NAME: [u8; 32] =
    *b"\x91\x92\x93\x94\x95\x96\x97\x98\x99\x9a\x9b\x9c\x9d\x9e\x9f\xa0\xa1\xa2\xa3\xa4\xa5\xa6\xa7\
\xa8\xa9\xaa\xab\xac\xad\xae\xaf\xb0";

/// The fields of audio in version 0. Bytes that are not reserved count up from 0x81.
const ZERO: &[u8] =
    b"\0\0\0\0\0\0\x81\x82\0\0\x83\x84\x85\x86\x87\x88\x89\x8a\x8b\x8c\x8d\x8e\x8f\x90\x91\x92\x93\x94";

/// `ZERO` with a version that QuickTime does not define.
const THIRD: &[u8] =
    b"\0\0\0\0\0\0\x81\x82\0\x03\x83\x84\x85\x86\x87\x88\x89\x8a\x8b\x8c\x8d\x8e\x8f\x90\x91\x92\x93\x94";

/// The fields of audio in version 1.
const FIRST: &[u8] =
    b"\0\0\0\0\0\0\x81\x82\0\x01\x83\x84\x85\x86\x87\x88\x89\x8a\x8b\x8c\x8d\x8e\x8f\x90\x91\x92\x93\
\x94\x95\x96\x97\x98\x99\x9a\x9b\x9c\x9d\x9e\x9f\xa0\xa1\xa2\xa3\xa4";

/// The fields of audio in version 2.
const SECOND: &[u8] =
    b"\0\0\0\0\0\0\x81\x82\0\x02\x83\x84\x85\x86\x87\x88\x89\x8a\x8b\x8c\x8d\x8e\x8f\x90\x91\x92\x93\
\x94\x95\x96\x97\x98\x99\x9a\x9b\x9c\x9d\x9e\x9f\xa0\xa1\xa2\xa3\xa4\xa5\xa6\xa7\xa8\xa9\xaa\xab\xac\xad\xae\xaf\xb0\
\xb1\xb2\xb3\xb4\xb5\xb6\xb7\xb8";

/// Returns the first `length` bytes of `bytes`, or none if there are fewer.
fn front(bytes: &[u8], length: usize) -> &[u8] {
    bytes.get(..length).unwrap_or(&[])
}

/// Makes an entry with this `code` and these `fields`, without boxes.
fn entry(alloc: Global, code: u32, fields: &[u8]) -> Result<Container<KeptBox>, AllocError> {
    Ok(Container {
        code,
        fields: bytes_of(alloc, fields)?,
        boxes: Vec::new(alloc).into(),
    })
}

/// Returns whether an entry with this `code` and these `bytes` has the video fields `fields`.
fn is_video(alloc: Global, code: u32, bytes: &[u8], fields: Option<VisualFields>) -> Outcome {
    Ok(entry(alloc, code, bytes)?.visual() == fields)
}

/// Returns whether an entry with this `code` and these `bytes` has the audio fields `fields`.
fn is_audio(alloc: Global, code: u32, bytes: &[u8], fields: Option<AudioFields>) -> Outcome {
    Ok(entry(alloc, code, bytes)?.sound() == fields)
}

/// Returns whether the video fields `fields` are written as `bytes`.
fn video_is(alloc: Global, fields: VisualFields, bytes: &[u8]) -> Outcome {
    match fields.to_bytes(alloc) {
        Ok(written) => Ok(written.as_slice() == bytes),
        Err(_) => Err(AllocError),
    }
}

/// Returns whether the audio fields `fields` are written as `bytes`.
fn audio_is(alloc: Global, fields: AudioFields, bytes: &[u8]) -> Outcome {
    match fields.to_bytes(alloc) {
        Ok(written) => Ok(written.as_slice() == bytes),
        Err(_) => Err(AllocError),
    }
}

/// Returns the fields of `VISUAL`.
fn visual() -> VisualFields {
    VisualFields {
        data_reference_index: 0x8182,
        width: 0x8384,
        height: 0x8586,
        horizresolution: FixedPointU16::new_raw(0x8788_898a),
        vertresolution: FixedPointU16::new_raw(0x8b8c_8d8e),
        frame_count: 0x8f90,
        compressorname: NAME,
        depth: 0xb1b2,
    }
}

/// Returns the fields of `ZERO` with this `version`.
fn sound(version: AudioVersion) -> AudioFields {
    AudioFields {
        data_reference_index: 0x8182,
        revision: 0x8384,
        vendor: 0x8586_8788,
        channelcount: 0x898a,
        samplesize: 0x8b8c,
        compression_id: 0x8d8e,
        packet_size: 0x8f90,
        samplerate: FixedPointU16::new_raw(0x9192_9394),
        version,
    }
}

/// The further fields of `FIRST`.
const OF_FIRST: AudioVersion = AudioVersion::First(AudioFirst {
    samples_per_packet: 0x9596_9798,
    bytes_per_packet: 0x999a_9b9c,
    bytes_per_frame: 0x9d9e_9fa0,
    bytes_per_sample: 0xa1a2_a3a4,
});

/// The further fields of `SECOND`.
const OF_SECOND: AudioVersion = AudioVersion::Second(AudioSecond {
    size_of_struct_only: 0x9596_9798,
    audio_sample_rate: 0x999a_9b9c_9d9e_9fa0,
    num_audio_channels: 0xa1a2_a3a4,
    always_7f000000: 0xa5a6_a7a8,
    const_bits_per_channel: 0xa9aa_abac,
    format_specific_flags: 0xadae_afb0,
    const_bytes_per_audio_packet: 0xb1b2_b3b4,
    const_lpcm_frames_per_audio_packet: 0xb5b6_b7b8,
});

#[test]
fn fields_of_video(rt: HostRuntime) {
    let alloc = rt.alloc();
    let checks = [
        is_video(alloc, HVC1, VISUAL, Some(visual())),
        is_video(alloc, HVC1, RESERVED, Some(visual())),
        is_video(alloc, HVC1, front(VISUAL, 77), None),
        is_video(alloc, HVC1, LONGER, None),
        is_video(alloc, OPUS, VISUAL, None),
        is_video(alloc, TEXT, VISUAL, None),
        is_audio(alloc, HVC1, VISUAL, None),
        video_is(alloc, visual(), VISUAL),
    ];
    assert!(rt; checks == [PASSES; 8]);
}

#[test]
fn fields_of_audio(rt: HostRuntime) {
    let alloc = rt.alloc();
    let checks = [
        is_audio(alloc, OPUS, ZERO, Some(sound(AudioVersion::Zero))),
        is_audio(alloc, OPUS, FIRST, Some(sound(OF_FIRST))),
        is_audio(alloc, OPUS, SECOND, Some(sound(OF_SECOND))),
        is_audio(alloc, OPUS, THIRD, Some(sound(AudioVersion::Zero))),
        audio_is(alloc, sound(AudioVersion::Zero), ZERO),
        audio_is(alloc, sound(OF_FIRST), FIRST),
        audio_is(alloc, sound(OF_SECOND), SECOND),
    ];
    assert!(rt; checks == [PASSES; 7]);
}

#[test]
fn audio_of_no_version(rt: HostRuntime) {
    let alloc = rt.alloc();
    let checks = [
        is_audio(alloc, OPUS, front(ZERO, 9), None),
        is_audio(alloc, OPUS, front(ZERO, 27), None),
        is_audio(alloc, OPUS, front(FIRST, 28), None),
        is_audio(alloc, OPUS, front(FIRST, 43), None),
        is_audio(alloc, OPUS, front(SECOND, 44), None),
        is_audio(alloc, OPUS, front(SECOND, 63), None),
        is_audio(alloc, HVC1, ZERO, None),
        is_audio(alloc, HVC1, FIRST, None),
        is_audio(alloc, HVC1, SECOND, None),
        is_audio(alloc, TEXT, ZERO, None),
        is_audio(alloc, TEXT, FIRST, None),
        is_audio(alloc, TEXT, SECOND, None),
    ];
    assert!(rt; checks == [PASSES; 12]);
}

#[test]
fn reference_indexes(rt: HostRuntime) {
    assert_eq!(rt;
        data_reference_index(b"\xe1\xe2\xe3\xe4\xe5\xe6\x81\x82\x83"),
        Some(0x8182)
    );
    assert_eq!(rt; data_reference_index(b"\0\0\0\0\0\0\x81\x82"), Some(0x8182));
    assert_eq!(rt; data_reference_index(b"\0\0\0\0\0\0\x81"), None);
    assert_eq!(rt; data_reference_index(b""), None);
}
