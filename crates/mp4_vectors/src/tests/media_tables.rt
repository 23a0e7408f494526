//! Tests of the conversions of plain media types from and to numbers, codes and texts, and of how their values print.

use mp4_stream::{
    AudioObjectType, AvcProfile, ChannelConfig, DataType, FourCC, MediaType, SampleFreqIndex,
    TrackType,
};
use std::alloc::{AllocError, Global};
use std::fmt::{Debug, Display};
use std::test::Fail;
use test_shared::helpers::{debug_text, invalid_text};

/// Returns whether `handler` and `code` are converted to `track`, and `track` is converted to `code`.
fn is_handled(track: TrackType, handler: &str, code: u32) -> bool {
    let of_text = matches!(TrackType::try_from(handler), Ok(found) if found == track);
    let of_code = matches!(TrackType::try_from(&FourCC::from(code)), Ok(found) if found == track);
    of_text && of_code && u32::from(FourCC::from(track)) == code
}

#[test]
fn track_types_have_handlers(rt: HostRuntime) {
    assert!(rt; is_handled(TrackType::Video, "vide", 0x7669_6465));
    assert!(rt; is_handled(TrackType::Audio, "soun", 0x736f_756e));
    assert!(rt; is_handled(TrackType::Subtitle, "sbtl", 0x7362_746c));
}

/// Returns whether `media` is converted to and from `text`.
fn is_named(media: MediaType, text: &str) -> bool {
    let is_read = matches!(MediaType::try_from(text), Ok(found) if found == media);
    is_read && <&str>::from(media) == text && <&str>::from(&media) == text
}

#[test]
fn media_types_have_texts(rt: HostRuntime) {
    assert!(rt; is_named(MediaType::H264, "h264") && is_named(MediaType::H265, "h265"));
    assert!(rt; is_named(MediaType::VP9, "vp9") && is_named(MediaType::AAC, "aac"));
    assert!(rt; is_named(MediaType::TTXT, "ttxt"));
}

/// Returns whether a value prints as `text` by `Display`, and as `name` by `Debug`.
fn is_printed(
    alloc: Global,
    value: &(impl Display + Debug),
    text: &str,
    name: &str,
) -> Result<bool, AllocError> {
    let shown = format!(in alloc; "{value}")?;
    let debug = debug_text(alloc, value)?;
    Ok(shown.as_str() == text && debug.as_str() == name)
}

/// Returns whether each type of track prints as its name.
fn tracks_are_printed(alloc: Global) -> Result<bool, AllocError> {
    Ok(
        is_printed(alloc, &TrackType::Video, "Video", "Video")?
            && is_printed(alloc, &TrackType::Audio, "Audio", "Audio")?
            && is_printed(alloc, &TrackType::Subtitle, "Subtitle", "Subtitle")?,
    )
}

/// Returns whether each media type prints as its text.
fn media_are_printed(alloc: Global) -> Result<bool, AllocError> {
    Ok(
        is_printed(alloc, &MediaType::H264, "h264", "H264")?
            && is_printed(alloc, &MediaType::H265, "h265", "H265")?
            && is_printed(alloc, &MediaType::VP9, "vp9", "VP9")?
            && is_printed(alloc, &MediaType::AAC, "aac", "AAC")?
            && is_printed(alloc, &MediaType::TTXT, "ttxt", "TTXT")?,
    )
}

/// Returns whether each AVC profile prints as its name in words.
fn profiles_are_printed(alloc: Global) -> Result<bool, AllocError> {
    let constrained = AvcProfile::AvcConstrainedBaseline;
    Ok(
        is_printed(
            alloc,
            &constrained,
            "Constrained Baseline",
            "AvcConstrainedBaseline",
        )? && is_printed(alloc, &AvcProfile::AvcBaseline, "Baseline", "AvcBaseline")?
            && is_printed(alloc, &AvcProfile::AvcMain, "Main", "AvcMain")?
            && is_printed(alloc, &AvcProfile::AvcExtended, "Extended", "AvcExtended")?
            && is_printed(alloc, &AvcProfile::AvcHigh, "High", "AvcHigh")?,
    )
}

#[test]
fn types_and_profiles_are_printed(rt: HostRuntime) -> Result<(), Fail> {
    assert!(rt; tracks_are_printed(rt.alloc())?);
    assert!(rt; media_are_printed(rt.alloc())?);
    assert!(rt; profiles_are_printed(rt.alloc())?);
    Ok(())
}

/// Returns whether texts that are no handler have no track type.
fn other_handlers_have_no_type() -> bool {
    for handler in ["", "vid", "video", "VIDE", "hint", "meta"] {
        if invalid_text(&TrackType::try_from(handler)) != Some("unsupported handler type") {
            return false;
        }
    }
    true
}

/// Returns the first code of no handler that has a track type, if there is one.
fn other_code_of_a_track() -> Option<u32> {
    for code in [
        0,
        0x7669_6464,
        0x7669_6466,
        0x736f_756d,
        0x736f_756f,
        0x7362_746b,
        0x7362_746d,
        0x6869_6e74,
    ] {
        let track = TrackType::try_from(&FourCC::from(code));
        if invalid_text(&track) != Some("unsupported handler type") {
            return Some(code);
        }
    }
    None
}

/// Returns whether texts that name no media have no media type.
fn other_texts_have_no_media() -> bool {
    for text in [
        "", "h26", "h263", "h266", "h2645", "H264", "vp8", "aacp", "ttx",
    ] {
        if invalid_text(&MediaType::try_from(text)) != Some("unsupported media type") {
            return false;
        }
    }
    true
}

#[test]
fn other_texts_and_codes_have_no_type(rt: HostRuntime) {
    assert!(rt; other_handlers_have_no_type());
    assert_eq!(rt; other_code_of_a_track(), None);
    assert!(rt; other_texts_have_no_media());
}

/// Returns the first pair of numbers that has a wrong AVC profile, if there is one.
fn other_avc_profile() -> Option<(u8, u8)> {
    for (number, constraints, profile) in [
        (66, 0x40, AvcProfile::AvcConstrainedBaseline),
        (66, 0xff, AvcProfile::AvcConstrainedBaseline),
        (66, 0, AvcProfile::AvcBaseline),
        (66, 0x80, AvcProfile::AvcBaseline),
        (66, 0xbf, AvcProfile::AvcBaseline),
        (77, 0, AvcProfile::AvcMain),
        (77, 0x40, AvcProfile::AvcMain),
        (88, 0, AvcProfile::AvcExtended),
        (88, 0x40, AvcProfile::AvcExtended),
        (100, 0, AvcProfile::AvcHigh),
        (100, 0x40, AvcProfile::AvcHigh),
    ] {
        let found = AvcProfile::try_from((number, constraints));
        if !matches!(found, Ok(it) if it == profile) {
            return Some((number, constraints));
        }
    }
    None
}

#[test]
fn avc_profiles_have_numbers(rt: HostRuntime) {
    assert_eq!(rt; other_avc_profile(), None);
}

/// Returns whether `number` with these constraints has no AVC profile.
fn have_no_profile(number: u8, constraints: u8) -> bool {
    invalid_text(&AvcProfile::try_from((number, constraints))) == Some("unsupported avc profile")
}

/// Returns the first number that has an AVC profile and should have none, if there is one.
fn other_number_of_a_profile() -> Option<u8> {
    for number in 0..=255 {
        if [66, 77, 88, 100].contains(&number) {
            continue;
        }
        if !have_no_profile(number, 0) || !have_no_profile(number, 0x40) {
            return Some(number);
        }
    }
    None
}

#[test]
fn other_numbers_have_no_avc_profile(rt: HostRuntime) {
    assert_eq!(rt; other_number_of_a_profile(), None);
}

/// The number, variant and printed text of each audio object type.
const AUDIO_OBJECT_TYPES: &str = "\
1 AacMain AAC Main\n\
2 AacLowComplexity LC\n\
3 AacScalableSampleRate SSR\n\
4 AacLongTermPrediction LTP\n\
5 SpectralBandReplication SBR\n\
6 AACScalable Scalable\n\
7 TwinVQ TwinVQ\n\
8 CodeExcitedLinearPrediction CELP\n\
9 HarmonicVectorExcitationCoding HVXC\n\
12 TextToSpeechtInterface TTSI\n\
13 MainSynthetic Main Synthetic\n\
14 WavetableSynthesis Wavetable Synthesis\n\
15 GeneralMIDI General MIDI\n\
16 AlgorithmicSynthesis Algorithmic Synthesis\n\
17 ErrorResilientAacLowComplexity ER AAC LC\n\
19 ErrorResilientAacLongTermPrediction ER AAC LTP\n\
20 ErrorResilientAacScalable ER AAC scalable\n\
21 ErrorResilientAacTwinVQ ER AAC TwinVQ\n\
22 ErrorResilientAacBitSlicedArithmeticCoding ER AAC BSAC\n\
23 ErrorResilientAacLowDelay ER AAC LD\n\
24 ErrorResilientCodeExcitedLinearPrediction ER CELP\n\
25 ErrorResilientHarmonicVectorExcitationCoding ER HVXC\n\
26 ErrorResilientHarmonicIndividualLinesNoise ER HILN\n\
27 ErrorResilientParametric ER Parametric\n\
28 SinuSoidalCoding SSC\n\
29 ParametricStereo Parametric Stereo\n\
30 MpegSurround MPEG surround\n\
32 MpegLayer1 MPEG Layer 1\n\
33 MpegLayer2 MPEG Layer 2\n\
34 MpegLayer3 MPEG Layer 3\n\
35 DirectStreamTransfer DST\n\
36 AudioLosslessCoding ALS\n\
37 ScalableLosslessCoding SLS\n\
38 ScalableLosslessCodingNoneCore SLS Non-core\n\
39 ErrorResilientAacEnhancedLowDelay ER AAC ELD\n\
40 SymbolicMusicRepresentationSimple SMR Simple\n\
41 SymbolicMusicRepresentationMain SMR Main\n\
42 UnifiedSpeechAudioCoding USAC\n\
43 SpatialAudioObjectCoding SAOC\n\
44 LowDelayMpegSurround LD MPEG Surround\n\
45 SpatialAudioObjectCodingDialogueEnhancement SAOC-DE\n\
46 AudioSync Audio Sync\n\
";

/// Appends the line of the audio object type `number` to `table`, if there is such a type. Returns whether the type is
/// converted back to `number`, or else has the right error.
fn put_object_type(table: &mut String, number: u8) -> Result<bool, AllocError> {
    match AudioObjectType::try_from(number) {
        Ok(found) => {
            writeln!(table, "{number} {found:?} {found}")?;
            Ok(found as u8 == number)
        }
        outcome => Ok(invalid_text(&outcome) == Some("invalid audio object type")),
    }
}

/// Returns whether the lines of all numbers of 8 bits are `AUDIO_OBJECT_TYPES`.
fn is_table_of_object_types(alloc: Global) -> Result<bool, AllocError> {
    let mut table = String::new(alloc);
    for number in 0..=255 {
        if !put_object_type(&mut table, number)? {
            return Ok(false);
        }
    }
    Ok(table.as_str() == AUDIO_OBJECT_TYPES)
}

#[test]
fn audio_object_types_have_numbers(rt: HostRuntime) -> Result<(), Fail> {
    assert!(rt; is_table_of_object_types(rt.alloc())?);
    Ok(())
}

/// The index, variant and frequency of each sampling frequency.
const SAMPLE_FREQ_INDEXES: &str = "\
0 Freq96000 96000\n\
1 Freq88200 88200\n\
2 Freq64000 64000\n\
3 Freq48000 48000\n\
4 Freq44100 44100\n\
5 Freq32000 32000\n\
6 Freq24000 24000\n\
7 Freq22050 22050\n\
8 Freq16000 16000\n\
9 Freq12000 12000\n\
10 Freq11025 11025\n\
11 Freq8000 8000\n\
12 Freq7350 7350\n\
";

/// Appends the line of the sampling frequency `number` to `table`, if there is such an index. Returns whether the index
/// is converted back to `number`, or else has the right error.
fn put_frequency(table: &mut String, number: u8) -> Result<bool, AllocError> {
    match SampleFreqIndex::try_from(number) {
        Ok(found) => {
            let freq = found.freq();
            writeln!(table, "{number} {found:?} {freq}")?;
            Ok(found as u8 == number)
        }
        outcome => Ok(invalid_text(&outcome) == Some("invalid sampling frequency index")),
    }
}

/// Returns whether the lines of all numbers of 8 bits are `SAMPLE_FREQ_INDEXES`.
fn is_table_of_frequencies(alloc: Global) -> Result<bool, AllocError> {
    let mut table = String::new(alloc);
    for number in 0..=255 {
        if !put_frequency(&mut table, number)? {
            return Ok(false);
        }
    }
    Ok(table.as_str() == SAMPLE_FREQ_INDEXES)
}

#[test]
fn sampling_frequencies_have_indexes(rt: HostRuntime) -> Result<(), Fail> {
    assert!(rt; is_table_of_frequencies(rt.alloc())?);
    Ok(())
}

/// The number, variant and printed text of each channel configuration.
const CHANNEL_CONFIGS: &str = "\
1 Mono mono\n\
2 Stereo stereo\n\
3 Three three\n\
4 Four four\n\
5 Five five\n\
6 FiveOne five.one\n\
7 SevenOne seven.one\n\
";

/// Appends the line of the channel configuration `number` to `table`, if there is such a one. Returns whether it is
/// converted back to `number`, or else has the right error.
fn put_arrangement(table: &mut String, number: u8) -> Result<bool, AllocError> {
    match ChannelConfig::try_from(number) {
        Ok(found) => {
            writeln!(table, "{number} {found:?} {found}")?;
            Ok(found as u8 == number)
        }
        outcome => Ok(invalid_text(&outcome) == Some("invalid channel configuration")),
    }
}

/// Returns whether the lines of all numbers of 8 bits are `CHANNEL_CONFIGS`.
fn is_table_of_arrangements(alloc: Global) -> Result<bool, AllocError> {
    let mut table = String::new(alloc);
    for number in 0..=255 {
        if !put_arrangement(&mut table, number)? {
            return Ok(false);
        }
    }
    Ok(table.as_str() == CHANNEL_CONFIGS)
}

#[test]
fn channel_configs_have_numbers(rt: HostRuntime) -> Result<(), Fail> {
    assert!(rt; is_table_of_arrangements(rt.alloc())?);
    Ok(())
}

/// Returns whether `kind` is the data type `number`, equals its clone, and prints as `name`.
fn is_data_type(
    alloc: Global,
    number: u32,
    kind: DataType,
    name: &str,
) -> Result<bool, AllocError> {
    let is_read = matches!(DataType::try_from(number), Ok(found) if found == kind);
    let is_cloned = kind.clone()? == kind;
    let debug = debug_text(alloc, &kind)?;
    Ok(is_read && is_cloned && debug.as_str() == name && kind as u32 == number)
}

/// Returns the first number that has a data type and should have none, if there is one.
fn other_number_of_data() -> Option<u32> {
    for number in [2, 12, 14, 20, 22, 0x0100_0000, 0x0100_0001, u32::MAX] {
        if invalid_text(&DataType::try_from(number)) != Some("invalid data type") {
            return Some(number);
        }
    }
    None
}

#[test]
fn data_types_have_numbers(rt: HostRuntime) -> Result<(), Fail> {
    let alloc = rt.alloc();
    assert!(rt; DataType::default() == DataType::Binary);
    assert!(rt; is_data_type(alloc, 0, DataType::Binary, "Binary")?);
    assert!(rt; is_data_type(alloc, 1, DataType::Text, "Text")?);
    assert!(rt; is_data_type(alloc, 13, DataType::Image, "Image")?);
    assert!(rt; is_data_type(alloc, 21, DataType::TempoCpil, "TempoCpil")?);
    assert_eq!(rt; other_number_of_data(), None);
    Ok(())
}
