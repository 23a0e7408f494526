//! Audio object types: the codings of sound.

ghost use Rattle.std.specs.Prelude.{◌≡◌, Some};

use mp4_frame::{Error, Result};
use std::fmt;

/// The audio object type of an MPEG-4 audio configuration (ISO/IEC 14496-3, 1.5.1.1). Its discriminant is its number.
#[derive(Clone, Copy, Debug, PartialEq, Eq)]
pub enum AudioObjectType {
    /// AAC main profile.
    AacMain = 1,
    /// AAC low complexity.
    AacLowComplexity = 2,
    /// AAC scalable sample rate.
    AacScalableSampleRate = 3,
    /// AAC long term prediction.
    AacLongTermPrediction = 4,
    /// Spectral band replication.
    SpectralBandReplication = 5,
    /// AAC scalable.
    AACScalable = 6,
    /// Transform-domain weighted interleave vector quantization.
    TwinVQ = 7,
    /// Code excited linear prediction, for speech.
    CodeExcitedLinearPrediction = 8,
    /// Harmonic vector excitation coding, for speech.
    HarmonicVectorExcitationCoding = 9,
    /// Text-to-speech interface.
    TextToSpeechtInterface = 12,
    /// Structured audio, main.
    MainSynthetic = 13,
    /// Wavetable synthesis.
    WavetableSynthesis = 14,
    /// General MIDI.
    GeneralMIDI = 15,
    /// Algorithmic synthesis and audio effects.
    AlgorithmicSynthesis = 16,
    /// Error resilient AAC low complexity.
    ErrorResilientAacLowComplexity = 17,
    /// Error resilient AAC long term prediction.
    ErrorResilientAacLongTermPrediction = 19,
    /// Error resilient AAC scalable.
    ErrorResilientAacScalable = 20,
    /// Error resilient TwinVQ.
    ErrorResilientAacTwinVQ = 21,
    /// Error resilient bit-sliced arithmetic coding.
    ErrorResilientAacBitSlicedArithmeticCoding = 22,
    /// Error resilient AAC low delay.
    ErrorResilientAacLowDelay = 23,
    /// Error resilient code excited linear prediction.
    ErrorResilientCodeExcitedLinearPrediction = 24,
    /// Error resilient harmonic vector excitation coding.
    ErrorResilientHarmonicVectorExcitationCoding = 25,
    /// Error resilient harmonic and individual lines plus noise.
    ErrorResilientHarmonicIndividualLinesNoise = 26,
    /// Error resilient parametric coding.
    ErrorResilientParametric = 27,
    /// Sinusoidal coding.
    SinuSoidalCoding = 28,
    /// Parametric stereo.
    ParametricStereo = 29,
    /// MPEG surround.
    MpegSurround = 30,
    /// MPEG audio layer 1.
    MpegLayer1 = 32,
    /// MPEG audio layer 2.
    MpegLayer2 = 33,
    /// MPEG audio layer 3.
    MpegLayer3 = 34,
    /// Direct stream transfer.
    DirectStreamTransfer = 35,
    /// Audio lossless coding.
    AudioLosslessCoding = 36,
    /// Scalable lossless coding.
    ScalableLosslessCoding = 37,
    /// Scalable lossless coding without a core.
    ScalableLosslessCodingNoneCore = 38,
    /// Error resilient AAC enhanced low delay.
    ErrorResilientAacEnhancedLowDelay = 39,
    /// Symbolic music representation, simple.
    SymbolicMusicRepresentationSimple = 40,
    /// Symbolic music representation, main.
    SymbolicMusicRepresentationMain = 41,
    /// Unified speech and audio coding.
    UnifiedSpeechAudioCoding = 42,
    /// Spatial audio object coding.
    SpatialAudioObjectCoding = 43,
    /// Low delay MPEG surround.
    LowDelayMpegSurround = 44,
    /// Spatial audio object coding with dialogue enhancement.
    SpatialAudioObjectCodingDialogueEnhancement = 45,
    /// Audio synchronization.
    AudioSync = 46,
}

/// Converts a number to its audio object type. A number without a type is invalid data: 0, 10, 11, 18, 31, and 47 and
/// above.
impl TryFrom<u8> for AudioObjectType {
    ghost use Rattle.mp4_media.specs.Conversion.{IsConversion};
    ghost use Rattle.mp4_media.specs.AudioObjectType.{audio_object_type_of};

    type Error = Error;

    ghost try_from_gives = { λ n r. IsConversion (audio_object_type_of n) r };

    #[tactic(auto, unfolding(crate::specs::AudioObjectType::audio_object_type_of))]
    fn try_from(number: u8) -> Result<AudioObjectType> {
        match number {
            1 => Ok(AudioObjectType::AacMain),
            2 => Ok(AudioObjectType::AacLowComplexity),
            3 => Ok(AudioObjectType::AacScalableSampleRate),
            4 => Ok(AudioObjectType::AacLongTermPrediction),
            5 => Ok(AudioObjectType::SpectralBandReplication),
            6 => Ok(AudioObjectType::AACScalable),
            7 => Ok(AudioObjectType::TwinVQ),
            8 => Ok(AudioObjectType::CodeExcitedLinearPrediction),
            9 => Ok(AudioObjectType::HarmonicVectorExcitationCoding),
            12 => Ok(AudioObjectType::TextToSpeechtInterface),
            13 => Ok(AudioObjectType::MainSynthetic),
            14 => Ok(AudioObjectType::WavetableSynthesis),
            15 => Ok(AudioObjectType::GeneralMIDI),
            16 => Ok(AudioObjectType::AlgorithmicSynthesis),
            17 => Ok(AudioObjectType::ErrorResilientAacLowComplexity),
            19 => Ok(AudioObjectType::ErrorResilientAacLongTermPrediction),
            20 => Ok(AudioObjectType::ErrorResilientAacScalable),
            21 => Ok(AudioObjectType::ErrorResilientAacTwinVQ),
            22 => Ok(AudioObjectType::ErrorResilientAacBitSlicedArithmeticCoding),
            23 => Ok(AudioObjectType::ErrorResilientAacLowDelay),
            24 => Ok(AudioObjectType::ErrorResilientCodeExcitedLinearPrediction),
            25 => Ok(AudioObjectType::ErrorResilientHarmonicVectorExcitationCoding),
            26 => Ok(AudioObjectType::ErrorResilientHarmonicIndividualLinesNoise),
            27 => Ok(AudioObjectType::ErrorResilientParametric),
            28 => Ok(AudioObjectType::SinuSoidalCoding),
            29 => Ok(AudioObjectType::ParametricStereo),
            30 => Ok(AudioObjectType::MpegSurround),
            32 => Ok(AudioObjectType::MpegLayer1),
            33 => Ok(AudioObjectType::MpegLayer2),
            34 => Ok(AudioObjectType::MpegLayer3),
            35 => Ok(AudioObjectType::DirectStreamTransfer),
            36 => Ok(AudioObjectType::AudioLosslessCoding),
            37 => Ok(AudioObjectType::ScalableLosslessCoding),
            38 => Ok(AudioObjectType::ScalableLosslessCodingNoneCore),
            39 => Ok(AudioObjectType::ErrorResilientAacEnhancedLowDelay),
            40 => Ok(AudioObjectType::SymbolicMusicRepresentationSimple),
            41 => Ok(AudioObjectType::SymbolicMusicRepresentationMain),
            42 => Ok(AudioObjectType::UnifiedSpeechAudioCoding),
            43 => Ok(AudioObjectType::SpatialAudioObjectCoding),
            44 => Ok(AudioObjectType::LowDelayMpegSurround),
            45 => Ok(AudioObjectType::SpatialAudioObjectCodingDialogueEnhancement),
            46 => Ok(AudioObjectType::AudioSync),
            _ => Err(Error::InvalidData("invalid audio object type")),
        }
    }
}

/// Shows the usual short name of the type, such as `LC`.
impl fmt::Display for AudioObjectType {
    ghost use Rattle.mp4_media.specs.AudioObjectType.{text_audio_object_type};

    ghost output = { λ t. Some (text_audio_object_type t) };

    fn fmt<W: fmt::Write>(&self, f: &mut fmt::Formatter<W>) -> fmt::Result {
        f.write_str(match self {
            AudioObjectType::AacMain => "AAC Main",
            AudioObjectType::AacLowComplexity => "LC",
            AudioObjectType::AacScalableSampleRate => "SSR",
            AudioObjectType::AacLongTermPrediction => "LTP",
            AudioObjectType::SpectralBandReplication => "SBR",
            AudioObjectType::AACScalable => "Scalable",
            AudioObjectType::TwinVQ => "TwinVQ",
            AudioObjectType::CodeExcitedLinearPrediction => "CELP",
            AudioObjectType::HarmonicVectorExcitationCoding => "HVXC",
            AudioObjectType::TextToSpeechtInterface => "TTSI",
            AudioObjectType::MainSynthetic => "Main Synthetic",
            AudioObjectType::WavetableSynthesis => "Wavetable Synthesis",
            AudioObjectType::GeneralMIDI => "General MIDI",
            AudioObjectType::AlgorithmicSynthesis => "Algorithmic Synthesis",
            AudioObjectType::ErrorResilientAacLowComplexity => "ER AAC LC",
            AudioObjectType::ErrorResilientAacLongTermPrediction => "ER AAC LTP",
            AudioObjectType::ErrorResilientAacScalable => "ER AAC scalable",
            AudioObjectType::ErrorResilientAacTwinVQ => "ER AAC TwinVQ",
            AudioObjectType::ErrorResilientAacBitSlicedArithmeticCoding => "ER AAC BSAC",
            AudioObjectType::ErrorResilientAacLowDelay => "ER AAC LD",
            AudioObjectType::ErrorResilientCodeExcitedLinearPrediction => "ER CELP",
            AudioObjectType::ErrorResilientHarmonicVectorExcitationCoding => "ER HVXC",
            AudioObjectType::ErrorResilientHarmonicIndividualLinesNoise => "ER HILN",
            AudioObjectType::ErrorResilientParametric => "ER Parametric",
            AudioObjectType::SinuSoidalCoding => "SSC",
            AudioObjectType::ParametricStereo => "Parametric Stereo",
            AudioObjectType::MpegSurround => "MPEG surround",
            AudioObjectType::MpegLayer1 => "MPEG Layer 1",
            AudioObjectType::MpegLayer2 => "MPEG Layer 2",
            AudioObjectType::MpegLayer3 => "MPEG Layer 3",
            AudioObjectType::DirectStreamTransfer => "DST",
            AudioObjectType::AudioLosslessCoding => "ALS",
            AudioObjectType::ScalableLosslessCoding => "SLS",
            AudioObjectType::ScalableLosslessCodingNoneCore => "SLS Non-core",
            AudioObjectType::ErrorResilientAacEnhancedLowDelay => "ER AAC ELD",
            AudioObjectType::SymbolicMusicRepresentationSimple => "SMR Simple",
            AudioObjectType::SymbolicMusicRepresentationMain => "SMR Main",
            AudioObjectType::UnifiedSpeechAudioCoding => "USAC",
            AudioObjectType::SpatialAudioObjectCoding => "SAOC",
            AudioObjectType::LowDelayMpegSurround => "LD MPEG Surround",
            AudioObjectType::SpatialAudioObjectCodingDialogueEnhancement => "SAOC-DE",
            AudioObjectType::AudioSync => "Audio Sync",
        })
    }
}
