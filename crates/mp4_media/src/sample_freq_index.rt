//! Sampling frequencies of audio.

ghost use Rattle.std.specs.Prelude.{◌≡◌};
ghost use Rattle.mp4_media.specs.SampleFreqIndex.{freq_sample_freq_index};

use mp4_frame::{Error, Result};

/// The sampling frequency of an MPEG-4 audio configuration (ISO/IEC 14496-3, 1.6.3.4). Its discriminant is its index.
#[derive(Clone, Copy, Debug, PartialEq, Eq)]
pub enum SampleFreqIndex {
    /// 96000 samples per second.
    Freq96000 = 0,
    /// 88200 samples per second.
    Freq88200 = 1,
    /// 64000 samples per second.
    Freq64000 = 2,
    /// 48000 samples per second.
    Freq48000 = 3,
    /// 44100 samples per second.
    Freq44100 = 4,
    /// 32000 samples per second.
    Freq32000 = 5,
    /// 24000 samples per second.
    Freq24000 = 6,
    /// 22050 samples per second.
    Freq22050 = 7,
    /// 16000 samples per second.
    Freq16000 = 8,
    /// 12000 samples per second.
    Freq12000 = 9,
    /// 11025 samples per second.
    Freq11025 = 10,
    /// 8000 samples per second.
    Freq8000 = 11,
    /// 7350 samples per second.
    Freq7350 = 12,
}

/// Converts an index to its sampling frequency. An index of 13 or above is invalid data.
impl TryFrom<u8> for SampleFreqIndex {
    ghost use Rattle.mp4_media.specs.Conversion.{IsConversion};
    ghost use Rattle.mp4_media.specs.SampleFreqIndex.{sample_freq_index_of};

    type Error = Error;

    ghost try_from_gives = { λ n r. IsConversion (sample_freq_index_of n) r };

    #[tactic(auto, unfolding(crate::specs::SampleFreqIndex::sample_freq_index_of))]
    fn try_from(index: u8) -> Result<SampleFreqIndex> {
        match index {
            0 => Ok(SampleFreqIndex::Freq96000),
            1 => Ok(SampleFreqIndex::Freq88200),
            2 => Ok(SampleFreqIndex::Freq64000),
            3 => Ok(SampleFreqIndex::Freq48000),
            4 => Ok(SampleFreqIndex::Freq44100),
            5 => Ok(SampleFreqIndex::Freq32000),
            6 => Ok(SampleFreqIndex::Freq24000),
            7 => Ok(SampleFreqIndex::Freq22050),
            8 => Ok(SampleFreqIndex::Freq16000),
            9 => Ok(SampleFreqIndex::Freq12000),
            10 => Ok(SampleFreqIndex::Freq11025),
            11 => Ok(SampleFreqIndex::Freq8000),
            12 => Ok(SampleFreqIndex::Freq7350),
            _ => Err(Error::InvalidData("invalid sampling frequency index")),
        }
    }
}

impl SampleFreqIndex {
    /// Returns the frequency, in hertz.
    pub fn freq(&self) -> u32
        ensures { result ≡ freq_sample_freq_index self.now }
    {
        match self {
            SampleFreqIndex::Freq96000 => 96000,
            SampleFreqIndex::Freq88200 => 88200,
            SampleFreqIndex::Freq64000 => 64000,
            SampleFreqIndex::Freq48000 => 48000,
            SampleFreqIndex::Freq44100 => 44100,
            SampleFreqIndex::Freq32000 => 32000,
            SampleFreqIndex::Freq24000 => 24000,
            SampleFreqIndex::Freq22050 => 22050,
            SampleFreqIndex::Freq16000 => 16000,
            SampleFreqIndex::Freq12000 => 12000,
            SampleFreqIndex::Freq11025 => 11025,
            SampleFreqIndex::Freq8000 => 8000,
            SampleFreqIndex::Freq7350 => 7350,
        }
    }
}
