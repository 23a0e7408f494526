//! The configuration of MPEG-4 audio, for showing only. Offsets are in bits.

ghost use Rattle.std.specs.Prelude.{◌≡◌, ◌+◌, ◌<◌, ◌≤◌, ◌^◌, ◌%◌, ◌++◌, false, OnOk};
ghost use Rattle.mp4_extra_sound.specs.AudioConfig.{after_coder, after_delay, after_flag, audio_config, bits_at};
ghost use Rattle.mp4_extra_sound.specs.AudioConfig.{config_of, extended, extension_after, extension_at, extension_of};
ghost use Rattle.mp4_extra_sound.specs.AudioConfig.{frequency, frequency_of, is_present, object_type, plain, ps_flag};
ghost use Rattle.mp4_extra_sound.specs.AudioConfig.{sbr_after, window};
ghost use Rattle.mp4_extra_sound.specs.ShownDescriptors.{shown_audio, whole_audio};
ghost use Rattle.mp4_shown.specs.Hands.{Hands};
ghost use Rattle.mp4_shown.specs.Numbers.{shown_numbers};

use mp4_frame::Entries;
use mp4_shown::{
    FieldSink, Meaning, NamedShape, NumberName, ShowShape, View, byte_at, number, put_numbers,
};

/// The sampling frequencies by their index, in hertz (ISO/IEC 14496-3, 1.6.3.4).
const FREQUENCIES: [u64; 13] = [
    96000, 88200, 64000, 48000, 44100, 32000, 24000, 22050, 16000, 12000, 11025, 8000, 7350,
];

/// The names of object types (ISO/IEC 14496-3, 1.5.1.1).
pub const AUDIO_OBJECT_TYPES: &[Meaning] = &[
    (1, "AAC Main"),
    (2, "AAC LC"),
    (3, "AAC SSR"),
    (4, "AAC LTP"),
    (5, "SBR"),
    (6, "AAC Scalable"),
    (7, "TwinVQ"),
    (8, "CELP"),
    (9, "HVXC"),
    (17, "ER AAC LC"),
    (19, "ER AAC LTP"),
    (20, "ER AAC Scalable"),
    (22, "ER BSAC"),
    (23, "ER AAC LD"),
    (29, "PS"),
    (30, "MPEG Surround"),
    (32, "Layer-1"),
    (33, "Layer-2"),
    (34, "Layer-3"),
    (36, "ALS"),
    (37, "SLS"),
    (39, "ER AAC ELD"),
    (42, "USAC"),
];

/// The names of channel configurations (ISO/IEC 14496-3, 1.6.3.5).
const CHANNEL_CONFIGURATIONS: &[Meaning] = &[
    (0, "defined in the stream"),
    (1, "mono"),
    (2, "stereo"),
    (3, "3.0"),
    (4, "4.0"),
    (5, "5.0"),
    (6, "5.1"),
    (7, "7.1"),
];

/// The name of the configuration.
pub(crate) const AUDIO_NAME: &str = "AudioSpecificConfig";

/// The names of its numbers. A frequency of 0 is unknown, and is left out.
pub(crate) const AUDIO: &[NumberName] = &[
    number!("audioObjectType", Named, AUDIO_OBJECT_TYPES),
    number!("samplingFrequencyIndex"),
    number!("samplingFrequency", Reserved(0)),
    number!("channelConfiguration", Named, CHANNEL_CONFIGURATIONS),
];

/// The names of the numbers of an extension. What isn't signalled is left out.
pub(crate) const EXTENSION: &[NumberName] = &[
    number!("extensionAudioObjectType", Reserved(0)),
    number!("sbrPresentFlag", Reserved(2)),
    number!("psPresentFlag", Reserved(2)),
    number!("extensionSamplingFrequencyIndex", Reserved(16)),
    number!("extensionSamplingFrequency", Reserved(0)),
];

/// The numbers of no extension.
const NO_EXTENSION: [u64; 5] = [0, 2, 2, 16, 0];

/// Returns the number in the four bytes at offset `at`, in bytes. A byte past the end is 0.
fn window(bytes: &[u8], at: usize) -> u64
    requires near { at < 2 ^ 32 }
    ensures { result ≡ window bytes.now at }
{
    u64::from(byte_at(bytes, at)) * 16777216
        + u64::from(byte_at(bytes, at + 1)) * 65536
        + u64::from(byte_at(bytes, at + 2)) * 256
        + u64::from(byte_at(bytes, at + 3))
}

/// Returns the lowest `width` bits of `n`.
fn low_bits(n: u64, width: usize) -> u64
    requires short { width ≤ 24 }
    ensures value { result ≡ n % 2 ^ width }
    ensures small { result < 2 ^ width }
{
    n % (1 << width)
}

/// Returns the `width` bits at offset `at`.
#[tactic(auto, unfolding(crate::specs::AudioConfig::bits_at))]
fn bits_at(bytes: &[u8], at: usize, width: usize) -> u64
    requires near { at < 2 ^ 32 }
    requires short { width ≤ 24 }
    ensures value { result ≡ bits_at bytes.now at width }
    ensures small { result < 2 ^ width }
{
    let word = window(bytes, at / 8);
    low_bits(word >> (32 - (at % 8 + width)), width)
}

/// Returns whether the bytes of the first `count` bits are present.
fn is_present(bytes: &[u8], count: usize) -> bool
    requires near { count < 2 ^ 32 }
    ensures { result ≡ is_present bytes.now count }
{
    (count + 7) / 8 <= bytes.len()
}

/// Returns the object type at offset `at`, and the offset after it.
#[tactic(auto, unfolding(crate::specs::AudioConfig::object_type))]
fn object_type(bytes: &[u8], at: usize) -> (u64, usize)
    requires near { at < 2 ^ 30 }
    ensures value { result ≡ object_type bytes.now at }
    ensures next { result.1 ≤ at + 11 }
{
    let kind = bits_at(bytes, at, 5);
    if kind == 31 {
        (32 + bits_at(bytes, at + 5, 6), at + 11)
    } else {
        (kind, at + 5)
    }
}

/// Returns the sampling frequency with the index `index`, or 0 if there is none.
fn frequency_of(index: u64) -> u64
    ensures { result ≡ frequency_of index }
{
    if index < 13 {
        FREQUENCIES[index as usize]
    } else {
        0
    }
}

/// Returns the index of the sampling frequency at offset `at`, the frequency, and the offset after them.
#[tactic(auto, unfolding(crate::specs::AudioConfig::frequency))]
fn frequency(bytes: &[u8], at: usize) -> (u64, u64, usize)
    requires near { at < 2 ^ 30 }
    ensures value { result ≡ frequency bytes.now at }
    ensures next { result.2 ≤ at + 28 }
{
    let index = bits_at(bytes, at, 4);
    if index == 15 {
        (15, bits_at(bytes, at + 4, 24), at + 28)
    } else {
        (index, frequency_of(index), at + 4)
    }
}

/// Returns the flag of parametric stereo at offset `at`, or 2 if it isn't signalled there.
#[tactic(auto, unfolding(crate::specs::AudioConfig::ps_flag))]
fn ps_flag(bytes: &[u8], at: usize) -> u64
    requires near { at < 2 ^ 30 }
    ensures { result ≡ ps_flag bytes.now at }
{
    if is_present(bytes, at + 12) && bits_at(bytes, at, 11) == 1352 {
        bits_at(bytes, at + 11, 1)
    } else {
        2
    }
}

/// Returns the numbers of an extension with the frequency `rate`.
fn sbr_after(bytes: &[u8], rate: (u64, u64, usize)) -> [u64; 5]
    requires near { rate.2 < 2 ^ 30 }
    ensures { result ≡ sbr_after bytes.now rate }
{
    let (index, frequency, next) = rate;
    if is_present(bytes, next) {
        [5, 1, ps_flag(bytes, next), index, frequency]
    } else {
        NO_EXTENSION
    }
}

/// Returns the numbers of an extension with the object type `kind`, whose flag is at the offset after it.
fn extension_of(bytes: &[u8], kind: (u64, usize)) -> [u64; 5]
    requires near { kind.1 < 2 ^ 29 }
    ensures { result ≡ extension_of bytes.now kind }
{
    let (object_type, next) = kind;
    if object_type == 5 {
        if bits_at(bytes, next, 1) == 1 {
            sbr_after(bytes, frequency(bytes, next + 1))
        } else {
            [5, 0, 2, 16, 0]
        }
    } else {
        NO_EXTENSION
    }
}

/// Returns the numbers of the extension at offset `at`, if there is one.
#[tactic(auto, unfolding(crate::specs::AudioConfig::extension_at))]
fn extension_at(bytes: &[u8], at: usize) -> [u64; 5]
    requires near { at < 2 ^ 28 }
    ensures { result ≡ extension_at bytes.now at }
{
    if is_present(bytes, at + 17) && bits_at(bytes, at, 11) == 695 {
        extension_of(bytes, object_type(bytes, at + 11))
    } else {
        NO_EXTENSION
    }
}

/// Returns the offset after the delay of a coder whose configuration is at offset `at`.
fn after_delay(bytes: &[u8], at: usize) -> usize
    requires near { at < 2 ^ 28 }
    ensures value { result ≡ after_delay bytes.now at }
    ensures next { result ≤ at + 16 }
{
    if bits_at(bytes, at + 1, 1) == 1 {
        at + 16
    } else {
        at + 2
    }
}

/// Returns the offset after the flag at offset `at`, and after another one if it is set.
fn after_flag(bytes: &[u8], at: usize) -> usize
    requires near { at < 2 ^ 28 }
    ensures value { result ≡ after_flag bytes.now at }
    ensures next { result ≤ at + 2 }
{
    if bits_at(bytes, at, 1) == 1 {
        at + 2
    } else {
        at + 1
    }
}

/// Returns the offset after the configuration of a coder at offset `at`.
#[tactic(auto, unfolding(crate::specs::AudioConfig::after_coder))]
fn after_coder(bytes: &[u8], at: usize) -> usize
    requires near { at < 2 ^ 27 }
    ensures value { result ≡ after_coder bytes.now at }
    ensures next { result ≤ at + 18 }
{
    let flag = after_delay(bytes, at);
    after_flag(bytes, flag)
}

/// Returns the numbers of the extension after a configuration with the object type `kind`, which ends at offset `at`.
#[tactic(auto, unfolding(crate::specs::AudioConfig::extension_after))]
fn extension_after(bytes: &[u8], kind: u64, channels: u64, at: usize) -> [u64; 5]
    requires near { at < 2 ^ 26 }
    ensures { result ≡ extension_after bytes.now kind channels at }
{
    if (1 <= kind && kind <= 4) && 0 < channels {
        extension_at(bytes, after_coder(bytes, at))
    } else {
        NO_EXTENSION
    }
}

/// Returns the numbers of a configuration whose object type `kind` is that of an extension with the frequency
/// `extension`.
#[tactic(auto, unfolding(crate::specs::AudioConfig::extended))]
fn extended(
    bytes: &[u8],
    kind: u64,
    rate: (u64, u64, usize),
    channels: u64,
    extension: (u64, u64, usize),
) -> Option<([u64; 4], [u64; 5])>
    requires near { extension.2 < 2 ^ 26 }
    ensures { result ≡ extended bytes.now kind rate channels extension }
{
    let (own, next) = object_type(bytes, extension.2);
    if !is_present(bytes, next) {
        return None;
    }
    let ps = if kind == 29 { 1 } else { 2 };
    Some((
        [own, rate.0, rate.1, channels],
        [5, 1, ps, extension.0, extension.1],
    ))
}

/// Returns the numbers of a configuration with the object type `kind`, which isn't that of an extension.
#[tactic(auto, unfolding(crate::specs::AudioConfig::plain))]
fn plain(
    bytes: &[u8],
    kind: u64,
    rate: (u64, u64, usize),
    channels: u64,
) -> Option<([u64; 4], [u64; 5])>
    requires near { rate.2 < 2 ^ 25 }
    ensures { result ≡ plain bytes.now kind rate channels }
{
    if !is_present(bytes, rate.2 + 4) {
        return None;
    }
    let extension = extension_after(bytes, kind, channels, rate.2 + 4);
    Some(([kind, rate.0, rate.1, channels], extension))
}

/// Returns the numbers of a configuration with the object type `kind` and the frequency `rate`.
#[tactic(auto, unfolding(crate::specs::AudioConfig::config_of))]
fn config_of(bytes: &[u8], kind: u64, rate: (u64, u64, usize)) -> Option<([u64; 4], [u64; 5])>
    requires near { rate.2 < 2 ^ 24 }
    ensures { result ≡ config_of bytes.now kind rate }
{
    let channels = bits_at(bytes, rate.2, 4);
    if kind == 5 || kind == 29 {
        let extension = frequency(bytes, rate.2 + 4);
        extended(bytes, kind, rate, channels, extension)
    } else {
        plain(bytes, kind, rate, channels)
    }
}

/// Returns the numbers of the configuration in `bytes` and those of its extension, or `None` if the bytes are too few.
#[tactic(auto, unfolding(crate::specs::AudioConfig::audio_config))]
pub(crate) fn audio_config(bytes: &[u8]) -> Option<([u64; 4], [u64; 5])>
    ensures { result ≡ audio_config bytes.now }
{
    let (kind, next) = object_type(bytes, 0);
    config_of(bytes, kind, frequency(bytes, next))
}

/// Hands the numbers of a configuration and of its extension to a sink.
fn put_config<K: FieldSink>(
    numbers: &[u64; 4],
    extension: &[u64; 5],
    sink: &mut K,
) -> mp4_shown::Result<()>
    ensures { OnOk result (Hands K.trace K.after sink.old
        (shown_numbers false AUDIO.now numbers.now ++ shown_numbers false EXTENSION.now extension.now) sink.new) }
{
    put_numbers(false, AUDIO, numbers, sink)?;
    put_numbers(false, EXTENSION, extension, sink)
}

/// The configuration in some bytes, for showing only. It isn't shown if the bytes are too few.
pub struct AudioShown;

impl NamedShape for AudioShown {
    type Value = Entries<u8>;

    type Names = ();

    ghost Seen = { Unit {0} };

    ghost seen = { λ names. names };

    ghost shown = { λ names view bytes. shown_audio bytes };

    ghost whole = { λ names view bytes. whole_audio bytes };
}

impl<'a> ShowShape<&'a [u8]> for AudioShown {
    ghost content = { λ bytes. bytes.now };

    fn show<K: FieldSink>(
        _names: &(),
        _view: View,
        value: &&'a [u8],
        sink: &mut K,
    ) -> mp4_shown::Result<()> {
        match audio_config(*value) {
            Some(config) => {
                let numbers = config.0;
                let extension = config.1;
                sink.begin_group(AUDIO_NAME)?;
                put_config(&numbers, &extension, sink)?;
                sink.end_group()
            }
            None => Ok(()),
        }
    }
}
