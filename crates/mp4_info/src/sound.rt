//! The sound of an entry.

ghost use Rattle.std.specs.Prelude.{◌≡◌, IfOk, IfSome, slice_get};
ghost use Rattle.mp4_info.specs.Entries.{aac_config, aac_of, ac3_of, configured_in, ec3_of, is_version_2};
ghost use Rattle.mp4_info.specs.Entries.{long_channels, long_rate, opus_of, rate_of, short_channels, short_rate};
ghost use Rattle.mp4_info.specs.Entries.{sound_in, stated_channels, stream_channels, whole_of};

use crate::channels::{Channels, aac_channels, ac3_channels};
use crate::codec::{in_entry, sound_config};
use crate::entry::{EntryReading, ReadsEntry};
use crate::picture::fields_of;
use mp4_extra_sound::dac3::Dac3Box;
use mp4_extra_sound::dec3::Dec3Box;
use mp4_extra_sound::dops::DopsBox;
use mp4_frame::codes::{AC3, EC3, MP4A, OPUS};
use mp4_frame::{FourCC, codes, u16_at, u32_at, u64_at};
use mp4_io::Failure;
use mp4_movie::BoxLocation;
use mp4_sound::{DecoderConfigDescriptor, EsdsBox};
use mp4_walk::{BoxWalk, Front, Source, TreeBox};
use std::alloc::Global;

/// The code of entries of Dolby TrueHD: `mlpa`.
const MLPA: u32 = 0x6d6c_7061;

/// The sound of an entry.
#[derive(Clone, Copy, Debug, PartialEq, Eq)]
pub struct Sound {
    /// The whole hertz of the sample rate that the entry states, unless it is too short. 0 for rates that don't fit.
    pub sample_rate: Option<u64>,
    /// The channels: those of the configuration of the decoder, or those that the entry states.
    pub channels: Option<Channels>,
}

/// Returns whether a sound entry with the fields `front` is one of QuickTime of version 2.
fn is_version_2(front: Option<Front>) -> bool
    ensures { result ≡ is_version_2 front }
{
    matches!(front, Some(Front::QuickTimeSound2))
}

/// Returns the channels that a sound entry of version 2 with these first fields states, or `None` if they are too
/// short.
fn long_channels(fields: &[u8]) -> Option<Channels>
    ensures { result ≡ long_channels fields.now }
{
    if fields.len() < 44 {
        return None;
    }
    Some(Channels {
        full: u32_at(fields, 40),
        low: 0,
    })
}

/// Returns the channels that a sound entry of another version with these first fields states, or `None` if they are too
/// short.
fn short_channels(fields: &[u8]) -> Option<Channels>
    ensures { result ≡ short_channels fields.now }
{
    if fields.len() < 28 {
        return None;
    }
    Some(Channels {
        full: u32::from(u16_at(fields, 16)),
        low: 0,
    })
}

/// Returns the channels that a sound entry with these first fields states, or `None` if they are too short. `is_long`
/// is true for an entry of version 2.
fn stated_channels(is_long: bool, fields: &[u8]) -> Option<Channels>
    ensures { result ≡ stated_channels is_long fields.now }
{
    if is_long {
        long_channels(fields)
    } else {
        short_channels(fields)
    }
}

/// Returns the whole part of the number of IEEE 754 with these 64 bits, or 0 if it is below 1 or doesn't fit in 32
/// bits.
fn whole_of(bits: u64) -> u64
    ensures { result ≡ whole_of bits }
{
    let exponent = bits / 0x10_0000_0000_0000;
    if exponent < 1023 || exponent >= 1055 {
        return 0;
    }
    (0x10_0000_0000_0000 + bits % 0x10_0000_0000_0000) >> (1075 - exponent)
}

/// Returns the whole hertz of the sample rate of a sound entry of version 2 with these first fields, or `None` if they
/// are too short.
fn long_rate(fields: &[u8]) -> Option<u64>
    ensures { result ≡ long_rate fields.now }
{
    if fields.len() < 44 {
        return None;
    }
    Some(whole_of(u64_at(fields, 32)))
}

/// Returns the whole hertz of the sample rate of a sound entry of another version with the original code `code` and
/// these first fields, or `None` if they are too short.
fn short_rate(code: FourCC, fields: &[u8]) -> Option<u64>
    ensures { result ≡ short_rate code fields.now }
{
    if fields.len() < 28 {
        return None;
    }
    if u32::from(code) == MLPA {
        Some(u64::from(u32_at(fields, 24)))
    } else {
        Some(u64::from(u16_at(fields, 24)))
    }
}

/// Returns the whole hertz of the sample rate of a sound entry with the original code `code` and these first fields, or
/// `None` if they are too short. `is_long` is true for an entry of version 2.
fn rate_of(is_long: bool, code: FourCC, fields: &[u8]) -> Option<u64>
    ensures { result ≡ rate_of is_long code fields.now }
{
    if is_long {
        long_rate(fields)
    } else {
        short_rate(code, fields)
    }
}

/// Returns the channels of MPEG-4 audio, if its channel configuration names them.
fn aac_config(config: &DecoderConfigDescriptor) -> Option<Channels>
    ensures { result ≡ aac_config config.now }
{
    if config.object_type_indication == 0x40 {
        aac_channels(config.dec_specific.chan_conf)
    } else {
        None
    }
}

/// Returns the channels of an `esds`.
fn aac_of(config: &Option<EsdsBox>) -> Option<Channels>
    ensures { result ≡ aac_of config.now }
{
    match config {
        Some(config) => aac_config(&config.es_desc.dec_config),
        None => None,
    }
}

/// Returns the channels of a `dOps`.
fn opus_of(config: &Option<DopsBox>) -> Option<Channels>
    ensures { result ≡ opus_of config.now }
{
    match config {
        Some(config) => Some(Channels {
            full: u32::from(config.output_channel_count),
            low: 0,
        }),
        None => None,
    }
}

/// Returns the channels of a `dac3`.
fn ac3_of(config: &Option<Dac3Box>) -> Option<Channels>
    ensures { result ≡ ac3_of config.now }
{
    match config {
        Some(config) => Some(ac3_channels(config.config.acmod, config.config.lfeon)),
        None => None,
    }
}

/// Returns the channels of a stream of Enhanced AC-3 by its second byte, if it is present.
fn stream_channels(byte: Option<u8>) -> Option<Channels>
    ensures { result ≡ stream_channels byte }
{
    match byte {
        Some(byte) => Some(ac3_channels(byte / 2 % 8, byte % 2 == 1)),
        None => None,
    }
}

/// Returns the second of `bytes`, if it is present.
fn second(bytes: &[u8]) -> Option<u8>
    ensures { result ≡ slice_get bytes.now 1 }
{
    if bytes.len() > 1 {
        Some(bytes[1])
    } else {
        None
    }
}

/// Returns the channels of the first stream of a `dec3`.
fn ec3_of(config: &Option<Dec3Box>) -> Option<Channels>
    ensures { result ≡ ec3_of config.now }
{
    match config {
        Some(config) => stream_channels(second(config.substreams.as_slice())),
        None => None,
    }
}

/// Returns the channels by the configuration in an entry, which has the original code `code`.
fn configured_in<S: Source>(
    alloc: Global,
    walk: &mut BoxWalk<S>,
    code: FourCC,
    entry: &[TreeBox],
) -> Result<Option<Channels>, Failure>
    ensures value { IfSome walk.old.bytes
        (λ file. IfOk result (λ r. r
        ≡ configured_in ⟦<EntryReading as ReadsEntry>⟧.readings file code entry.now)) }
    ensures kept { walk.new ≡ walk.old }
{
    match u32::from(code) {
        MP4A => Ok(aac_of(&sound_config(alloc, walk, entry)?)),
        OPUS => Ok(opus_of(&in_entry::<DopsBox, S>(alloc, walk, entry, codes::DOPS)?)),
        AC3 => Ok(ac3_of(&in_entry::<Dac3Box, S>(alloc, walk, entry, codes::DAC3)?)),
        EC3 => Ok(ec3_of(&in_entry::<Dec3Box, S>(alloc, walk, entry, codes::DEC3)?)),
        _ => Ok(None),
    }
}

/// Returns the sound of the entry at `place`, which has the original code `code`.
pub fn sound_in<S: Source>(
    alloc: Global,
    walk: &mut BoxWalk<S>,
    code: FourCC,
    place: BoxLocation<'_>,
) -> Result<Sound, Failure>
    ensures value { IfSome walk.old.bytes
        (λ file. IfOk result (λ r. r ≡ sound_in ⟦<EntryReading as ReadsEntry>⟧.readings file code
        (record { box = place.entry.found; after = place.entry.after.now }))) }
    ensures kept { walk.new ≡ walk.old }
{
    let fields = fields_of(alloc, walk, place.found)?;
    let configured = configured_in(alloc, walk, code, place.after)?;
    let is_long = is_version_2(place.found.front);
    Ok(Sound {
        sample_rate: rate_of(is_long, code, &fields),
        channels: configured.or(stated_channels(is_long, &fields)),
    })
}
