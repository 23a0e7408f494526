//! The fields that sample entries start with: those of every entry, those of video and those of audio.

ghost use Rattle.std.specs.Prelude.{◌≡◌, ◌<◌, ◌≤◌, ◌^◌, [], IfOk, IfErr, drop, length, take};
ghost use Rattle.mp4_frame.specs.Bytes.{number, bytes_of_fields, FieldsFit};
ghost use Rattle.mp4_frame.specs.declared.error.Error.TheVariants.{OutOfMemory};
ghost use Rattle.mp4_box_tree.specs.Fronts.{audio_fields};
ghost use Rattle.mp4_box_tree.specs.SampleEntry.{index_of, visual_in, visual_of, front_visual, bytes_visual};
ghost use Rattle.mp4_box_tree.specs.SampleEntry.{first_at, second_at, version_at, audio_at, audio_of};
ghost use Rattle.mp4_box_tree.specs.SampleEntry.{common_fields, first_fields, second_fields};
ghost use Rattle.mp4_box_tree.specs.SampleEntry.{versioned_fields, bytes_audio};

use crate::container::Container;
use crate::fronts::{audio_fields, is_sound_entry, is_video_entry};
use mp4_frame::{
    Entries, Result, put_bytes, put_u16, put_u32, put_u64, put_zeros, u16_at, u32_at, u64_at,
};
use mp4_media::FixedPointU16;
use mp4_walk::{
    QUICKTIME_SOUND_1_LENGTH, QUICKTIME_SOUND_2_LENGTH, SOUND_ENTRY_LENGTH, VIDEO_ENTRY_LENGTH,
};
use std::alloc::Global;

/// Returns the number of the data reference that holds the samples of an entry, starting at 1 (ISO/IEC 14496-12,
/// 8.5.2.2). `content` is the bytes after the header of a sample entry with any code. `None` if it has fewer than 8
/// bytes.
pub fn data_reference_index(content: &[u8]) -> Option<u16>
    ensures { result ≡ index_of content.now }
{
    if content.len() >= 8 {
        Some(u16_at(content, 6))
    } else {
        None
    }
}

/// The fields of a video sample entry (ISO/IEC 14496-12, 12.1.3).
#[derive(Clone, Copy, Debug, Drop, PartialEq, Eq)]
pub struct VisualFields {
    /// The number of the data reference that holds the samples, starting at 1.
    pub data_reference_index: u16,
    /// The width, in pixels.
    pub width: u16,
    /// The height, in pixels.
    pub height: u16,
    /// The horizontal resolution, in pixels per inch, usually 72.
    pub horizresolution: FixedPointU16,
    /// The vertical resolution, in pixels per inch, usually 72.
    pub vertresolution: FixedPointU16,
    /// The number of frames in a sample, usually 1.
    pub frame_count: u16,
    /// The name of the compressor: a byte with its length, at most 31, the bytes of the name, then zeros.
    pub compressorname: [u8; 32],
    /// The number of bits of a pixel, usually 24.
    pub depth: u16,
}

/// Returns the 32 bytes of the compressor's name in `fields`.
fn name_at(fields: &[u8]) -> [u8; 32]
    requires { 74 ≤ length fields.now }
    ensures { result ≡ take 32 (drop 42 fields.now) }
{
    let mut name = [0; 32];
    name.copy_from_slice(&fields[42..74]);
    name
}

impl VisualFields {
    /// Reads the fields from the first 78 bytes after the header of an entry.
    pub fn from_bytes(fields: &[u8]) -> VisualFields
        requires { 78 ≤ length fields.now }
        ensures { result ≡ visual_in fields.now }
    {
        VisualFields {
            data_reference_index: u16_at(fields, 6),
            width: u16_at(fields, 24),
            height: u16_at(fields, 26),
            horizresolution: FixedPointU16::new_raw(u32_at(fields, 28)),
            vertresolution: FixedPointU16::new_raw(u32_at(fields, 32)),
            frame_count: u16_at(fields, 40),
            compressorname: name_at(fields),
            depth: u16_at(fields, 74),
        }
    }

    #[tactic(auto, unfolding(crate::specs::SampleEntry::bytes_visual, mp4_frame::specs::Bytes::bytes_of_fields, mp4_frame::specs::Bytes::bytes_of_fields_onto))]
    fn put(&self, out: &mut [u8])
        requires { length out.old ≡ 78 }
        ensures { out.new ≡ bytes_visual self.now }
    {
        let at = put_zeros(out, 0, 6);
        let at = put_u16(out, at, self.data_reference_index);
        let at = put_zeros(out, at, 16);
        let at = put_u16(out, at, self.width);
        let at = put_u16(out, at, self.height);
        let at = put_u32(out, at, self.horizresolution.raw_value());
        let at = put_u32(out, at, self.vertresolution.raw_value());
        let at = put_zeros(out, at, 4);
        let at = put_u16(out, at, self.frame_count);
        let at = put_bytes(out, at, &self.compressorname);
        let at = put_u16(out, at, self.depth);
        put_u16(out, at, 0xffff);
    }

    /// Returns the 78 bytes of the fields, for `Container::fields`. Reserved bytes are 0, and the last two bytes are
    /// 0xFF. `from_bytes` reads the same fields back. The only error is out of memory.
    pub fn to_bytes(&self, alloc: Global) -> Result<Entries<u8>>
        ensures bytes { IfOk result (λ bytes. bytes ≡ bytes_visual self.now) }
        ensures length { IfOk result (λ bytes. length bytes ≡ 78) }
        ensures read_back { IfOk result (λ bytes. visual_in bytes ≡ self.now) }
        ensures memory { IfErr result (λ e. e ≡ OutOfMemory) }
    {
        visual_reads_back(*self);
        let mut out = vec![in alloc; 0; VIDEO_ENTRY_LENGTH as usize]?;
        self.put(&mut out);
        Ok(out.into())
    }
}

/// For the prover: written fields are read back, since each value has the range of its type.
#[tactic(auto, using(crate::specs::SampleEntryLaws::visual_back))]
fn visual_reads_back(visual: VisualFields)
    ensures { visual_in (bytes_visual visual) ≡ visual }
{
    let (_index, _width, _height) = (visual.data_reference_index, visual.width, visual.height);
    let (_frame_count, _depth) = (visual.frame_count, visual.depth);
    let _horizontal = visual.horizresolution.raw_value();
    let _vertical = visual.vertresolution.raw_value();
    let _name = visual.compressorname;
}

/// The further fields of an audio sample entry of version 1 (QuickTime File Format, "Sound sample description (version
/// 1)").
#[derive(Clone, Copy, Debug, Drop, PartialEq, Eq)]
pub struct AudioFirst {
    /// The number of frames in a compressed packet, for one channel.
    pub samples_per_packet: u32,
    /// The number of bytes in a packet, for one channel.
    pub bytes_per_packet: u32,
    /// The number of bytes in a frame, for all channels.
    pub bytes_per_frame: u32,
    /// The number of bytes of an uncompressed sample.
    pub bytes_per_sample: u32,
}

/// The further fields of an audio sample entry of version 2 (QuickTime File Format, "Sound sample description (version
/// 2)").
#[derive(Clone, Copy, Debug, Drop, PartialEq, Eq)]
pub struct AudioSecond {
    /// The number of bytes of the header and all fields: 72.
    pub size_of_struct_only: u32,
    /// The number of frames per second, as the bits of an IEEE 754 number of 64 bits (`f64::from_bits`).
    pub audio_sample_rate: u64,
    /// The number of channels.
    pub num_audio_channels: u32,
    /// 0x7F00_0000 in the format's specification.
    pub always_7f000000: u32,
    /// The number of bits of a sample of a channel; 0 if samples are compressed.
    pub const_bits_per_channel: u32,
    /// Flags that depend on the code of the entry. For `lpcm`, 1 is floating point, 2 big-endian, 4 signed, 8 packed.
    pub format_specific_flags: u32,
    /// The number of bytes in a packet; 0 if packets differ.
    pub const_bytes_per_audio_packet: u32,
    /// The number of frames in a packet; 0 if packets differ.
    pub const_lpcm_frames_per_audio_packet: u32,
}

/// The version of an audio sample entry, with its further fields.
#[derive(Clone, Copy, Debug, Drop, PartialEq, Eq)]
pub enum AudioVersion {
    /// 0, the only version in ISO/IEC 14496-12, or any other version except 1 and 2. No further fields.
    Zero,
    /// Version 1, a version of QuickTime.
    First(AudioFirst),
    /// Version 2, a version of QuickTime.
    Second(AudioSecond),
}

/// The fields of an audio sample entry (ISO/IEC 14496-12, 12.2.3; QuickTime File Format, "Sound sample descriptions").
#[derive(Clone, Copy, Debug, Drop, PartialEq, Eq)]
pub struct AudioFields {
    /// The number of the data reference that holds the samples, starting at 1.
    pub data_reference_index: u16,
    /// The revision of the encoder in QuickTime. Reserved in ISO/IEC 14496-12: 0.
    pub revision: u16,
    /// The code of the encoder's vendor in QuickTime. Reserved in ISO/IEC 14496-12: 0.
    pub vendor: u32,
    /// The number of channels, usually 2. Always 3 in version 2.
    pub channelcount: u16,
    /// The number of bits of a sample, usually 16. Always 16 in version 2.
    pub samplesize: u16,
    /// The compression in QuickTime, a two's complement number: 0, or 0xFFFE (-2) if packets have different sizes.
    /// Always 0xFFFE in version 2. Reserved in ISO/IEC 14496-12: 0.
    pub compression_id: u16,
    /// Reserved: 0.
    pub packet_size: u16,
    /// The sample rate in Hz. Always 1 in version 2.
    pub samplerate: FixedPointU16,
    /// The version, with its further fields.
    pub version: AudioVersion,
}

fn first_at(fields: &[u8]) -> AudioFirst
    requires { 44 ≤ length fields.now }
    ensures { result ≡ first_at (number fields.now) }
{
    AudioFirst {
        samples_per_packet: u32_at(fields, 28),
        bytes_per_packet: u32_at(fields, 32),
        bytes_per_frame: u32_at(fields, 36),
        bytes_per_sample: u32_at(fields, 40),
    }
}

fn second_at(fields: &[u8]) -> AudioSecond
    requires { 64 ≤ length fields.now }
    ensures { result ≡ second_at (number fields.now) }
{
    AudioSecond {
        size_of_struct_only: u32_at(fields, 28),
        audio_sample_rate: u64_at(fields, 32),
        num_audio_channels: u32_at(fields, 40),
        always_7f000000: u32_at(fields, 44),
        const_bits_per_channel: u32_at(fields, 48),
        format_specific_flags: u32_at(fields, 52),
        const_bytes_per_audio_packet: u32_at(fields, 56),
        const_lpcm_frames_per_audio_packet: u32_at(fields, 60),
    }
}

#[tactic(auto, using(crate::specs::FrontLaws::audio_long))]
fn version_at(fields: &[u8]) -> AudioVersion
    requires present { 28 ≤ length fields.now }
    requires exact { length fields.now ≡ audio_fields fields.now }
    ensures { result ≡ version_at (number fields.now) }
{
    match u16_at(fields, 8) {
        1 => AudioVersion::First(first_at(fields)),
        2 => AudioVersion::Second(second_at(fields)),
        _ => AudioVersion::Zero,
    }
}

#[tactic(auto, using(crate::specs::FrontLaws::audio_least))]
fn audio_at(fields: &[u8]) -> AudioFields
    requires { length fields.now ≡ audio_fields fields.now }
    ensures { result ≡ audio_at (number fields.now) }
{
    AudioFields {
        data_reference_index: u16_at(fields, 6),
        revision: u16_at(fields, 10),
        vendor: u32_at(fields, 12),
        channelcount: u16_at(fields, 16),
        samplesize: u16_at(fields, 18),
        compression_id: u16_at(fields, 20),
        packet_size: u16_at(fields, 22),
        samplerate: FixedPointU16::new_raw(u32_at(fields, 24)),
        version: version_at(fields),
    }
}

impl AudioFields {
    /// Puts the fields of all versions, with this `version`, and returns the offset after them.
    #[tactic(auto, unfolding(mp4_frame::specs::Bytes::bytes_of_fields, mp4_frame::specs::Bytes::bytes_of_fields_onto))]
    fn put_common(&self, out: &mut [u8], version: u16) -> usize
        requires { 28 ≤ length out.old }
        ensures next { result ≡ 28 }
        ensures put { take result out.new ≡ bytes_of_fields (common_fields version self.now []) }
    {
        let at = put_zeros(out, 0, 6);
        let at = put_u16(out, at, self.data_reference_index);
        let at = put_u16(out, at, version);
        let at = put_u16(out, at, self.revision);
        let at = put_u32(out, at, self.vendor);
        let at = put_u16(out, at, self.channelcount);
        let at = put_u16(out, at, self.samplesize);
        let at = put_u16(out, at, self.compression_id);
        let at = put_u16(out, at, self.packet_size);
        put_u32(out, at, self.samplerate.raw_value())
    }

    #[tactic(auto, unfolding(mp4_frame::specs::Bytes::bytes_of_fields, mp4_frame::specs::Bytes::bytes_of_fields_onto))]
    fn put_first(&self, out: &mut [u8], first: AudioFirst)
        requires { length out.old ≡ 44 }
        ensures { out.new ≡ bytes_of_fields (common_fields 1 self.now (first_fields first)) }
    {
        let at = self.put_common(out, 1);
        let at = put_u32(out, at, first.samples_per_packet);
        let at = put_u32(out, at, first.bytes_per_packet);
        let at = put_u32(out, at, first.bytes_per_frame);
        put_u32(out, at, first.bytes_per_sample);
    }

    #[tactic(auto, unfolding(mp4_frame::specs::Bytes::bytes_of_fields, mp4_frame::specs::Bytes::bytes_of_fields_onto))]
    fn put_second(&self, out: &mut [u8], second: AudioSecond)
        requires { length out.old ≡ 64 }
        ensures { out.new ≡ bytes_of_fields (common_fields 2 self.now (second_fields second)) }
    {
        let at = self.put_common(out, 2);
        let at = put_u32(out, at, second.size_of_struct_only);
        let at = put_u64(out, at, second.audio_sample_rate);
        let at = put_u32(out, at, second.num_audio_channels);
        let at = put_u32(out, at, second.always_7f000000);
        let at = put_u32(out, at, second.const_bits_per_channel);
        let at = put_u32(out, at, second.format_specific_flags);
        let at = put_u32(out, at, second.const_bytes_per_audio_packet);
        put_u32(out, at, second.const_lpcm_frames_per_audio_packet);
    }

    fn written_as_first(&self, alloc: Global, first: AudioFirst) -> Result<Entries<u8>>
        ensures bytes { IfOk result
            (λ bytes. bytes ≡ bytes_of_fields (common_fields 1 self.now (first_fields first))) }
        ensures memory { IfErr result (λ e. e ≡ OutOfMemory) }
    {
        let mut out = vec![in alloc; 0; QUICKTIME_SOUND_1_LENGTH as usize]?;
        self.put_first(&mut out, first);
        Ok(out.into())
    }

    fn written_as_second(&self, alloc: Global, second: AudioSecond) -> Result<Entries<u8>>
        ensures bytes { IfOk result
            (λ bytes. bytes ≡ bytes_of_fields (common_fields 2 self.now (second_fields second))) }
        ensures memory { IfErr result (λ e. e ≡ OutOfMemory) }
    {
        let mut out = vec![in alloc; 0; QUICKTIME_SOUND_2_LENGTH as usize]?;
        self.put_second(&mut out, second);
        Ok(out.into())
    }

    #[tactic(auto, unfolding(crate::specs::SampleEntry::bytes_audio))]
    fn written(&self, alloc: Global) -> Result<Entries<u8>>
        ensures bytes { IfOk result (λ bytes. bytes ≡ bytes_audio self.now) }
        ensures memory { IfErr result (λ e. e ≡ OutOfMemory) }
    {
        match self.version {
            AudioVersion::Zero => {
                let mut out = vec![in alloc; 0; SOUND_ENTRY_LENGTH as usize]?;
                self.put_common(&mut out, 0);
                Ok(out.into())
            }
            AudioVersion::First(first) => self.written_as_first(alloc, first),
            AudioVersion::Second(second) => self.written_as_second(alloc, second),
        }
    }

    /// Returns the bytes of the fields, for `Container::fields`: 44 in version 1, 64 in version 2, else 28. The first
    /// six bytes, which are reserved, are 0. `Container::sound` reads the same fields back. The only error is out of
    /// memory.
    pub fn to_bytes(&self, alloc: Global) -> Result<Entries<u8>>
        ensures bytes { IfOk result (λ bytes. bytes ≡ bytes_audio self.now) }
        ensures length { IfOk result (λ bytes. length bytes ≡ audio_fields bytes) }
        ensures read_back { IfOk result (λ bytes. audio_at (number bytes) ≡ self.now) }
        ensures memory { IfErr result (λ e. e ≡ OutOfMemory) }
    {
        audio_reads_back(*self);
        self.written(alloc)
    }
}

/// For the prover: each value has the range of its type.
fn first_fits(first: AudioFirst)
    ensures { FieldsFit (first_fields first) }
{
    let (_samples, _packet) = (first.samples_per_packet, first.bytes_per_packet);
    let (_frame, _sample) = (first.bytes_per_frame, first.bytes_per_sample);
}

/// For the prover, like `first_fits`.
fn second_fits(second: AudioSecond)
    ensures { FieldsFit (second_fields second) }
{
    let (_size, _rate) = (second.size_of_struct_only, second.audio_sample_rate);
    let (_channels, _always) = (second.num_audio_channels, second.always_7f000000);
    let (_bits, _flags) = (second.const_bits_per_channel, second.format_specific_flags);
    let _packet = second.const_bytes_per_audio_packet;
    let _frames = second.const_lpcm_frames_per_audio_packet;
}

/// For the prover, like `first_fits`.
fn common_fits(audio: AudioFields, version: u16)
    ensures { FieldsFit (common_fields version audio []) }
{
    let (_index, _revision) = (audio.data_reference_index, audio.revision);
    let (_vendor, _channels, _size) = (audio.vendor, audio.channelcount, audio.samplesize);
    let (_compression, _packet) = (audio.compression_id, audio.packet_size);
    let (_rate, _version) = (audio.samplerate.raw_value(), version);
}

/// For the prover, like `first_fits`.
fn audio_fits(audio: AudioFields)
    ensures { FieldsFit (versioned_fields audio audio.version) }
{
    match audio.version {
        AudioVersion::Zero => common_fits(audio, 0),
        AudioVersion::First(first) => {
            common_fits(audio, 1);
            first_fits(first);
        }
        AudioVersion::Second(second) => {
            common_fits(audio, 2);
            second_fits(second);
        }
    }
}

/// For the prover: written fields are read back.
#[tactic(auto, using(crate::specs::SampleEntryLaws::audio_back, crate::specs::SampleEntryLaws::audio_long_back))]
fn audio_reads_back(audio: AudioFields)
    ensures read_back { audio_at (number (bytes_audio audio)) ≡ audio }
    ensures length { length (bytes_audio audio) ≡ audio_fields (bytes_audio audio) }
{
    audio_fits(audio);
}

impl<B> Container<B> {
    /// Returns the fields of a video sample entry. `None` if `code` is not the code of one, or `fields` does not have
    /// 78 bytes.
    pub fn visual(&self) -> Option<VisualFields>
        ensures { result ≡ visual_of self.now.code self.now.fields }
    {
        let fields = self.fields.as_slice();
        if is_video_entry(self.code) && fields.len() == VIDEO_ENTRY_LENGTH as usize {
            Some(VisualFields::from_bytes(fields))
        } else {
            None
        }
    }

    /// Returns the fields of an audio sample entry. `None` if `code` is not the code of one, or `fields` does not have
    /// the number of bytes of its version.
    pub fn sound(&self) -> Option<AudioFields>
        ensures { result ≡ audio_of self.now.code self.now.fields }
    {
        let fields = self.fields.as_slice();
        if is_sound_entry(self.code) && fields.len() == audio_fields(fields) {
            Some(audio_at(fields))
        } else {
            None
        }
    }
}
