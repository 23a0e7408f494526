//! The laws of the media types and their tables. You can call each of these functions to use its law in a proof.

ghost use Rattle.std.specs.Prelude.{◌≡◌, ◌<◌, ℕ, ℤ, Some, None, Result, Ok, IsErrAnd, true};
ghost use Rattle.std.specs.Cmp.{IsEquivalence};
ghost use Rattle.mp4_frame.specs.declared.error.Error.{Error};
ghost use Rattle.mp4_media.specs.Conversion.{IsConversion, IsInvalidData, IsInverse, Selects};
ghost use Rattle.mp4_frame.specs.Equality.{IsEquality, Decides};
ghost use Rattle.mp4_media.specs.FixedPoint.{scaled, scaled_signed, whole, whole_signed};
ghost use Rattle.mp4_media.specs.TrackType.{handler_track_type, track_type_of};
ghost use Rattle.mp4_media.specs.MediaType.{text_media_type, media_type_of};
ghost use Rattle.mp4_media.specs.AvcProfile.{has_avc_profile, avc_profile_of};
ghost use Rattle.mp4_media.specs.AudioObjectType.{number_audio_object_type, audio_object_type_of};
ghost use Rattle.mp4_media.specs.SampleFreqIndex.{number_sample_freq_index, sample_freq_index_of};
ghost use Rattle.mp4_media.specs.ChannelConfig.{number_channel_config, channel_config_of};
ghost use Rattle.mp4_media.specs.DataType.{number_data_type, data_type_of};
ghost use Rattle.mp4_media.specs.Mp4Sample.{IsSameSample};

use crate::{
    AacConfig, AudioObjectType, AvcConfig, AvcProfile, ChannelConfig, DataType, FixedPointI8,
    FixedPointU8, FixedPointU16, HevcConfig, MediaConfig, MediaType, Metadata, MetadataKey,
    Mp4Sample, SampleFreqIndex, TrackType, TtxtConfig, Vp9Config,
};
use std::hash::Hash;

/// States that a whole number converted to fixed point and back is the same number, for every denominator above 0.
pub fn whole_numbers_are_kept()
    ensures unsigned { (d value : ℕ) → 0 < d → whole d (scaled d value) ≡ value }
    ensures signed { (d : ℕ) (value : ℤ) → 0 < d → whole_signed d (scaled_signed d value) ≡ value }
{}

/// States that no two track types share a handler type, and that the handler type of each is converted back to it. Any
/// other handler type has no track type.
pub fn track_types_have_own_handlers()
    ensures { IsInverse handler_track_type track_type_of }
{}

/// States that no two media types share a string, and that the string of each is converted back to it. Any other string
/// has no media type.
pub fn media_types_have_own_texts()
    ensures { IsInverse text_media_type media_type_of }
{}

/// States that a profile number and constraint flags are converted to the only profile that has them, if there is one.
pub fn avc_profiles_have_own_numbers()
    ensures { Selects has_avc_profile avc_profile_of }
{}

/// States that no two audio object types share a number, and that the number of each is converted back to it. Any other
/// number has no type.
pub fn audio_object_types_have_own_numbers()
    ensures { IsInverse number_audio_object_type audio_object_type_of }
{}

/// States that no two sampling frequencies share an index, and that the index of each is converted back to it. Any
/// other index has no frequency.
pub fn sample_freq_indexes_have_own_numbers()
    ensures { IsInverse number_sample_freq_index sample_freq_index_of }
{}

/// States that no two channel configurations share a number, and that the number of each is converted back to it. Any
/// other number has no configuration.
pub fn channel_configs_have_own_numbers()
    ensures { IsInverse number_channel_config channel_config_of }
{}

/// States that no two types of metadata values share a number, and that the number of each is converted back to it. Any
/// other number has no type.
pub fn data_types_have_own_numbers()
    ensures { IsInverse number_data_type data_type_of }
{}

/// States that a conversion returns the value that it finds, and invalid data if it finds none.
pub fn conversions_return_what_they_find<A>()
    ensures value { (v : _) (r : Result A Error) → IsConversion (Some v) r → r ≡ Ok v }
    ensures none { (r : Result A Error) → IsConversion None r → IsErrAnd r IsInvalidData }
{}

/// States that `==` compares all fields, for each type here that derives `PartialEq`.
pub fn equality_is_of_all_fields()
    ensures fixed_point_u8 { IsEquality ⟦<FixedPointU8 as PartialEq>⟧.eq }
    ensures fixed_point_i8 { IsEquality ⟦<FixedPointI8 as PartialEq>⟧.eq }
    ensures fixed_point_u16 { IsEquality ⟦<FixedPointU16 as PartialEq>⟧.eq }
    ensures track_type { IsEquality ⟦<TrackType as PartialEq>⟧.eq }
    ensures media_type { IsEquality ⟦<MediaType as PartialEq>⟧.eq }
    ensures avc_profile { IsEquality ⟦<AvcProfile as PartialEq>⟧.eq }
    ensures audio_object_type { IsEquality ⟦<AudioObjectType as PartialEq>⟧.eq }
    ensures sample_freq_index { IsEquality ⟦<SampleFreqIndex as PartialEq>⟧.eq }
    ensures channel_config { IsEquality ⟦<ChannelConfig as PartialEq>⟧.eq }
    ensures avc_config { IsEquality ⟦<AvcConfig as PartialEq>⟧.eq }
    ensures hevc_config { IsEquality ⟦<HevcConfig as PartialEq>⟧.eq }
    ensures vp9_config { IsEquality ⟦<Vp9Config as PartialEq>⟧.eq }
    ensures aac_config { IsEquality ⟦<AacConfig as PartialEq>⟧.eq }
    ensures ttxt_config { IsEquality ⟦<TtxtConfig as PartialEq>⟧.eq }
    ensures media_config { IsEquality ⟦<MediaConfig as PartialEq>⟧.eq }
    ensures data_type { IsEquality ⟦<DataType as PartialEq>⟧.eq }
    ensures metadata_key { IsEquality ⟦<MetadataKey as PartialEq>⟧.eq }
{}

/// States that `==` of two samples is an equivalence. It compares the length of the data and the four other fields.
pub fn sample_equality_is_of_lengths()
    ensures equivalence { IsEquivalence ⟦<Mp4Sample as PartialEq>⟧.eq }
    ensures lengths { Decides ⟦<Mp4Sample as PartialEq>⟧.eq IsSameSample }
{}

/// States that equal metadata keys have equal hashes.
pub fn equal_metadata_keys_hash_alike()
    ensures { (x y : _) → ⟦<MetadataKey as PartialEq>⟧.eq x y ≡ true
        → ⟦<MetadataKey as Hash>⟧.hash_input x ≡ ⟦<MetadataKey as Hash>⟧.hash_input y }
{}

/// States that the metadata of a reference is the metadata of the value.
pub fn references_say_the_same<'a, T: Metadata<'a> + 'a>()
    ensures title { (m : _) → ⟦<&'a T as Metadata<'a>>⟧.title m ≡ T.title m.now }
    ensures year { (m : _) → ⟦<&'a T as Metadata<'a>>⟧.year m ≡ T.year m.now }
    ensures poster { (m : _) → ⟦<&'a T as Metadata<'a>>⟧.poster m ≡ T.poster m.now }
    ensures summary { (m : _) → ⟦<&'a T as Metadata<'a>>⟧.summary m ≡ T.summary m.now }
{}

/// States that the metadata of a `Some` is the metadata of its value.
pub fn options_say_the_same<'a, T: Metadata<'a>>()
    ensures title { (m : _) → ⟦<Option<T> as Metadata<'a>>⟧.title (Some m) ≡ T.title m }
    ensures year { (m : _) → ⟦<Option<T> as Metadata<'a>>⟧.year (Some m) ≡ T.year m }
    ensures poster { (m : _) → ⟦<Option<T> as Metadata<'a>>⟧.poster (Some m) ≡ T.poster m }
    ensures summary { (m : _) → ⟦<Option<T> as Metadata<'a>>⟧.summary (Some m) ≡ T.summary m }
{}

/// States that a `None` has no metadata.
pub fn empty_options_say_nothing<'a, T: Metadata<'a>>()
    ensures title { ⟦<Option<T> as Metadata<'a>>⟧.title None ≡ None }
    ensures year { ⟦<Option<T> as Metadata<'a>>⟧.year None ≡ None }
    ensures poster { ⟦<Option<T> as Metadata<'a>>⟧.poster None ≡ None }
    ensures summary { ⟦<Option<T> as Metadata<'a>>⟧.summary None ≡ None }
{}

/// Returns the discriminant of `object`, which is its number.
pub fn discriminant_of_audio_object_type(object: AudioObjectType) -> u8
    ensures { result ≡ number_audio_object_type object }
{
    object as u8
}

/// Returns the discriminant of `index`, which is its number.
pub fn discriminant_of_sample_freq_index(index: SampleFreqIndex) -> u8
    ensures { result ≡ number_sample_freq_index index }
{
    index as u8
}

/// Returns the discriminant of `config`, which is its number.
pub fn discriminant_of_channel_config(config: ChannelConfig) -> u8
    ensures { result ≡ number_channel_config config }
{
    config as u8
}

/// Returns the discriminant of `kind`, which is its number.
pub fn discriminant_of_data_type(kind: DataType) -> u32
    ensures { result ≡ number_data_type kind }
{
    kind as u32
}
