//! Tests of the callers in `example_boxes`.

use example_boxes::audio::aac_config;
use example_boxes::chunks::append_short;
use example_boxes::numbers::aac_config_again;
use example_boxes::references::append_reference;
use example_boxes::sound::{audio_configuration, read_small_esds};
use example_boxes::times::append_decode_time;
use mp4_stream::{AacConfig, ByteCursor, Co64Box, DecoderSpecificDescriptor, Error, EsdsBox};
use std::alloc::{AllocError, Global};
use std::test::Fail;
use test_shared::boxes::sound::{ESDS, STSD, esds, specific};
use test_shared::boxes::text::DINF_URL;
use test_shared::helpers::invalid_text;

/// Returns a `co64` with these offsets.
fn long_offsets(alloc: Global, offsets: &[u64]) -> Result<Co64Box, AllocError> {
    Ok(Co64Box {
        version: 1,
        flags: 5,
        entries: Vec::from_slice(alloc, offsets)?.into(),
    })
}

/// Returns whether `append_short` appends `size` bytes for these offsets.
fn are_shortened(alloc: Global, offsets: &[u64], size: u64) -> bool {
    match long_offsets(alloc, offsets) {
        Ok(long) => {
            matches!(append_short(alloc, &long, &mut Vec::new(alloc)), Ok(found) if found == size)
        }
        Err(_) => false,
    }
}

/// Returns whether a decode time is appended in 32 bits if it fits, and in 64 bits otherwise.
fn times_are_appended(alloc: Global) -> bool {
    let bytes =
        *b"\0\0\0\x10tfdt\0\0\0\0\xff\xff\xff\xff\0\0\0\x14tfdt\x01\0\0\0\0\0\0\x01\0\0\0\0";
    let mut out = Vec::new(alloc);
    matches!(append_decode_time(0xffff_ffff, &mut out), Ok(16))
        && matches!(append_decode_time(0x1_0000_0000, &mut out), Ok(20))
        && out.as_slice() == bytes.as_slice()
}

/// Returns whether a data reference is appended as a `dinf`.
fn reference_is_appended(alloc: Global) -> bool {
    let mut out = Vec::new(alloc);
    matches!(append_reference(alloc, "a", &mut out), Ok(38))
        && out.as_slice() == DINF_URL.as_slice()
}

#[test]
fn decode_times_offsets_and_references_are_appended(rt: HostRuntime) {
    let alloc = rt.alloc();
    assert!(rt;
        times_are_appended(alloc)
            && are_shortened(alloc, &[267, 4294967295], 24)
            && reference_is_appended(alloc)
    );
}

/// Returns whether the default configuration is made from its numbers, and from the configuration itself.
fn default_is_made() -> bool {
    let of_itself = aac_config_again(AacConfig::default());
    matches!(aac_config(0, 2, 3, 2), Ok(found) if found == AacConfig::default())
        && matches!(of_itself, Ok(found) if found == AacConfig::default())
}

#[test]
fn audio_configurations_are_made(rt: HostRuntime) {
    let text = "invalid sampling frequency index";
    assert!(rt; default_is_made() && invalid_text(&aac_config(0, 2, 13, 2)) == Some(text));
}

/// Returns the descriptors of `ESDS` if they have at most `headers` descriptor headers.
fn descriptors_of(headers: u64) -> Result<EsdsBox, Error> {
    let mut reader = ByteCursor::new(&ESDS);
    reader.set_position(8);
    read_small_esds(&mut reader, 43, headers)
}

#[test]
fn descriptors_are_bounded(rt: HostRuntime) -> Result<(), Fail> {
    assert!(rt; invalid_text(&descriptors_of(3)) == Some("too many descriptors"));
    assert!(rt; descriptors_of(4)? == esds());
    Ok(())
}

/// Returns the audio configuration of `STSD`, read with this size.
fn configuration_of(alloc: Global, size: u64) -> Result<DecoderSpecificDescriptor, Error> {
    let mut reader = ByteCursor::new(&STSD);
    reader.set_position(8);
    audio_configuration(alloc, &mut reader, size)
}

#[test]
fn sound_is_configured(rt: HostRuntime) -> Result<(), Fail> {
    let expected = specific(85, 15, Some(0xc3_2435), 11);
    assert!(rt; configuration_of(rt.alloc(), 95)? == expected);
    assert!(rt; invalid_text(&configuration_of(rt.alloc(), 16)) == Some("no sound"));
    Ok(())
}
