//! Tests of `esds`: the descriptors of an elementary stream, and audio configurations.

use mp4_stream::{
    ByteCursor, DecoderConfigDescriptor, DecoderSpecificDescriptor, ESDescriptor, EsdsBox,
    SLConfigDescriptor, WriteBox,
};
use std::alloc::Global;
use std::test::Fail;
use test_shared::boxes::sound::{esds_of, mp4a_of, specific};
use test_shared::helpers::{
    Kind, Mismatch, expect_kind, expect_round_trip, expect_unwritable, expect_unwritable_of_size,
    expect_value, kind_of,
};

/// The bytes that the codec writes for stream 1, of low complexity at 48000 hertz in stereo.
const STEREO: [u8; 39] = *b"\0\0\0\x27esds\0\0\0\0\x03\x19\0\x01\0\x04\x11\x40\x15\0\0\0\
\0\x01\xf4\0\0\x01\xf4\0\x05\x02\x11\x90\x06\0\0";

/// Returns the descriptors that `STEREO` encodes.
fn stereo() -> EsdsBox {
    EsdsBox {
        version: 0,
        flags: 0,
        es_desc: ESDescriptor {
            es_id: 1,
            dec_config: DecoderConfigDescriptor {
                object_type_indication: 0x40,
                stream_type: 5,
                up_stream: 0,
                buffer_size_db: 0,
                max_bitrate: 128000,
                avg_bitrate: 128000,
                dec_specific: specific(2, 3, None, 2),
            },
            sl_config: SLConfigDescriptor {},
        },
    }
}

/// Reads the `esds` in `bytes` starting at position 8, and counts the headers of its descriptors. Returns the kind of
/// the outcome, the count, and the position of the cursor after the call.
fn counted(bytes: &[u8], size: u64) -> (Kind, u64, u64) {
    let mut reader = ByteCursor::new(bytes);
    reader.set_position(8);
    let (result, headers) = EsdsBox::read_counted(&mut reader, size);
    (kind_of(&result), headers, reader.position())
}

/// Lengths have four bytes. The last three bits of the audio configuration are not read. A usual encoder writes five
/// bytes for it. Their last three bytes are read as a header of length 12928, and thus as a gap that ends after the
/// box.
#[test]
fn descriptors_of_long_lengths(rt: HostRuntime) -> Result<(), Fail> {
    let bytes =
        b"\0\0\0\x33esds\0\0\0\0\x03\x80\x80\x80\x22\0\x01\0\x04\x80\x80\x80\x14\x40\x15\0\0\0\
\0\x01\xf4\0\0\x01\xf4\0\x05\x80\x80\x80\x02\x11\x90\x06\x80\x80\x80\x01\x02";
    let other_bits =
        b"\0\0\0\x33esds\0\0\0\0\x03\x80\x80\x80\x22\0\x01\0\x04\x80\x80\x80\x14\x40\x15\0\0\0\
\0\x01\xf4\0\0\x01\xf4\0\x05\x80\x80\x80\x02\x11\x97\x06\x80\x80\x80\x01\x02";
    let of_five =
        b"\0\0\0\x36esds\0\0\0\0\x03\x80\x80\x80\x25\0\x01\0\x04\x80\x80\x80\x17\x40\x15\0\0\0\
\0\x01\xf4\0\0\x01\xf4\0\x05\x80\x80\x80\x05\x11\x90\x56\xe5\0\x06\x80\x80\x80\x01\x02";
    expect_value(rt.alloc(), &stereo(), bytes, 51)
        .and(expect_value(rt.alloc(), &stereo(), other_bits, 51))
        .and(expect_value(rt.alloc(), &stereo(), of_five, 54))
        .and(expect_round_trip(rt.alloc(), &stereo(), &STEREO))?;
    assert_eq!(rt; counted(bytes, 51), (Kind::Ok, 4, 51));
    assert_eq!(rt; counted(of_five, 54), (Kind::Ok, 4, 54));
    Ok(())
}

/// The bytes of an `esds` with a stream descriptor, followed by a hundred empty descriptors.
const HUNDRED: [u8; 217] =
    *b"\0\0\0\xd9esds\0\0\0\0\x03\x7f\0\x01\0\x07\0\x07\0\x07\0\x07\0\x07\0\x07\0\x07\0\x07\0\
\x07\0\x07\0\x07\0\x07\0\x07\0\x07\0\x07\0\x07\0\x07\0\x07\0\x07\0\x07\0\x07\0\x07\0\x07\0\x07\0\x07\0\x07\0\x07\0\x07\
\0\x07\0\x07\0\x07\0\x07\0\x07\0\x07\0\x07\0\x07\0\x07\0\x07\0\x07\0\x07\0\x07\0\x07\0\x07\0\x07\0\x07\0\x07\0\x07\0\
\x07\0\x07\0\x07\0\x07\0\x07\0\x07\0\x07\0\x07\0\x07\0\x07\0\x07\0\x07\0\x07\0\x07\0\x07\0\x07\0\x07\0\x07\0\x07\0\x07\
\0\x07\0\x07\0\x07\0\x07\0\x07\0\x07\0\x07\0\x07\0\x07\0\x07\0\x07\0\x07\0\x07\0\x07\0\x07\0\x07\0\x07\0\x07\0\x07\0\
\x07\0\x07\0\x07\0\x07\0\x07\0\x07\0\x07\0\x07\0\x07\0\x07\0\x07\0\x07\0\x07\0\x07\0";

/// The stream descriptor contains 62 of the hundred, and the next one ends the reading. Headers before a fault are
/// counted too.
#[test]
fn a_hundred_descriptors_and_headers_before_a_fault(rt: HostRuntime) -> Result<(), Fail> {
    let mut first = EsdsBox::default();
    first.es_desc.es_id = 1;
    expect_value(rt.alloc(), &first, &HUNDRED, 217)?;
    assert_eq!(rt; counted(&HUNDRED, 217), (Kind::Ok, 64, 217));
    let bytes = b"\0\0\0\x0eesds\0\0\0\0\x04\0";
    assert_eq!(rt; counted(bytes, 14), (Kind::Invalid, 1, 8));
    assert_eq!(rt; counted(&bytes[..13], 14), (Kind::End, 0, 8));
    Ok(())
}

/// The bytes of stream 1 with a sampling rate of 50000 hertz.
const OF_50000: [u8; 42] = *b"\0\0\0\x2aesds\0\0\0\0\x03\x1c\0\x01\0\x04\x14\x40\x15\0\0\0\
\0\x01\xf4\0\0\x01\xf4\0\x05\x05\x17\x80\x61\xa8\x10\x06\0\0";

/// Expects that the descriptors of stream 1 with this bit rate and audio configuration are written as `bytes`, and read
/// back.
fn expect_esds(
    alloc: Global,
    bitrate: u32,
    config: DecoderSpecificDescriptor,
    bytes: &[u8],
) -> Result<(), Mismatch> {
    expect_round_trip(alloc, &esds_of(1, bitrate, config), bytes)
}

#[test]
fn audio_configurations_of_each_length(rt: HostRuntime) -> Result<(), Fail> {
    let alloc = rt.alloc();
    let of_34 = b"\0\0\0\x28esds\0\0\0\0\x03\x1a\0\x01\0\x04\x12\x40\x15\0\0\0\
\0\0\0\0\0\0\0\0\x05\x03\xf8\x40\x40\x06\0\0";
    let of_3 = b"\0\0\0\x28esds\0\0\0\0\x03\x1a\0\x01\0\x04\x12\x40\x15\0\0\0\
\0\x01\xf4\0\0\x01\xf4\0\x05\x03\xff\xe1\xe0\x06\0\0";
    let of_5 = b"\0\0\0\x2aesds\0\0\0\0\x03\x1c\0\x01\0\x04\x14\x40\x15\0\0\0\
\0\x01\xf4\0\0\x01\xf4\0\x05\x05\x17\xff\xff\xff\x88\x06\0\0";
    let of_6 = b"\0\0\0\x2besds\0\0\0\0\x03\x1d\0\x01\0\x04\x15\x40\x15\0\0\0\
\0\x01\xf4\0\0\x01\xf4\0\x05\x06\xf9\x5e\x01\x86\xa0\xc0\x06\0\0";
    expect_esds(alloc, 0, specific(34, 0, None, 2), of_34)
        .and(expect_esds(alloc, 128000, specific(2, 15, Some(50000), 2), &OF_50000))
        .and(expect_kind::<EsdsBox>(alloc, &OF_50000[..37], 42, Kind::End))
        .and(expect_esds(alloc, 128000, specific(95, 0, None, 15), of_3))
        .and(expect_esds(alloc, 128000, specific(2, 15, Some(16777215), 1), of_5))
        .and(expect_esds(alloc, 128000, specific(42, 15, Some(50000), 6), of_6))?;
    Ok(())
}

/// Expects that an `esds` with this audio configuration has this size, and that neither it nor an `mp4a` with it can be
/// written.
fn expect_unwritable_config(
    alloc: Global,
    config: DecoderSpecificDescriptor,
    size: u64,
) -> Result<(), Mismatch> {
    let esds = esds_of(1, 128000, config);
    expect_unwritable_of_size(alloc, &esds, size)?;
    expect_unwritable(alloc, &mp4a_of(Some(esds)))
}

#[test]
fn unwritable_audio_configurations(rt: HostRuntime) -> Result<(), Fail> {
    for (profile, freq_index, sample_rate, chan_conf, size) in [
        (31, 3, None, 2, 39),
        (96, 3, None, 2, 40),
        (255, 3, None, 2, 40),
        (2, 15, None, 2, 42),
        (2, 3, Some(48000), 2, 39),
        (2, 15, Some(1 << 24), 2, 42),
        (34, 15, Some(1 << 24), 2, 43),
        (2, 16, None, 2, 39),
        (2, 3, None, 16, 39),
    ] {
        let config = specific(profile, freq_index, sample_rate, chan_conf);
        expect_unwritable_config(rt.alloc(), config, size)?;
    }
    Ok(())
}

/// Returns the byte to which the direction `up_stream` is written. Expects that the descriptors are read back with the
/// direction `kept`.
fn byte_of_direction(alloc: Global, up_stream: u8, kept: u8) -> Result<Option<u8>, Mismatch> {
    let mut esds = stereo();
    esds.es_desc.dec_config.up_stream = up_stream;
    let mut out = Vec::new(alloc);
    esds.write_box(&mut out)?;
    esds.es_desc.dec_config.up_stream = kept;
    expect_value(alloc, &esds, &out, 39)?;
    Ok(out.get(20).copied())
}

#[test]
fn one_bit_of_the_direction_is_kept(rt: HostRuntime) -> Result<(), Fail> {
    for (up_stream, byte, kept) in [
        (0, 0x15, 0),
        (1, 0x15, 0),
        (2, 0x17, 2),
        (3, 0x17, 2),
        (255, 0x17, 2),
    ] {
        let found = byte_of_direction(rt.alloc(), up_stream, kept)?;
        assert_eq!(rt; found, Some(byte), "{up_stream}");
    }
    Ok(())
}
