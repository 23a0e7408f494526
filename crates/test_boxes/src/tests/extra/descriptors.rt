//! Elementary streams and their descriptors. A function makes a box, writes it and returns the ending.

use crate::tests::extra::{Outcome, UNFIT, WRITTEN, bytes_of, declared_ending};
use mp4_extra_sound::esds::{
    DecoderConfig, DecoderStream, Descriptor, EsDescriptor, EsFlags, EsOptions, Esds,
};
use mp4_stream::Entries;
use std::alloc::Global;

/// Returns the three flags, with the largest priority.
fn flags(stream_dependence_flag: bool, url_flag: bool, ocr_stream_flag: bool) -> EsFlags {
    EsFlags {
        stream_dependence_flag,
        url_flag,
        ocr_stream_flag,
        stream_priority: 31,
    }
}

/// Returns a configuration of a decoder, with a size of this number of bytes.
fn decoder(alloc: Global, size_bytes: u8, stream: DecoderStream) -> DecoderConfig {
    DecoderConfig {
        size_bytes,
        object_type_indication: 0x40,
        stream,
        max_bitrate: 0x8182_8384,
        avg_bitrate: 0x8586_8788,
        descriptors: Entries::new(alloc),
    }
}

/// Returns an elementary stream with these flags and this configuration of the decoder. It has no optional parts.
fn stream(alloc: Global, flags: EsFlags, decoder_config: DecoderConfig) -> EsDescriptor {
    EsDescriptor {
        size_bytes: 4,
        es_id: 0x8182,
        options: EsOptions {
            flags,
            depends_on_es_id: None,
            url: None,
            ocr_es_id: None,
        },
        decoder_config,
        descriptors: Entries::new(alloc),
    }
}

/// Returns an elementary stream with these flags, and a configuration of the decoder with zeros.
fn plain(alloc: Global, flags: EsFlags) -> EsDescriptor {
    stream(alloc, flags, decoder(alloc, 1, DecoderStream::default()))
}

/// Writes a box with this `version`, `flags` and elementary stream.
fn written(alloc: Global, version: u8, flags: u32, es: EsDescriptor) -> Outcome {
    let rest = Entries::new(alloc);
    Ok(declared_ending(
        alloc,
        Esds {
            version,
            flags,
            es,
            rest,
        },
    ))
}

/// Writes a box with this `version` and `of_box`, its flags.
fn esds(alloc: Global, version: u8, of_box: u32) -> Outcome {
    written(
        alloc,
        version,
        of_box,
        plain(alloc, flags(false, false, false)),
    )
}

/// Writes an elementary stream with these flags and these numbers of other streams.
fn numbers(alloc: Global, flags: EsFlags, depends_on: Option<u16>, clock: Option<u16>) -> Outcome {
    let mut es = plain(alloc, flags);
    es.options.depends_on_es_id = depends_on;
    es.options.ocr_es_id = clock;
    written(alloc, 0, 0, es)
}

/// Writes an elementary stream with these flags and this place.
fn place(alloc: Global, flags: EsFlags, url: &[u8]) -> Outcome {
    let mut es = plain(alloc, flags);
    es.options.url = Some(bytes_of(alloc, url)?);
    written(alloc, 0, 0, es)
}

/// Writes an elementary stream with a size of this number of bytes.
fn size_of_stream(alloc: Global, size_bytes: u8) -> Outcome {
    let mut es = plain(alloc, flags(false, false, false));
    es.size_bytes = size_bytes;
    written(alloc, 0, 0, es)
}

/// Writes the configuration of a decoder, with a size of this number of bytes.
fn size_of_decoder(alloc: Global, size_bytes: u8, stream_type: u8, buffer_size_db: u32) -> Outcome {
    let of_decoder = DecoderStream {
        stream_type,
        up_stream: true,
        reserved: true,
        buffer_size_db,
    };
    let config = decoder(alloc, size_bytes, of_decoder);
    written(
        alloc,
        0,
        0,
        stream(alloc, flags(false, false, false), config),
    )
}

/// Writes an elementary stream with a descriptor that has this `content`, and a size of this number of bytes.
fn descriptor(alloc: Global, size_bytes: u8, content: &[u8]) -> Outcome {
    let mut descriptors = Vec::new(alloc);
    descriptors.push(Descriptor {
        tag: 0x81,
        size_bytes,
        content: bytes_of(alloc, content)?,
    })?;
    let mut es = plain(alloc, flags(false, false, false));
    es.descriptors = descriptors.into();
    written(alloc, 0, 0, es)
}

/// Returns whether all sizes that do not fit are refused.
fn are_sizes_refused(alloc: Global) -> bool {
    let endings = [
        size_of_stream(alloc, 0),
        size_of_stream(alloc, 5),
        size_of_decoder(alloc, 0, 63, 0xff_ffff),
        size_of_decoder(alloc, 5, 63, 0xff_ffff),
        descriptor(alloc, 0, b""),
        descriptor(alloc, 5, b""),
        descriptor(alloc, 1, &[0x81; 128]),
    ];
    endings == [UNFIT; 7]
}

/// Returns whether all numbers and parts that do not fit are refused.
fn are_parts_refused(alloc: Global) -> bool {
    let endings = [
        esds(alloc, 1, 0),
        esds(alloc, 0, 0x100_0000),
        size_of_decoder(alloc, 1, 64, 0xff_ffff),
        size_of_decoder(alloc, 1, 63, 0x100_0000),
        numbers(alloc, flags(true, false, false), None, None),
        numbers(alloc, flags(false, false, false), Some(0x81), None),
        numbers(alloc, flags(false, false, true), None, None),
        numbers(alloc, flags(false, false, false), None, Some(0x81)),
        numbers(alloc, flags(false, false, true), Some(0x81), None),
        numbers(alloc, flags(false, true, false), None, None),
        place(alloc, flags(false, false, false), b"\x81"),
        place(alloc, flags(false, true, false), &[0x81; 256]),
    ];
    endings == [UNFIT; 12]
}

/// Returns whether the values beside them are written.
fn are_written(alloc: Global) -> bool {
    let endings = [
        esds(alloc, 0, 0xff_ffff),
        size_of_stream(alloc, 1),
        size_of_decoder(alloc, 4, 63, 0xff_ffff),
        descriptor(alloc, 1, &[0x81; 127]),
        descriptor(alloc, 2, &[0x81; 128]),
        descriptor(alloc, 4, b""),
        numbers(alloc, flags(true, false, false), Some(0x81), None),
        numbers(alloc, flags(false, false, true), None, Some(0x81)),
        place(alloc, flags(false, true, false), b""),
        place(alloc, flags(false, true, false), &[0x81; 255]),
    ];
    endings == [WRITTEN; 10]
}

#[test]
fn descriptors_that_do_not_fit(rt: HostRuntime) {
    let alloc = rt.alloc();
    assert!(rt; are_sizes_refused(alloc));
    assert!(rt; are_parts_refused(alloc));
    assert!(rt; are_written(alloc));
}
