//! Configurations of decoders, handlers and data references, and the names of handlers. A function for each box makes
//! it, writes it and returns the ending.

use crate::tests::extra::{Ending, Outcome, UNFIT, WRITTEN, bytes_of, declared_ending};
use mp4_extra_pictures::avcc::{AvcConfig, AvcExtension, AvcFormat, AvcNalUnit, Avcc};
use mp4_extra_pictures::tail::AtEnd;
use mp4_extra_pictures::vpcc::{VpDraftFormat, VpFormat, Vpcc};
use mp4_extra_tracks::hdlr::Hdlr;
use mp4_extra_tracks::urn::Urn;
use mp4_stream::{Entries, FourCC};
use std::alloc::{AllocError, Global};

/// Returns the bits of an AVC configuration with this profile and this count of sequence parameter sets.
fn config(avc_profile_indication: u8, num_of_sequence_parameter_sets: u8) -> AvcConfig {
    AvcConfig {
        avc_profile_indication,
        num_of_sequence_parameter_sets,
        ..AvcConfig::default()
    }
}

/// Returns a list of one NAL unit.
fn one_unit(alloc: Global) -> Result<Entries<AvcNalUnit>, AllocError> {
    let mut units = Vec::new(alloc);
    units.push(AvcNalUnit {
        bytes: bytes_of(alloc, b"\x67\x64")?,
    })?;
    Ok(units.into())
}

/// Writes an AVC configuration with one sequence parameter set, and with `bytes` after the sets.
fn avcc(alloc: Global, config: AvcConfig, bytes: &[u8]) -> Outcome {
    let sequence_parameter_sets = one_unit(alloc)?;
    let extension = AtEnd::Other(bytes_of(alloc, bytes)?);
    Ok(declared_ending(
        alloc,
        Avcc {
            config,
            sequence_parameter_sets,
            picture_parameter_sets: Entries::new(alloc),
            extension,
        },
    ))
}

/// Writes an AVC configuration of a profile, without sets and with a format of samples.
fn avcc_with_format(alloc: Global, profile: u8, chroma_format: u8) -> Ending {
    let format = AvcFormat {
        chroma_format,
        ..AvcFormat::default()
    };
    let extension = AvcExtension {
        format,
        sequence_parameter_set_exts: Entries::new(alloc),
        rest: Entries::new(alloc),
    };
    declared_ending(
        alloc,
        Avcc {
            config: config(profile, 0),
            sequence_parameter_sets: Entries::new(alloc),
            picture_parameter_sets: Entries::new(alloc),
            extension: AtEnd::Known(extension),
        },
    )
}

/// Writes a VP configuration of a `version`, with the format of version 0, that of version 1, or both.
fn vpcc(alloc: Global, version: u8, is_draft: bool, is_final: bool) -> Ending {
    let draft_format = if is_draft {
        Some(VpDraftFormat::default())
    } else {
        None
    };
    let format = if is_final {
        Some(VpFormat::default())
    } else {
        None
    };
    declared_ending(
        alloc,
        Vpcc {
            version,
            flags: 0x81_8283,
            profile: 0x84,
            level: 0x85,
            draft_format,
            format,
            codec_initialization_data: Entries::new(alloc),
        },
    )
}

/// Returns a handler with these flags and these bytes of its name.
fn handler(alloc: Global, flags: u32, name: &[u8]) -> Result<Hdlr, AllocError> {
    let code = FourCC { value: *b"vide" };
    Ok(Hdlr {
        version: 0x81,
        flags,
        component_type: code,
        handler_type: code,
        component_manufacturer: code,
        component_flags: 0x8283_8485,
        component_flags_mask: 0x8687_8889,
        name: bytes_of(alloc, name)?,
    })
}

/// Writes a handler with these flags and these bytes of its name.
fn hdlr(alloc: Global, flags: u32, name: &[u8]) -> Outcome {
    Ok(declared_ending(alloc, handler(alloc, flags, name)?))
}

/// Returns whether `text` is the name of a handler with the bytes `name`. Returns false if memory runs out.
fn is_named(alloc: Global, name: &[u8], text: &[u8]) -> bool {
    match handler(alloc, 0, name) {
        Ok(found) => found.text() == text,
        Err(_) => false,
    }
}

/// Writes a reference by this name.
fn urn(alloc: Global, name: &[u8]) -> Outcome {
    let name = bytes_of(alloc, name)?;
    Ok(declared_ending(
        alloc,
        Urn {
            version: 0,
            flags: 1,
            name,
            location: Entries::new(alloc),
        },
    ))
}

/// Returns whether all values that do not fit are refused.
fn are_refused(alloc: Global) -> bool {
    let endings = [
        avcc(alloc, config(66, 0), b""),
        avcc(alloc, config(66, 2), b""),
        avcc(alloc, config(100, 1), b"\x81\x82\x83\x84"),
        Ok(avcc_with_format(alloc, 88, 1)),
        Ok(avcc_with_format(alloc, 100, 4)),
        Ok(vpcc(alloc, 0, false, true)),
        Ok(vpcc(alloc, 1, true, false)),
        Ok(vpcc(alloc, 1, true, true)),
        Ok(vpcc(alloc, 2, false, true)),
        hdlr(alloc, 0x100_0000, b"\0"),
        hdlr(alloc, 0, b""),
        urn(alloc, b"\x81\x00"),
    ];
    endings == [UNFIT; 12]
}

/// Returns whether the values beside them are written.
fn are_written(alloc: Global) -> bool {
    let endings = [
        avcc(alloc, config(66, 1), b"\x81\x82\x83\x84"),
        avcc(alloc, config(100, 1), b"\x81\x82\x83"),
        Ok(avcc_with_format(alloc, 100, 3)),
        Ok(vpcc(alloc, 0, true, false)),
        Ok(vpcc(alloc, 1, false, true)),
        hdlr(alloc, 0xFF_FFFF, b"\0"),
        urn(alloc, b"\x81"),
    ];
    endings == [WRITTEN; 7]
}

/// Returns whether names have neither their ends nor their counts.
fn are_named(alloc: Global) -> bool {
    let names = [
        is_named(alloc, b"", b""),
        is_named(alloc, b"\0", b""),
        is_named(alloc, b"ab\0", b"ab"),
        is_named(alloc, b"ab", b"ab"),
        is_named(alloc, b"\x02ab", b"ab"),
        is_named(alloc, b"\x02ab\0", b"ab"),
        is_named(alloc, b"\x03ab\0", b"ab"),
        is_named(alloc, b"\x01ab\0", b"\x01ab"),
        is_named(alloc, b"\x04ab\0", b"\x04ab"),
    ];
    names == [true; 9]
}

#[test]
fn names_of_handlers(rt: HostRuntime) {
    assert!(rt; are_named(rt.alloc()));
}

#[test]
fn configurations_that_do_not_fit(rt: HostRuntime) {
    let alloc = rt.alloc();
    assert!(rt; are_refused(alloc));
    assert!(rt; are_written(alloc));
}
