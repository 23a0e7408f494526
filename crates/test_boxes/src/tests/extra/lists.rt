//! Boxes with lists. A function for each box makes it, writes it and returns the ending.

use crate::tests::extra::{Outcome, UNFIT, WRITTEN, bytes_of, declared_ending};
use example_boxes::shapes::{Group, Line, Lines, Moment, Nested, Packed, Runs, Strings};
use mp4_declared::OfType;
use mp4_extra_pictures::av1c::{Av1Config, Av1c};
use mp4_extra_pictures::colr::{Colr, NCLX};
use mp4_extra_samples::sbgp::{Sbgp, SbgpEntry};
use mp4_extra_samples::sdtp::{Sdtp, SdtpEntry};
use mp4_extra_samples::sidx::{Sidx, SidxEntry};
use mp4_extra_tracks::pssh::Pssh;
use mp4_extra_tracks::schm::Schm;
use mp4_extra_tracks::tenc::{Tenc, TencPattern};
use mp4_stream::{Entries, FourCC};
use std::alloc::{AllocError, Global};

/// Writes a profile of four bits to a field of three.
fn av1c(alloc: Global) -> Outcome {
    let config = Av1Config {
        seq_profile: 8,
        ..Av1Config::default()
    };
    let config_obus = bytes_of(alloc, b"\x81\x82\x83")?;
    Ok(declared_ending(
        alloc,
        Av1c {
            config,
            config_obus,
        },
    ))
}

/// Writes the type `nclx` without its numbers.
fn colr(alloc: Global) -> Outcome {
    let colour = OfType::Other(NCLX, bytes_of(alloc, b"\x81\x82\x83")?);
    Ok(declared_ending(alloc, Colr { colour }))
}

/// Writes a number of three bits to a field of two.
fn sdtp(alloc: Global) -> Outcome {
    let sample = SdtpEntry {
        sample_depends_on: 4,
        ..SdtpEntry::default()
    };
    let entries = Vec::from_slice(alloc, &[sample])?.into();
    Ok(declared_ending(
        alloc,
        Sdtp {
            version: 0,
            flags: 0x81_8283,
            entries,
        },
    ))
}

/// Writes a box with this `version` and `grouping_type_parameter`.
fn sbgp(alloc: Global, version: u8, grouping_type_parameter: Option<u32>) -> Outcome {
    let entries = Vec::from_slice(alloc, &[SbgpEntry::default()])?.into();
    Ok(declared_ending(
        alloc,
        Sbgp {
            version,
            flags: 0x81_8283,
            grouping_type: FourCC {
                value: *b"\x84\x85\x86\x87",
            },
            grouping_type_parameter,
            entries,
        },
    ))
}

/// Writes an address without its flag.
fn schm(alloc: Global) -> Outcome {
    let scheme_uri = Some(bytes_of(alloc, b"uv\0")?);
    Ok(declared_ending(
        alloc,
        Schm {
            version: 0,
            flags: 0x80_8286,
            scheme_type: FourCC {
                value: *b"\x87\x88\x89\x8a",
            },
            scheme_version: 0x8b8c_8d8e,
            scheme_uri,
        },
    ))
}

/// Writes a box with this `version` and these `key_ids`.
fn pssh(alloc: Global, version: u8, key_ids: Option<Entries<[u8; 16]>>) -> Outcome {
    let system_data = bytes_of(alloc, b"\xc4")?;
    Ok(declared_ending(
        alloc,
        Pssh {
            version,
            flags: 0x81_8283,
            system_id: *b"\x84\x85\x86\x87\x88\x89\x8a\x8b\x8c\x8d\x8e\x8f\x90\x91\x92\x93",
            key_ids,
            system_data,
        },
    ))
}

/// Writes a key in version 0.
fn pssh_with_a_key(alloc: Global) -> Outcome {
    let key_ids = Vec::from_slice(alloc, &[[0x94; 16]])?.into();
    pssh(alloc, 0, Some(key_ids))
}

/// Writes a box with this `version` and `default_pattern`.
fn tenc(alloc: Global, version: u8, default_pattern: Option<TencPattern>) -> Outcome {
    let default_constant_iv = bytes_of(alloc, b"")?;
    Ok(declared_ending(
        alloc,
        Tenc {
            version,
            flags: 0x81_8283,
            default_pattern,
            default_is_protected: 0x85,
            default_per_sample_iv_size: 0x86,
            default_kid: *b"\x87\x88\x89\x8a\x8b\x8c\x8d\x8e\x8f\x90\x91\x92\x93\x94\x95\x96",
            default_constant_iv,
        },
    ))
}

/// A pattern of eight blocks and four.
const PATTERN: TencPattern = TencPattern {
    default_crypt_byte_block: 8,
    default_skip_byte_block: 4,
};

/// Writes a `name` of this length and this number of `entries`.
fn runs(alloc: Global, name: usize, entries: usize) -> Outcome {
    let packed = Packed {
        is_first: true,
        kind: 3,
        level: 0x28f,
    };
    let name = vec![in alloc; 0x81; name]?.into();
    let entries = vec![in alloc; packed; entries]?.into();
    Ok(declared_ending(
        alloc,
        Runs {
            name,
            colors: Entries::new(alloc),
            entries,
            rest: Entries::new(alloc),
        },
    ))
}

/// Writes these strings.
fn strings(alloc: Global, scheme: &[u8], name: &[u8], value: &[u8]) -> Outcome {
    let scheme = bytes_of(alloc, scheme)?;
    let name = bytes_of(alloc, name)?;
    let value = bytes_of(alloc, value)?;
    Ok(declared_ending(
        alloc,
        Strings {
            scheme,
            name,
            value,
        },
    ))
}

/// Returns `count` copies of a moment.
fn moments(
    alloc: Global,
    kind: u8,
    time: u64,
    count: usize,
) -> Result<Entries<Moment>, AllocError> {
    let mut moments = Vec::new(alloc);
    for _ in 0..count {
        moments.push(Moment { kind, time })?;
    }
    Ok(moments.into())
}

/// Writes a box with this `version`, these `flags` and one group. The group has a `name` of this length and `count`
/// copies of a moment at this `time`.
fn nested(
    alloc: Global,
    (version, flags): (u8, u32),
    name: usize,
    time: u64,
    count: usize,
) -> Outcome {
    let name = vec![in alloc; 0x84; name]?.into();
    let moments = moments(alloc, 0x85, time, count)?;
    let mut groups = Vec::new(alloc);
    groups.push(Group { name, moments })?;
    Ok(declared_ending(
        alloc,
        Nested {
            version,
            flags,
            groups: groups.into(),
            last: 0x8a,
        },
    ))
}

/// Writes two lines. The second has this `text` and `count` copies of a moment at this `time`.
fn lines(alloc: Global, text: &[u8], time: u64, count: usize) -> Outcome {
    let mut lines = Vec::new(alloc);
    lines.push(Line {
        moments: Entries::new(alloc),
        text: bytes_of(alloc, b"\x84")?,
        number: 0x8586,
    })?;
    lines.push(Line {
        moments: moments(alloc, 0x87, time, count)?,
        text: bytes_of(alloc, text)?,
        number: 0x8c8d,
    })?;
    Ok(declared_ending(
        alloc,
        Lines {
            version: 0,
            flags: 0x81_8283,
            lines: lines.into(),
        },
    ))
}

/// Writes an index with these fields and `count` copies of `reference`.
fn sidx(
    alloc: Global,
    (version, flags, time, first_offset): (u8, u32, u64, u64),
    count: usize,
    reference: SidxEntry,
) -> Outcome {
    let entries = vec![in alloc; reference; count]?.into();
    Ok(declared_ending(
        alloc,
        Sidx {
            version,
            flags,
            reference_id: 0x8485_8687,
            timescale: 0x8889_8a8b,
            earliest_presentation_time: time,
            first_offset,
            entries,
        },
    ))
}

/// References, each with a number that is too large.
const WIDE: [SidxEntry; 3] = [
    SidxEntry {
        reference_type: false,
        referenced_size: 1 << 31,
        subsegment_duration: 0,
        starts_with_sap: false,
        sap_type: 0,
        sap_delta_time: 0,
    },
    SidxEntry {
        reference_type: false,
        referenced_size: 0,
        subsegment_duration: 0,
        starts_with_sap: false,
        sap_type: 8,
        sap_delta_time: 0,
    },
    SidxEntry {
        reference_type: false,
        referenced_size: 0,
        subsegment_duration: 0,
        starts_with_sap: false,
        sap_type: 0,
        sap_delta_time: 1 << 28,
    },
];

/// Returns whether boxes are refused with parts that do not fit their fields, versions or flags.
fn boxes_of_parts(alloc: Global) -> bool {
    let endings = [
        av1c(alloc),
        colr(alloc),
        sdtp(alloc),
        sbgp(alloc, 0, Some(0x8889_8a8b)),
        sbgp(alloc, 1, None),
        schm(alloc),
        pssh_with_a_key(alloc),
        pssh(alloc, 1, None),
        tenc(alloc, 0, Some(PATTERN)),
        tenc(alloc, 1, None),
        strings(alloc, b"\x81", b"\0\0\0\0", b"\xff"),
        strings(alloc, b"\0\x81", b"", b""),
        strings(alloc, b"", b"", b"\x81\0"),
        runs(alloc, 256, 255),
        runs(alloc, 255, 256),
    ];
    endings == [UNFIT; 15]
}

/// Returns whether boxes are refused with entries of different lengths that do not fit.
fn boxes_of_entries(alloc: Global) -> bool {
    let endings = [
        nested(alloc, (2, 0), 0, 0, 0),
        nested(alloc, (0, 1 << 24), 0, 0, 0),
        nested(alloc, (0, 0), 256, 0, 0),
        nested(alloc, (0, 0), 255, 1 << 32, 1),
        nested(alloc, (1, 0), 0, 0, 65536),
        lines(alloc, b"\x88\0", 0, 0),
        lines(alloc, b"", 1 << 32, 1),
        lines(alloc, b"", 0, 256),
    ];
    endings == [UNFIT; 8]
}

/// Returns whether the largest such boxes that fit are written.
fn largest_boxes(alloc: Global) -> bool {
    let endings = [
        nested(alloc, (0, 0xff_ffff), 255, (1 << 32) - 1, 1),
        nested(alloc, (1, 0), 0, 1 << 32, 1),
        lines(alloc, b"", (1 << 32) - 1, 255),
    ];
    endings == [WRITTEN; 3]
}

/// Returns whether segment indexes are refused that do not fit.
fn indexes(alloc: Global) -> bool {
    let endings = [
        sidx(alloc, (0, 0, 0, 0), 1, WIDE[0]),
        sidx(alloc, (0, 0, 0, 0), 1, WIDE[1]),
        sidx(alloc, (0, 0, 0, 0), 1, WIDE[2]),
        sidx(alloc, (0, 0, 0, 0), 65536, SidxEntry::default()),
        sidx(alloc, (2, 0, 0, 0), 0, SidxEntry::default()),
        sidx(alloc, (0, 1 << 24, 0, 0), 0, SidxEntry::default()),
        sidx(alloc, (0, 0, 1 << 32, 0), 0, SidxEntry::default()),
        sidx(alloc, (0, 0, 0, 1 << 32), 0, SidxEntry::default()),
        sidx(alloc, (0, 0, 1 << 32, 1 << 32), 0, SidxEntry::default()),
    ];
    endings == [UNFIT; 9]
}

#[test]
fn lists_that_do_not_fit(rt: HostRuntime) {
    let alloc = rt.alloc();
    assert!(rt; boxes_of_parts(alloc));
    assert!(rt; boxes_of_entries(alloc));
    assert!(rt; indexes(alloc));
    assert!(rt; largest_boxes(alloc));
}
