//! Boxes without lists.

use crate::tests::extra::{Ending, declared_ending, ending_of};
use example_boxes::shapes::{Numbers, Options, Packed, Range, RangeBox};
use mp4_declared::OfType;
use mp4_extra_pictures::colr::{Colr, Nclx};
use mp4_extra_samples::cslg::Cslg;
use mp4_extra_samples::prft::Prft;
use mp4_extra_sound::dac3::{Ac3Config, Dac3};
use mp4_extra_sound::nmhd::Nmhd;
use mp4_extra_tracks::schm::Schm;
use mp4_stream::FourCC;

/// Makes a box of numbers. The parameters may be too large for their fields.
fn numbers(medium: u32, kind: u8, level: u16) -> Numbers {
    Numbers {
        byte: 0x81,
        short: 0x8283,
        medium,
        signed_byte: -0x79,
        signed_short: -0x7777,
        signed_long: -0x7574_7373,
        packed: Packed {
            is_first: true,
            kind,
            level,
        },
    }
}

/// Makes a box with fields that depend on `flags`.
fn options(flags: u32, size: Option<u32>, kind: Option<u16>) -> Options {
    Options {
        version: 0,
        flags,
        size,
        kind,
        last: 0,
    }
}

/// Makes a range with this `mark`.
fn range(least: u16, most: u16, mark: u8) -> RangeBox {
    RangeBox::new(Range { least, most, mark })
}

/// Makes a box of version 0. The parameters may need more than 32 bits.
fn cslg(shift: i64, end: i64) -> Cslg {
    Cslg {
        version: 0,
        flags: 0x81_8283,
        composition_to_dts_shift: shift,
        least_decode_to_display_delta: -0x7776_7575,
        greatest_decode_to_display_delta: -0x7372_7171,
        composition_start_time: -0x6f6e_6d6d,
        composition_end_time: end,
    }
}

/// A code of the bit rate with six bits, for a field of five.
const DAC3: Dac3 = Dac3 {
    config: Ac3Config {
        fscod: 2,
        bsid: 9,
        bsmod: 3,
        acmod: 5,
        lfeon: true,
        bit_rate_code: 0x20,
        reserved: 0x15,
    },
};

/// Eight reserved bits, for a field of seven.
const NCLX: Nclx = Nclx {
    colour_primaries: 0x8182,
    transfer_characteristics: 0x8384,
    matrix_coefficients: 0x8586,
    full_range_flag: true,
    reserved: 0x80,
};

/// Flags of 25 bits.
const NMHD: Nmhd = Nmhd {
    version: 0,
    flags: 1 << 24,
};

/// A time of 33 bits in version 0.
const PRFT: Prft = Prft {
    version: 0,
    flags: 0x81_8283,
    reference_track_id: 0x8485_8687,
    ntp_timestamp: 0x8889_8a8b_8c8d_8e8f,
    media_time: 1 << 32,
};

/// The flag of an address without an address.
const SCHM: Schm = Schm {
    version: 0,
    flags: 0x80_8285,
    scheme_type: FourCC {
        value: *b"\x87\x88\x89\x8a",
    },
    scheme_version: 0x8b8c_8d8e,
    scheme_uri: None,
};

#[test]
fn numbers_that_do_not_fit(rt: HostRuntime) {
    let alloc = rt.alloc();
    let colr = Colr {
        colour: OfType::Own(NCLX),
    };
    let endings = [
        declared_ending(alloc, numbers(0x100_0000, 0x1f, 0x3ff)),
        declared_ending(alloc, numbers(0xff_ffff, 0x20, 0x3ff)),
        declared_ending(alloc, numbers(0xff_ffff, 0x1f, 0x400)),
        declared_ending(alloc, options(1, None, None)),
        declared_ending(alloc, options(0x80_0000, None, None)),
        declared_ending(alloc, options(2, Some(7), Some(7))),
        declared_ending(alloc, options(1, Some(7), Some(7))),
        ending_of(alloc, &range(2, 1, 0)),
        declared_ending(alloc, cslg(1 << 31, 0)),
        declared_ending(alloc, cslg(-(1 << 31) - 1, 0)),
        declared_ending(alloc, cslg(0, 1 << 32)),
        declared_ending(alloc, DAC3),
        declared_ending(alloc, colr),
        declared_ending(alloc, NMHD),
        declared_ending(alloc, PRFT),
        declared_ending(alloc, SCHM),
    ];
    assert_eq!(rt; endings, [Ending::Unfit; 16]);
    let written = [
        ending_of(alloc, &range(2, 2, 1)),
        declared_ending(alloc, cslg(-(1 << 31), (1 << 31) - 1)),
    ];
    assert_eq!(rt; written, [Ending::Written; 2]);
}
