//! The boxes that a box has to contain, and the boxes that it may contain only once.

ghost use Rattle.std.specs.Prelude.{◌≡◌};
ghost use Rattle.mp4_check.specs.Parts.{needed, is_part, group_of, is_file};

use mp4_frame::codes::{
    CMOV, CO64, CSLG, CTTS, DINF, EDTS, ELNG, GMHD, HDLR, HMHD, IODS, MDHD, MDIA, META, MFHD, MINF,
    MOOF, MOOV, MVEX, MVHD, NMHD, PADB, RMRA, SDTP, SIDX, SMHD, STBL, STCO, STDP, STHD, STSC, STSD,
    STSH, STSS, STSZ, STTS, STZ2, TFDT, TFHD, TKHD, TRAF, TRAK, TREF, TRGR, UDTA, VMHD,
};

/// Returns the codes of the boxes that a box with the code `parent` has to contain.
pub fn needed(parent: u32) -> &'static [u32]
    ensures { result.now ≡ needed parent }
{
    match parent {
        MOOV => &[MVHD],
        TRAK => &[TKHD, MDIA],
        MDIA => &[MDHD, MINF],
        MINF => &[STBL],
        STBL => &[STSD, STTS, STSC, STSZ, STCO],
        MOOF => &[MFHD],
        TRAF => &[TFHD],
        _ => &[],
    }
}

/// Returns whether a box with the code `code` is the one that `needed` asks for, or serves instead: an `stz2` has sizes
/// like `stsz`, a `co64` has offsets like `stco`, and in QuickTime a `cmov` or an `rmra` replaces a whole movie.
pub fn is_part(needed: u32, code: u32) -> bool
    ensures { result ≡ is_part needed code }
{
    needed == code
        || match needed {
            STSZ => code == STZ2,
            STCO => code == CO64,
            MVHD => code == CMOV || code == RMRA,
            _ => false,
        }
}

/// Returns the group of `code`, if a box with the code `parent` may contain only one box of that group. A group is
/// named by its first code. Each code is a group by itself, except for the sizes of samples, the offsets of chunks, and
/// the media headers.
pub fn group_of(parent: u32, code: u32) -> Option<u32>
    ensures { result ≡ group_of parent code }
{
    match parent {
        STBL => match code {
            STSZ | STZ2 => Some(STSZ),
            STCO | CO64 => Some(STCO),
            STSD | STTS | CTTS | CSLG | STSC | STSS | STSH | PADB | STDP | SDTP => Some(code),
            _ => None,
        },
        MINF => match code {
            VMHD | SMHD | HMHD | STHD | NMHD | GMHD => Some(VMHD),
            DINF | STBL | HDLR => Some(code),
            _ => None,
        },
        MDIA => match code {
            MDHD | HDLR | ELNG | MINF => Some(code),
            _ => None,
        },
        TRAK => match code {
            TKHD | TREF | TRGR | EDTS | MDIA | META | UDTA => Some(code),
            _ => None,
        },
        MOOV => match code {
            MVHD | IODS | MVEX | META | UDTA => Some(code),
            _ => None,
        },
        MOOF => match code {
            MFHD | META | UDTA => Some(code),
            _ => None,
        },
        TRAF => match code {
            TFHD | TFDT | SDTP | META | UDTA => Some(code),
            _ => None,
        },
        _ => None,
    }
}

/// Returns whether a box with the code `code` at the top level is content of a file: a movie, a fragment, the items of
/// a `meta`, or the index of a segment.
pub fn is_file(code: u32) -> bool
    ensures { result ≡ is_file code }
{
    code == MOOV || code == MOOF || code == META || code == SIDX
}
