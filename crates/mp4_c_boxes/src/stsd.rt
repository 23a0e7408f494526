//! The sample description box.

ghost use Rattle.std.specs.Prelude.{◌≡◌, IsTrue, IfOk, IfErr};
ghost use Rattle.mp4_frame.specs.declared.error.Error.TheVariants.{OutOfMemory};
ghost use Rattle.mp4_c_boxes.specs.Stsd.{PutsStsd, is_stsd, no_entry, stsd_of, fields_stsd, picture_stsd};
ghost use Rattle.mp4_c_boxes.specs.Stsd.{sequence_stsd};

use crate::audio::{Mp4a, mp4a_of};
use crate::avc::{Avc1, avc1_of, fit_sets};
use crate::hevc::{Hev1, hev1_of};
use crate::sets::HasSets;
use crate::status::{INVALID_DATA, status_of};
use crate::to_struct::ToStruct;
use crate::tx3g::{Tx3g, tx3g_of};
use crate::vp9::{Vp09, vp09_of};
use crate::written::{put_box, write_result};
use mp4_entries::NalUnit;
use mp4_frame::{Result, codes};
use mp4_sound::StsdBox;
use std::alloc::Global;

/// The fields of an `stsd` (ISO/IEC 14496-12, 8.5.2) and of the entry that the codec reads. The fields of the other
/// types of entries are zeros.
#[repr(C)]
#[derive(Clone, Copy, Default)]
pub struct Stsd {
    /// The entry, if its code is `avc1`.
    pub avc1: Avc1,
    /// The entry, if its code is `hev1`.
    pub hev1: Hev1,
    /// The entry, if its code is `vp09`.
    pub vp09: Vp09,
    /// The entry, if its code is `mp4a`.
    pub mp4a: Mp4a,
    /// The entry, if its code is `tx3g`.
    pub tx3g: Tx3g,
    /// The flags of the box: 24 bits.
    pub flags: u32,
    /// The code of the entry; 0 if there is none, or if it is of another type.
    pub entry: u32,
    /// The version of the box.
    pub version: u8,
}

impl Stsd {
    /// Returns the fields of a box with `version` and `flags`, and without an entry.
    fn without_entry(version: u8, flags: u32) -> Stsd
        ensures { result ≡ no_entry version flags }
    {
        Stsd {
            avc1: Avc1::none(),
            hev1: Hev1::none(),
            vp09: Vp09::none(),
            mp4a: Mp4a::none(),
            tx3g: Tx3g::none(),
            flags,
            entry: 0,
            version,
        }
    }
}

impl ToStruct<Stsd> for StsdBox {
    ghost to_struct = { fields_stsd };

    fn to_struct(&self) -> Stsd {
        let mut fields = Stsd::without_entry(self.version, self.flags);
        if let Some(entry) = &self.avc1 {
            fields.entry = codes::AVC1;
            fields.avc1 = entry.to_struct();
        } else if let Some(entry) = &self.hev1 {
            fields.entry = codes::HEV1;
            fields.hev1 = entry.to_struct();
        } else if let Some(entry) = &self.vp09 {
            fields.entry = codes::VP09;
            fields.vp09 = entry.to_struct();
        } else if let Some(entry) = &self.mp4a {
            fields.entry = codes::MP4A;
            fields.mp4a = entry.to_struct();
        } else if let Some(entry) = &self.tx3g {
            fields.entry = codes::TX3G;
            fields.tx3g = entry.to_struct();
        }
        fields
    }
}

impl HasSets<Stsd> for StsdBox {
    ghost sequence = { sequence_stsd };

    ghost picture = { picture_stsd };

    fn sequence(&self) -> &[NalUnit] {
        match &self.avc1 {
            Some(entry) => entry.sequence(),
            None => &[],
        }
    }

    fn picture(&self) -> &[NalUnit] {
        match &self.avc1 {
            Some(entry) => entry.picture(),
            None => &[],
        }
    }
}

/// Returns whether there is a box with `fields` and the parameter sets of `lengths` and `bytes`. It needs an entry of
/// one of the five types or none, and an `avc1` has to count these sets.
fn is_stsd(fields: &Stsd, lengths: &[usize], bytes: &[u8]) -> bool
    ensures { result ≡ is_stsd fields.now lengths.now bytes.now }
{
    if fields.entry == codes::AVC1 {
        return fit_sets(&fields.avc1.avcc, lengths, bytes);
    }
    fields.entry == codes::HEV1
        || fields.entry == codes::VP09
        || fields.entry == codes::MP4A
        || fields.entry == codes::TX3G
        || fields.entry == 0
}

/// Returns the box with `fields` and the parameter sets of `lengths` and `bytes`. The only error is out of memory.
fn stsd_of(alloc: Global, fields: &Stsd, lengths: &[usize], bytes: &[u8]) -> Result<StsdBox>
    requires { IsTrue (is_stsd fields.now lengths.now bytes.now) }
    ensures value { IfOk result (λ v. v ≡ stsd_of fields.now lengths.now bytes.now) }
    ensures memory { IfErr result (λ e. e ≡ OutOfMemory) }
{
    let mut stsd = StsdBox::default_in(alloc);
    stsd.version = fields.version;
    stsd.flags = fields.flags;
    if fields.entry == codes::AVC1 {
        stsd.avc1 = Some(avc1_of(alloc, &fields.avc1, lengths, bytes)?);
    } else if fields.entry == codes::HEV1 {
        stsd.hev1 = Some(hev1_of(&fields.hev1));
    } else if fields.entry == codes::VP09 {
        stsd.vp09 = Some(vp09_of(&fields.vp09));
    } else if fields.entry == codes::MP4A {
        stsd.mp4a = Some(mp4a_of(&fields.mp4a));
    } else if fields.entry == codes::TX3G {
        stsd.tx3g = Some(tx3g_of(&fields.tx3g));
    }
    Ok(stsd)
}

/// Writes the box with `fields` and the parameter sets of `lengths` and `set_bytes` to the front of `bytes`, and its
/// length to `length`. Returns the status. It is `INVALID_DATA` if the entry is of a type that the codec doesn't read,
/// or if the sets of an `avc1` are not those that its `avcC` counts.
pub fn write_stsd(
    alloc: Global,
    fields: &Stsd,
    lengths: &[usize],
    set_bytes: &[u8],
    bytes: &mut [u8],
    length: &mut usize,
) -> u32
    ensures { PutsStsd fields.now lengths.now set_bytes.now result bytes.old bytes.new length.old length.new }
{
    if !is_stsd(fields, lengths, set_bytes) {
        return INVALID_DATA;
    }
    write_result!(stsd_of(alloc, fields, lengths, set_bytes), bytes, length)
}
