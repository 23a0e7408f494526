//! Callers of `mp4_sound`, which read descriptors with a bound on their number, and the audio configuration of a track.

ghost use Rattle.std.specs.Prelude.{◌≡◌, ◌-◌, ◌≤◌, IfOk, Ok, Some};
ghost use Rattle.mp4_frame.specs.Reading.{reading};
ghost use Rattle.mp4_sound.specs.Esds.{headers_esds, reads_esds};
ghost use Rattle.mp4_sound.specs.Stsd.{reads_stsd};
ghost use Rattle.mp4_sound.specs.declared.esds.EsdsBox.{EsdsBox};
ghost use Rattle.mp4_sound.specs.declared.mp4a.Mp4aBox.{Mp4aBox};
ghost use Rattle.mp4_sound.specs.declared.stsd.StsdBox.{StsdBox};

use mp4_frame::{ByteCursor, Error, ReadBox, Result};
use mp4_sound::{DecoderSpecificDescriptor, EsdsBox, StsdBox};
use std::alloc::Global;

/// Reads the `esds` whose header was just read. One with more than `most` descriptor headers is invalid data.
pub fn read_small_esds(reader: &mut ByteCursor, size: u64, most: u64) -> Result<EsdsBox>
    requires { 8 ≤ reader.old.position }
    ensures value { IfOk result
        (λ v. (reading reads_esds reader.old.bytes.now (reader.old.position - 8) size).outcome ≡ Ok v) }
    ensures small { IfOk result (λ _. headers_esds reader.old.bytes.now (reader.old.position - 8) size ≤ most) }
{
    let (result, headers) = EsdsBox::read_counted(reader, size);
    let esds = result?;
    if headers > most {
        return Err(Error::InvalidData("too many descriptors"));
    }
    Ok(esds)
}

/// Reads the `stsd` whose header was just read, and returns the configuration of its sound. An `stsd` without an
/// `mp4a`, or with one that has no `esds`, is invalid data.
pub fn audio_configuration(
    alloc: Global,
    reader: &mut ByteCursor,
    size: u64,
) -> Result<DecoderSpecificDescriptor>
    requires { 8 ≤ reader.old.position }
    ensures { IfOk result
        (λ d. (stsd : StsdBox) × (mp4a : Mp4aBox) × (esds : EsdsBox)
        × ((reading reads_stsd reader.old.bytes.now (reader.old.position - 8) size).outcome ≡ Ok stsd)
        × (stsd.mp4a ≡ Some mp4a) × (mp4a.esds ≡ Some esds) × (d ≡ esds.es_desc.dec_config.dec_specific)) }
{
    let stsd = StsdBox::read_box(alloc, reader, size)?;
    let Some(mp4a) = &stsd.mp4a else {
        return Err(Error::InvalidData("no sound"));
    };
    let Some(esds) = &mp4a.esds else {
        return Err(Error::InvalidData("no configuration"));
    };
    Ok(esds.es_desc.dec_config.dec_specific.clone()?)
}
