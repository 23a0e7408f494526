//! The first sample entry of a track.

ghost use Rattle.std.specs.Prelude.{◌≡◌, Some, IfOk, IfSome};
ghost use Rattle.mp4_frame.specs.declared.codes.TheConstants as names;
ghost use Rattle.mp4_info.specs.Entries.{EntryReadings, IsEntry, IsFirst, clear, entry_in, first_of, is_encrypted};
ghost use Rattle.mp4_info.specs.Entries.{key_of, original_of, picture_if, protection_in, scheme_of, sealed, sound_if};
ghost use Rattle.mp4_movie.specs.Levels.{found_of};

use crate::codec::{DEPTH, EntryBoxes, ReadsEntries, codec_in};
use crate::found::found;
use crate::picture::{Picture, picture_in};
use crate::sound::{Sound, sound_in};
use mp4_extra_pictures::clli::ClliBox;
use mp4_extra_pictures::colr::ColrBox;
use mp4_extra_pictures::mdcv::MdcvBox;
use mp4_extra_pictures::pasp::PaspBox;
use mp4_extra_sound::dac3::Dac3Box;
use mp4_extra_sound::dec3::Dec3Box;
use mp4_extra_sound::dops::DopsBox;
use mp4_extra_tracks::frma::FrmaBox;
use mp4_extra_tracks::schm::SchmBox;
use mp4_extra_tracks::tenc::TencBox;
use mp4_frame::codes::{ENCA, ENCV};
use mp4_frame::{FourCC, ReadBox, codes};
use mp4_io::Failure;
use mp4_movie::{BoxLocation, first_in, inside};
use mp4_walk::{BoxWalk, Source, TreeBox, is_video_handler};
use std::alloc::Global;

/// The protection of an entry. A value is `None` if its box is missing or has a fault.
#[derive(Clone, Copy, Debug, PartialEq, Eq)]
pub struct Protection {
    /// The code of the entry before it was encrypted, such as `avc1`. That of the entry if it is not encrypted.
    pub original: FourCC,
    /// The scheme of the encryption, such as `cenc`.
    pub scheme: Option<FourCC>,
    /// The UUID of the default key.
    pub key: Option<[u8; 16]>,
}

/// The first sample entry of a track.
#[derive(Debug, Drop)]
pub struct Entry {
    /// Its code.
    pub code: FourCC,
    /// Its protection.
    pub protection: Protection,
    /// The codec as a string (RFC 6381). That of an encrypted entry is the one of its samples before encryption.
    pub codec: String,
    /// Its pictures, if the media have some.
    pub picture: Option<Picture>,
    /// Its sound, if the media are sound.
    pub sound: Option<Sound>,
}

/// For the prover: the readings of the declared boxes in an entry.
pub trait ReadsEntry {
    ghost readings: { EntryReadings };
}

/// The declared boxes in an entry.
#[derive(Clone, Copy, Debug)]
pub struct EntryReading;

impl ReadsEntry for EntryReading {
    ghost readings = { record {
      codec = ⟦<EntryBoxes as ReadsEntries>⟧.readings;
      frma = ⟦<FrmaBox as ReadBox>⟧.reads;
      schm = ⟦<SchmBox as ReadBox>⟧.reads;
      tenc = ⟦<TencBox as ReadBox>⟧.reads;
      pasp = ⟦<PaspBox as ReadBox>⟧.reads;
      colr = ⟦<ColrBox as ReadBox>⟧.reads;
      mdcv = ⟦<MdcvBox as ReadBox>⟧.reads;
      clli = ⟦<ClliBox as ReadBox>⟧.reads;
      dops = ⟦<DopsBox as ReadBox>⟧.reads;
      dac3 = ⟦<Dac3Box as ReadBox>⟧.reads;
      dec3 = ⟦<Dec3Box as ReadBox>⟧.reads;
    } };
}

/// Returns the first of `boxes`, and those after it, if it is a sample entry of the `stsd` around it.
fn first_of<'a>(boxes: &'a [TreeBox]) -> Option<BoxLocation<'a>>
    ensures { found_of result ≡ first_of boxes.now }
{
    if boxes.is_empty() {
        return None;
    }
    let found = boxes[0];
    if found.depth != DEPTH - 1 {
        return None;
    }
    Some(BoxLocation {
        found,
        after: &boxes[1..],
    })
}

/// Returns the first sample entry of an `stbl`, which begins with the boxes inside it.
pub fn entry_in<'a>(stbl: &'a [TreeBox]) -> Option<BoxLocation<'a>>
    ensures { found_of result ≡ entry_in stbl.now }
{
    match first_in(stbl, DEPTH - 2, codes::STSD) {
        Some(place) => first_of(place.after),
        None => None,
    }
}

/// Returns whether an entry with this code is encrypted.
pub(crate) fn is_encrypted(code: FourCC) -> bool
    ensures { result ≡ is_encrypted code }
{
    matches!(u32::from(code), ENCV | ENCA)
}

/// Returns the code in `frma`, or `code` if there is none.
fn original_of(code: FourCC, frma: &Option<FrmaBox>) -> FourCC
    ensures { result ≡ original_of code frma.now }
{
    match frma {
        Some(frma) => frma.data_format,
        None => code,
    }
}

/// Returns the scheme in `schm`.
fn scheme_of(schm: &Option<SchmBox>) -> Option<FourCC>
    ensures { result ≡ scheme_of schm.now }
{
    match schm {
        Some(schm) => Some(schm.scheme_type),
        None => None,
    }
}

/// Returns the default key in `tenc`.
fn key_of(tenc: &Option<TencBox>) -> Option<[u8; 16]>
    ensures { result ≡ key_of tenc.now }
{
    match tenc {
        Some(tenc) => Some(tenc.default_kid),
        None => None,
    }
}

/// Returns the protection of an encrypted entry with the code `code`. `sinf` begins with the boxes inside its `sinf`.
fn sealed<S: Source>(
    alloc: Global,
    walk: &mut BoxWalk<S>,
    code: FourCC,
    sinf: &[TreeBox],
) -> Result<Protection, Failure>
    ensures value { IfSome walk.old.bytes
        (λ file. IfOk result (λ r. r ≡ sealed ⟦<EntryReading as ReadsEntry>⟧.readings file code sinf.now)) }
    ensures kept { walk.new ≡ walk.old }
{
    let frma = found::<FrmaBox, S>(alloc, walk, sinf, DEPTH + 1, codes::FRMA)?;
    let schm = found::<SchmBox, S>(alloc, walk, sinf, DEPTH + 1, codes::SCHM)?;
    let schi = inside(sinf, DEPTH + 1, codes::SCHI);
    let tenc = found::<TencBox, S>(alloc, walk, schi, DEPTH + 2, codes::TENC)?;
    Ok(Protection {
        original: original_of(code, &frma),
        scheme: scheme_of(&schm),
        key: key_of(&tenc),
    })
}

/// Returns the protection of an entry with the code `code`. `entry` begins with the boxes inside it.
fn protection_in<S: Source>(
    alloc: Global,
    walk: &mut BoxWalk<S>,
    code: FourCC,
    entry: &[TreeBox],
) -> Result<Protection, Failure>
    ensures value { IfSome walk.old.bytes
        (λ file. IfOk result (λ r. r
        ≡ protection_in ⟦<EntryReading as ReadsEntry>⟧.readings file code entry.now)) }
    ensures kept { walk.new ≡ walk.old }
{
    if is_encrypted(code) {
        sealed(alloc, walk, code, inside(entry, DEPTH, codes::SINF))
    } else {
        Ok(Protection {
            original: code,
            scheme: None,
            key: None,
        })
    }
}

/// Returns the pictures of the entry at `place`, if media with this handler have some.
fn picture_if<S: Source>(
    alloc: Global,
    walk: &mut BoxWalk<S>,
    handler: u32,
    place: BoxLocation<'_>,
) -> Result<Option<Picture>, Failure>
    ensures value { IfSome walk.old.bytes
        (λ file. IfOk result (λ r. r ≡ picture_if ⟦<EntryReading as ReadsEntry>⟧.readings file handler
        (record { box = place.entry.found; after = place.entry.after.now }))) }
    ensures kept { walk.new ≡ walk.old }
{
    if is_video_handler(handler) {
        Ok(Some(picture_in(alloc, walk, place)?))
    } else {
        Ok(None)
    }
}

/// Returns the sound of the entry at `place`, which has the original code `code`, if media with this handler are sound.
fn sound_if<S: Source>(
    alloc: Global,
    walk: &mut BoxWalk<S>,
    handler: u32,
    code: FourCC,
    place: BoxLocation<'_>,
) -> Result<Option<Sound>, Failure>
    ensures value { IfSome walk.old.bytes
        (λ file. IfOk result (λ r. r ≡ sound_if ⟦<EntryReading as ReadsEntry>⟧.readings file handler code
        (record { box = place.entry.found; after = place.entry.after.now }))) }
    ensures kept { walk.new ≡ walk.old }
{
    if handler == codes::SOUN {
        Ok(Some(sound_in(alloc, walk, code, place)?))
    } else {
        Ok(None)
    }
}

/// Returns the values of the entry at `place`, which has this code, of media with this handler.
fn read_entry<S: Source>(
    alloc: Global,
    walk: &mut BoxWalk<S>,
    handler: u32,
    code: FourCC,
    place: BoxLocation<'_>,
) -> Result<Entry, Failure>
    ensures value { IfSome walk.old.bytes
        (λ file. IfOk result (IsEntry ⟦<EntryReading as ReadsEntry>⟧.readings file handler code
        (record { box = place.entry.found; after = place.entry.after.now }))) }
    ensures kept { walk.new ≡ walk.old }
{
    let protection = protection_in(alloc, walk, code, place.after)?;
    let codec = codec_in(alloc, walk, protection.original, place.after)?;
    let picture = picture_if(alloc, walk, handler, place)?;
    let sound = sound_if(alloc, walk, handler, protection.original, place)?;
    Ok(Entry {
        code,
        protection,
        codec,
        picture,
        sound,
    })
}

/// Returns the values of the first sample entry of an `stbl`, or `None` if it has none, or one without a code. `stbl`
/// begins with the boxes inside it. `handler` is that of the media.
pub fn first_entry<S: Source>(
    alloc: Global,
    walk: &mut BoxWalk<S>,
    handler: u32,
    stbl: &[TreeBox],
) -> Result<Option<Entry>, Failure>
    ensures value { IfSome walk.old.bytes
        (λ file. IfOk result (IsFirst ⟦<EntryReading as ReadsEntry>⟧.readings file handler (entry_in stbl.now))) }
    ensures kept { walk.new ≡ walk.old }
{
    let Some(place) = entry_in(stbl) else {
        return Ok(None);
    };
    let Some(code) = place.found.code else {
        return Ok(None);
    };
    Ok(Some(read_entry(alloc, walk, handler, code, place)?))
}
