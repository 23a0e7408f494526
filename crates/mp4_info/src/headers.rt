//! The headers of a track.

ghost use Rattle.std.specs.Prelude.{◌≡◌, IfOk, IfSome};
ghost use Rattle.mp4_info.specs.Headers.{HeaderReadings, edits_in, headers_in, id_of, language, letters_of, media_in};
ghost use Rattle.mp4_info.specs.Headers.{timescale_of, turn};

use crate::found::found;
use crate::languages::{language_of, letters_or_und};
use crate::rotation::rotation_of;
use mp4_extra_tracks::elng::ElngBox;
use mp4_extra_tracks::tref::TrefBox;
use mp4_flat::{MdhdBox, TkhdBox};
use mp4_frame::{ReadBox, codes};
use mp4_io::Failure;
use mp4_movie::inside;
use mp4_tables::ElstBox;
use mp4_text::HdlrBox;
use mp4_walk::{BoxWalk, Source, TreeBox};
use std::alloc::Global;

/// The headers of a track. A value is `None` if its box is missing or has a fault.
#[derive(Debug, Drop)]
pub struct Headers {
    /// The header of the track, `tkhd`.
    pub track: Option<TkhdBox>,
    /// The header of its media, `mdhd`.
    pub media: Option<MdhdBox>,
    /// The handler of its media, `hdlr`.
    pub handler: Option<HdlrBox>,
    /// The extended language of its media, `elng`.
    pub language: Option<ElngBox>,
    /// Its edits, `elst`.
    pub edits: Option<ElstBox>,
    /// Its references to other tracks, `tref`.
    pub references: Option<TrefBox>,
}

/// For the prover: the readings of the declared boxes among the headers.
pub trait ReadsHeaders {
    ghost readings: { HeaderReadings };
}

/// The declared boxes among the headers.
#[derive(Clone, Copy, Debug)]
pub struct HeaderBoxes;

impl ReadsHeaders for HeaderBoxes {
    ghost readings = { record {
      elng = ⟦<ElngBox as ReadBox>⟧.reads;
      tref = ⟦<TrefBox as ReadBox>⟧.reads;
    } };
}

/// Returns the boxes inside the `mdia` of a track. `trak` begins with the boxes inside its `trak`.
pub fn media_in(trak: &[TreeBox]) -> &[TreeBox]
    ensures { result.now ≡ media_in trak.now }
{
    inside(trak, 2, codes::MDIA)
}

/// Returns the boxes inside the `edts` of a track. `trak` begins with the boxes inside its `trak`.
fn edits_in(trak: &[TreeBox]) -> &[TreeBox]
    ensures { result.now ≡ edits_in trak.now }
{
    inside(trak, 2, codes::EDTS)
}

/// Returns the headers of a track. `trak` begins with the boxes inside its `trak`.
pub fn headers_in<S: Source>(
    alloc: Global,
    walk: &mut BoxWalk<S>,
    trak: &[TreeBox],
) -> Result<Headers, Failure>
    ensures value { IfSome walk.old.bytes
        (λ file. IfOk result (λ r. r ≡ headers_in ⟦<HeaderBoxes as ReadsHeaders>⟧.readings file trak.now)) }
    ensures kept { walk.new ≡ walk.old }
{
    let mdia = media_in(trak);
    Ok(Headers {
        track: found::<TkhdBox, S>(alloc, walk, trak, 2, codes::TKHD)?,
        media: found::<MdhdBox, S>(alloc, walk, mdia, 3, codes::MDHD)?,
        handler: found::<HdlrBox, S>(alloc, walk, mdia, 3, codes::HDLR)?,
        language: found::<ElngBox, S>(alloc, walk, mdia, 3, codes::ELNG)?,
        edits: found::<ElstBox, S>(alloc, walk, edits_in(trak), 3, codes::ELST)?,
        references: found::<TrefBox, S>(alloc, walk, trak, 2, codes::TREF)?,
    })
}

/// Returns the track_ID in a header, or 0 without one.
pub fn id_of(header: &Option<TkhdBox>) -> u32
    ensures { result ≡ id_of header.now }
{
    match header {
        Some(header) => header.track_id,
        None => 0,
    }
}

/// Returns the timescale in a media header, or 0 without one.
pub fn timescale_of(media: &Option<MdhdBox>) -> u32
    ensures { result ≡ timescale_of media.now }
{
    match media {
        Some(media) => media.timescale,
        None => 0,
    }
}

/// Returns the degrees by which the header of a track turns its pictures clockwise, if it is a turn by a multiple of 90
/// degrees.
pub fn turn(header: &Option<TkhdBox>) -> Option<u16>
    ensures { result ≡ turn header.now }
{
    match header {
        Some(header) => rotation_of(&header.matrix),
        None => None,
    }
}

/// Returns the letters of the language in a media header, or nothing without one.
fn letters_of(media: &Option<MdhdBox>) -> &[u8]
    ensures { result.now ≡ letters_of media.now }
{
    match media {
        Some(media) => letters_or_und(media.language.as_bytes()),
        None => &[],
    }
}

/// Returns the language of a track: the tag of its extended language, unless it is missing or empty, and otherwise the
/// letters of its media header. It is empty if it is not known.
pub fn language(headers: &Headers) -> &[u8]
    ensures { result.now ≡ language headers.now }
{
    language_of(&headers.language, letters_of(&headers.media))
}
