//! Boxes of strings, data and references.

ghost use Rattle.mp4_declared.specs.OwnBox.{no_context};
ghost use Rattle.mp4_show.specs.declared.taken.text.TheConstants.{DINF, DREF, EMSG, FTYP, HDLR, URL};
ghost use Rattle.mp4_show.specs.TakenText.{make_dinf, make_dref, make_emsg, make_ftyp, make_hdlr, make_url};
ghost use Rattle.mp4_shown.specs.TakenShapes.{made_of};

use crate::taken::shapes::{FieldsOf, LossyText, Optional};
use crate::taken::small::{BelowVersion, EndedText};
use crate::taken::take_box::TakeBox;
use mp4_declared::{Code, Codes, FromVersion, Full, If, Last, Rest, U32, U64};
use mp4_shown::taken::{NO_CONTEXT, Object, Result, TakeShape};
use mp4_shown::{FLAGS, Group, VERSION, names_of, number, run};
use mp4_text::{DinfBox, DrefBox, EmsgBox, FtypBox, HdlrBox, UrlBox};
use std::alloc::Global;

/// The parts of a file type.
type FtypTaken = (Code, U32, Last<Codes>);

/// The names of its fields.
const FTYP: &<FtypTaken as TakeShape>::Names = &names_of!(
    "major_brand",
    number!("minor_version"),
    "compatible_brands"
);

impl TakeBox for FtypBox {
    ghost taken = { made_of make_ftyp (⟦<FtypTaken as TakeShape>⟧.taken FTYP.now no_context) };

    fn take(alloc: Global, object: &mut Object<'_>) -> Result<FtypBox> {
        let (major_brand, (minor_version, (compatible_brands, ()))) = FtypTaken::take(
            alloc, FTYP, NO_CONTEXT, object,
        )?;
        Ok(FtypBox {
            major_brand,
            minor_version,
            compatible_brands,
        })
    }
}

/// The parts of a handler.
type HdlrTaken = Full<256, (Code, Last<LossyText>)>;

/// The names of its fields.
const HDLR: &<HdlrTaken as TakeShape>::Names = &names_of!(VERSION, FLAGS, "handler_type", "name");

impl TakeBox for HdlrBox {
    ghost taken = { made_of make_hdlr (⟦<HdlrTaken as TakeShape>⟧.taken HDLR.now no_context) };

    fn take(alloc: Global, object: &mut Object<'_>) -> Result<HdlrBox> {
        let (version, (flags, rest)) = HdlrTaken::take(alloc, HDLR, NO_CONTEXT, object)?;
        let (handler_type, (name, ())) = rest;
        Ok(HdlrBox {
            version,
            flags,
            handler_type,
            name,
        })
    }
}

/// The parts of a reference by a location.
type UrlTaken = Full<256, Last<LossyText>>;

/// The names of its fields.
const URL: &<UrlTaken as TakeShape>::Names = &names_of!(VERSION, FLAGS, "location");

impl TakeBox for UrlBox {
    ghost taken = { made_of make_url (⟦<UrlTaken as TakeShape>⟧.taken URL.now no_context) };

    fn take(alloc: Global, object: &mut Object<'_>) -> Result<UrlBox> {
        let (version, (flags, rest)) = UrlTaken::take(alloc, URL, NO_CONTEXT, object)?;
        let (location, ()) = rest;
        Ok(UrlBox {
            version,
            flags,
            location,
        })
    }
}

/// The parts of data references.
type DrefTaken = Full<256, Last<Optional<Group<FieldsOf<UrlBox>>>>>;

/// The names of its fields.
const DREF: &<DrefTaken as TakeShape>::Names = &names_of!(VERSION, FLAGS, ("url ", ()));

impl TakeBox for DrefBox {
    ghost taken = { made_of make_dref (⟦<DrefTaken as TakeShape>⟧.taken DREF.now no_context) };

    fn take(alloc: Global, object: &mut Object<'_>) -> Result<DrefBox> {
        let (version, (flags, rest)) = DrefTaken::take(alloc, DREF, NO_CONTEXT, object)?;
        let (url, ()) = rest;
        Ok(DrefBox {
            version,
            flags,
            url,
        })
    }
}

/// The parts of an event. The version says which of the two times it has.
type EmsgTaken = Full<
    2,
    (
        EndedText,
        EndedText,
        U32,
        If<FromVersion<1>, U64>,
        (If<BelowVersion<1>, U32>, U32, U32, Last<Rest>),
    ),
>;

/// The names of its fields.
const EMSG: &<EmsgTaken as TakeShape>::Names = &names_of!(
    VERSION,
    FLAGS,
    "scheme_id_uri",
    "value",
    number!("timescale"),
    number!("presentation_time"),
    number!("presentation_time_delta"),
    number!("event_duration"),
    number!("id"),
    run!("message_data", Bytes)
);

impl TakeBox for EmsgBox {
    ghost taken = { made_of make_emsg (⟦<EmsgTaken as TakeShape>⟧.taken EMSG.now no_context) };

    fn take(alloc: Global, object: &mut Object<'_>) -> Result<EmsgBox> {
        let (version, (flags, rest)) = EmsgTaken::take(alloc, EMSG, NO_CONTEXT, object)?;
        let (scheme_id_uri, (value, (timescale, (presentation_time, rest)))) = rest;
        let (presentation_time_delta, (event_duration, (id, (message_data, ())))) = rest;
        Ok(EmsgBox {
            version,
            flags,
            scheme_id_uri,
            value,
            timescale,
            presentation_time,
            presentation_time_delta,
            event_duration,
            id,
            message_data,
        })
    }
}
/// The part of the place of media data.
type DinfTaken = Group<FieldsOf<DrefBox>>;

/// The names of its fields.
const DINF: &<DinfTaken as TakeShape>::Names = &("dref", ());

impl TakeBox for DinfBox {
    ghost taken = { made_of make_dinf (⟦<DinfTaken as TakeShape>⟧.taken DINF.now no_context) };

    fn take(alloc: Global, object: &mut Object<'_>) -> Result<DinfBox> {
        Ok(DinfBox::new(DinfTaken::take(alloc, DINF, NO_CONTEXT, object)?))
    }
}
