//! Sets fields of a box: changes the JSON of its fields, and reads it back.

ghost use Rattle.std.specs.Prelude.{◌≡◌, IfOk, IfSome, MatchResult, OnOk, string_bytes};
ghost use Rattle.mp4_content.specs.Fields.{json_view, object_tokens};
ghost use Rattle.mp4_content.specs.Setting.{IsBoxOf, IsNoBox, IsUnset, SetsFields, SetsKnown, SetsNone};
ghost use Rattle.mp4_content.specs.Setting.{fields_text, reason_of, set_all};
ghost use Rattle.mp4_content.specs.declared.setting.SetError.TheVariants.{Failed};
ghost use Rattle.mp4_frame.specs.FourCC.{number_of};
ghost use Rattle.mp4_io.specs.declared.failure.Failure.TheVariants.{Memory};
ghost use Rattle.mp4_shown.specs.Taking.{TakesAs};
ghost use Rattle.mp4_shown_json.specs.Tokens.{Puts};

use crate::changed_json::{set_text, text_of};
use crate::content::{Content, content_of};
use crate::from_json::FromJson;
use crate::shown::Shown;
use mp4_frame::{FourCC, WriteBox};
use mp4_io::{Failure, or_read};
use mp4_show::{BoxFields, put_fields};
use mp4_shown::taken::{Error, Refusal, Result};
use mp4_shown_json::JsonSink;
use mp4_walk::{BoxWalk, Source, TreeBox};
use std::alloc::{AllocError, Global};

/// A field that is set.
#[derive(Debug, Drop)]
pub struct Setting {
    /// The field: names of fields and members, separated by points. A number in brackets after a name is that of an
    /// entry, starting at 0.
    pub field: String,
    /// The value as JSON. Another text is the value itself.
    pub value: String,
}

/// The reason why no field of a box is set.
#[derive(Debug, Drop)]
pub enum SetError {
    /// The fields of the box aren't read back from JSON.
    NoFields,
    /// The box has this fault.
    Faulty(mp4_frame::Error),
    /// The box has other bytes than those in which its fields are written, so these would change, too.
    OtherBytes,
    /// There is no such field, or the box can't have the value.
    Refused(Refusal),
    /// The box would be too large.
    TooLarge,
    /// The file could not be read, or memory was refused.
    Failed(Failure),
}

impl From<AllocError> for SetError {
    ghost from_gives = { λ _ e. e ≡ Failed Memory };

    fn from(_error: AllocError) -> SetError {
        SetError::Failed(Failure::Memory)
    }
}

impl From<Failure> for SetError {
    ghost from_gives = { λ failure e. e ≡ Failed failure };

    fn from(failure: Failure) -> SetError {
        SetError::Failed(failure)
    }
}

impl From<Error> for SetError {
    ghost from_gives = { λ error e. e ≡ reason_of error };

    fn from(error: Error) -> SetError {
        match error {
            Error::OutOfMemory => SetError::Failed(Failure::Memory),
            Error::Refused(refusal) => SetError::Refused(refusal),
        }
    }
}

/// Returns the JSON text `text` of an object with the fields of `settings` set, one after the other. The first field
/// that can't be set is refused.
fn set_all(alloc: Global, text: String, settings: &[Setting]) -> Result<String>
    ensures { TakesAs string_bytes result (set_all settings.now (string_bytes text)) }
{
    let mut text = text;
    for setting in settings {
        text = set_text(
            alloc,
            text.as_str(),
            setting.field.as_str(),
            setting.value.as_str(),
        )?;
    }
    Ok(text)
}

/// Writes the fields of `value` to `sink` as an object.
fn put_object<B: BoxFields>(value: &B, sink: &mut JsonSink) -> mp4_show::Result<()>
    ensures { OnOk result (Puts sink.old.out sink.new.out (object_tokens (B.shown json_view value.now))) }
{
    sink.out.begin_object()?;
    put_fields(value, sink)?;
    sink.out.end_object()?;
    Ok(())
}

/// Returns the JSON text of the fields of `value`.
fn fields_text<B: BoxFields>(alloc: Global, value: &B) -> std::result::Result<String, AllocError>
    ensures { IfOk result (λ text. string_bytes text ≡ fields_text (B.shown json_view value.now)) }
{
    let mut sink = JsonSink::new(alloc);
    put_object(value, &mut sink)?;
    Ok(text_of(sink.into_text()))
}

/// Returns the bytes of the box with the code `code` whose JSON is `text`. The error is `NoFields` if no type has this
/// code, `Refused` if the text isn't that of such a box, and `TooLarge` if the box can't be written.
fn bytes_of<B: FromJson + WriteBox>(
    alloc: Global,
    code: FourCC,
    text: &str,
) -> std::result::Result<Vec<u8>, SetError>
    ensures { MatchResult result
        (λ bytes. IsBoxOf (B.FromJson.taken (number_of code)) B.format text.now bytes.items)
        (IsNoBox (B.FromJson.taken (number_of code)) B.format text.now) }
{
    let Some(value) = B::read_json(alloc, u32::from(code), text)? else {
        return Err(SetError::NoFields);
    };
    let mut bytes = Vec::new(alloc);
    match value.write_box(&mut bytes) {
        Ok(_) => Ok(bytes),
        Err(mp4_frame::Error::OutOfMemory) => Err(SetError::Failed(Failure::Memory)),
        Err(_) => Err(SetError::TooLarge),
    }
}

/// Returns the bytes of the box with the code `code` whose fields are those of `value` after `settings`. Its bytes are
/// `own`. The error is `OtherBytes` if its fields are written in other bytes, `Refused` if a field can't be set, or the
/// error of `bytes_of` before or after the settings.
fn set_known<B: FromJson + WriteBox + BoxFields>(
    alloc: Global,
    code: FourCC,
    value: &B,
    own: &[u8],
    settings: &[Setting],
) -> std::result::Result<Vec<u8>, SetError>
    ensures { MatchResult result
        (λ bytes. SetsKnown (B.FromJson.taken (number_of code)) B.format (B.shown json_view value.now) own.now
        settings.now bytes.items)
        (IsUnset (B.FromJson.taken (number_of code)) B.format (B.shown json_view value.now) own.now settings.now) }
{
    let text = fields_text(alloc, value)?;
    let same = bytes_of::<B>(alloc, code, text.as_str())?;
    if same.as_slice() != own {
        return Err(SetError::OtherBytes);
    }
    let text = set_all(alloc, text, settings)?;
    bytes_of::<B>(alloc, code, text.as_str())
}

/// Returns the bytes of the box `found` after `settings`, one after the other. They are those of the box that is read
/// back from the JSON of its fields, in which the fields are set. What follows from such a field is left out of the
/// JSON: its meaning, and the bytes beside it. Nothing else of the box changes.
///
/// The error is:
/// - `NoFields` if the box has no code, isn't read whole, or isn't read back from JSON;
/// - `Faulty` if the box has a fault;
/// - `OtherBytes` if the box isn't written in its own bytes;
/// - `Refused` if a field can't be set, or the box can't have its value;
/// - `TooLarge` if the box can't be written;
/// - `Failed` if the file can't be read, or memory is refused.
pub fn set_fields<B: Shown + FromJson + WriteBox, S: Source>(
    alloc: Global,
    walk: &mut BoxWalk<S>,
    found: &TreeBox,
    settings: &[Setting],
) -> std::result::Result<Vec<u8>, SetError>
    ensures set_or_reason { IfSome walk.old.bytes (λ file. MatchResult result
        (λ bytes. SetsFields B.known B.named_reading B.shown B.FromJson.taken B.format file found.now settings.now
        bytes.items)
        (SetsNone B.known B.named_reading B.shown B.FromJson.taken B.format file found.now settings.now)) }
    ensures kept { walk.new ≡ walk.old }
{
    let Some(code) = found.code else {
        return Err(SetError::NoFields);
    };
    match content_of::<B, S>(alloc, walk, found)? {
        Content::Known(value) => {
            let own = or_read(walk.read_box(alloc, found))?;
            set_known(alloc, code, &value, &own, settings)
        }
        Content::Faulty(fault) => Err(SetError::Faulty(fault)),
        Content::Boxes | Content::Deep | Content::Unread | Content::Front(_, _) => {
            Err(SetError::NoFields)
        }
    }
}
