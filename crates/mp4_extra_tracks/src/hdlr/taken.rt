//! Takes the box back out of its JSON.

ghost use Rattle.std.specs.Prelude.{◌≡◌, option_map};
ghost use Rattle.json.specs.Value.{value_view};
ghost use Rattle.mp4_shown.specs.Runs.{seen_bytes};
ghost use Rattle.mp4_shown.specs.Object.{left};
ghost use Rattle.mp4_extra_tracks.specs.TakenHdlr.{hdlr_taken, name_in, name_in_hex, name_taken, set_code_taken};
ghost use Rattle.mp4_extra_tracks.specs.TakenHdlr.{usual_name};
ghost use Rattle.mp4_shown.specs.Taking.{TakesAs};

use super::{Hdlr, name_text};
use crate::hdlr;
use json::Value;
use mp4_declared::{Code, U8, U24, U32};
use mp4_frame::FourCC;
use mp4_shown::BytesName;
use mp4_shown::taken::{
    NO_CONTEXT, Object, Reason, Result, TakeFields, TakeShape, agrees, code_in, hex_in, refuse,
};
use std::alloc::Global;

/// Takes the code called `name` out. It is 0 if it is absent.
fn take_set_code(alloc: Global, name: &str, object: &mut Object<'_>) -> Result<FourCC>
    ensures { TakesAs (λ code. (code, left object.new)) result (set_code_taken name.now (left object.old)) }
{
    let Some(value) = object.take_out(alloc, name)? else {
        return Ok(FourCC { value: [0; 4] });
    };
    match code_in(&value) {
        Some(code) => Ok(code),
        None => Err(refuse(alloc, name, Reason::NotCode)),
    }
}

/// Returns the bytes of a name with the text `text`: in the standard a byte of 0 ends them, and in QuickTime, which has
/// types of components, they are counted.
fn usual_name(alloc: Global, name: &str, component: FourCC, text: &str) -> Result<Vec<u8>>
    ensures { TakesAs (λ bytes. bytes.items) result (usual_name name.now component text.now) }
{
    let mut bytes = Vec::new(alloc);
    if u32::from(component) == 0 {
        bytes.extend_from_slice(text.as_bytes())?;
        bytes.push(0)?;
        return Ok(bytes);
    }
    if text.len() >= 256 {
        return Err(refuse(alloc, name, Reason::WrongLength));
    }
    bytes.push(text.len() as u8)?;
    bytes.extend_from_slice(text.as_bytes())?;
    Ok(bytes)
}

/// Returns the bytes of a name: those of `hex`, from which the text follows. They are one at least.
fn name_in_hex(
    alloc: Global,
    name: BytesName,
    text: &Option<Value<'_>>,
    hex: &Value<'_>,
) -> Result<Vec<u8>>
    ensures { TakesAs (λ bytes. bytes.items) result (name_in_hex (seen_bytes name.entry)
        (option_map value_view text.now) (value_view hex.now)) }
{
    let bytes = hex_in(alloc, name.2, hex)?;
    if bytes.is_empty() {
        return Err(refuse(alloc, name.2, Reason::WrongLength));
    }
    let shown = String::from_utf8_lossy(alloc, name_text(bytes.as_slice()))?;
    if agrees(text, Some(shown.as_str())) {
        Ok(bytes)
    } else {
        Err(refuse(alloc, name.0, Reason::Contradiction))
    }
}

/// Returns the bytes of a name, by its text and by the bytes beside it.
fn name_in(
    alloc: Global,
    name: BytesName,
    component: FourCC,
    text: &Option<Value<'_>>,
    hex: &Option<Value<'_>>,
) -> Result<Vec<u8>>
    ensures { TakesAs (λ bytes. bytes.items) result (name_in (seen_bytes name.entry) component
        (option_map value_view text.now) (option_map value_view hex.now)) }
{
    if let Some(hex) = hex {
        return name_in_hex(alloc, name, text, hex);
    }
    let Some(value) = text else {
        return Err(refuse(alloc, name.0, Reason::Missing));
    };
    match value.as_str() {
        Some(text) => usual_name(alloc, name.0, component, text),
        None => Err(refuse(alloc, name.0, Reason::NotText)),
    }
}

/// Takes the name of a handler out, and the bytes beside it if they are present.
fn take_name(
    alloc: Global,
    name: BytesName,
    component: FourCC,
    object: &mut Object<'_>,
) -> Result<Vec<u8>>
    ensures { TakesAs (λ bytes. (bytes.items, left object.new)) result
        (name_taken (seen_bytes name.entry) component (left object.old)) }
{
    let text = object.take_out(alloc, name.0)?;
    let hex = object.take_out(alloc, name.2)?;
    name_in(alloc, name, component, &text, &hex)
}

impl TakeFields for Hdlr {
    ghost taken = { hdlr_taken };

    fn take(alloc: Global, object: &mut Object<'_>) -> Result<Hdlr> {
        let (version_name, (flags_name, (type_name, (handler_name, (maker_name, rest))))) =
            *hdlr::NAMES;
        let version = U8::take(alloc, &version_name, NO_CONTEXT, object)?;
        let flags = U24::take(alloc, &flags_name, NO_CONTEXT, object)?;
        let component_type = take_set_code(alloc, type_name, object)?;
        let handler_type = Code::take(alloc, &handler_name, NO_CONTEXT, object)?;
        let component_manufacturer = take_set_code(alloc, maker_name, object)?;
        let component_flags = U32::take(alloc, &rest.0, NO_CONTEXT, object)?;
        let component_flags_mask = U32::take(alloc, &rest.1.0, NO_CONTEXT, object)?;
        let name = take_name(alloc, rest.1.1, component_type, object)?.into();
        Ok(Hdlr {
            version,
            flags,
            component_type,
            handler_type,
            component_manufacturer,
            component_flags,
            component_flags_mask,
            name,
        })
    }
}
