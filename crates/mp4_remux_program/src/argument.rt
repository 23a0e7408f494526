//! The values of options: the changes that those of `edit` ask for, and the seconds of `fragment` and `cut`.

use crate::seconds::{nanoseconds_in, time_in};
use mp4_content::Setting;
use mp4_frame::FourCC;
use mp4_remux::edits::{Parent, packed_language};
use mp4_walk::BoxPath;
use std::alloc::{AllocError, Global};

/// A change that an option asks for. Names of files are not read yet.
#[derive(Debug, Drop)]
pub enum Argument {
    /// Removes the box at a path.
    Remove(BoxPath),
    /// Inserts the boxes of a file before a child, or after the last one.
    Insert(Parent, Option<u64>, String),
    /// Replaces the box at a path by that of a file.
    Replace(BoxPath, String),
    /// Sets brands.
    Brands(Vec<FourCC>),
    /// Sets the language of a track.
    Language(u32, u16),
    /// Turns the pictures of a track.
    Rotate(u32, u32),
    /// Enables or disables a track.
    Enable(u32, bool),
    /// Removes the tags.
    NoTags,
    /// Sets the title.
    Title(String),
    /// Sets a tag to a text.
    Tag(FourCC, String),
    /// Sets the cover to the picture of a file.
    Cover(String),
    /// Drops a track.
    DropTrack(u32),
}

/// A field of a box that `--set` names, with its new value.
#[derive(Debug, Drop)]
pub struct FieldArgument {
    /// The path of the box.
    pub path: BoxPath,
    /// The text of this path, for messages.
    pub text: String,
    /// The field and its value.
    pub setting: Setting,
}

/// A fault of the value of an option.
#[derive(Debug, Drop)]
pub enum ArgumentError {
    /// The value has another form. The text says which one it should have.
    Form(&'static str),
    /// Memory was refused.
    Memory,
}

impl From<AllocError> for ArgumentError {
    fn from(_error: AllocError) -> ArgumentError {
        ArgumentError::Memory
    }
}

/// The form of the value of `--remove`.
const PATH: &str = "expected a path such as moov/udta or moov/trak[1]/edts";
/// The form of the value of `--insert`.
const INSERTION: &str =
    "expected PATH=FILE or PATH:N=FILE, such as moov/udta=name.box or /:1=free.box";
/// The form of the value of `--replace`.
const REPLACEMENT: &str = "expected PATH=FILE, such as moov/udta=udta.box";
/// The form of the value of `--set`.
const SETTING: &str =
    "expected PATH.FIELD=VALUE, such as moov/mvhd.rate=2 or moov/trak[1]/tkhd.matrix.a=-1";
/// The form of the value of `--brand`.
const BRANDS: &str = "expected codes of four characters, separated by commas, such as isom,iso6";
/// The form of the value of `--language`.
const LANGUAGE: &str = "expected TRACK=LANGUAGE with three lower-case letters, such as 1=eng";
/// The form of the value of `--rotate`.
const ROTATION: &str = "expected TRACK=DEGREES with 0, 90, 180 or 270, such as 1=90";
/// The form of the value of `--enable`, `--disable` and `--drop-track`.
const TRACK: &str = "expected a track_ID, such as 1";
/// The form of the value of `--tag`.
const TAG: &str = "expected KEY=VALUE with a key of four characters, such as \u{a9}alb=Blue";

/// The form of the value of `--duration`.
const DURATION: &str =
    "expected a number of seconds above 0, with at most nine digits after the point, such as 2.5";

/// The form of the value of `--from` and `--to`.
const TIME: &str =
    "expected a number of seconds, with at most nine digits after the point, such as 2.5";

/// Returns what is before the first `=` of `text`, and what is after it.
fn halves<'a>(text: &'a str, form: &'static str) -> Result<(&'a str, &'a str), ArgumentError> {
    match text.split_once('=') {
        Some(parts) => Ok(parts),
        None => Err(ArgumentError::Form(form)),
    }
}

/// Returns the path that `text` is.
fn path(alloc: Global, text: &str, form: &'static str) -> Result<BoxPath, ArgumentError> {
    match BoxPath::parse(alloc, text) {
        Ok(path) => Ok(path),
        Err(mp4_walk::PathError::Memory) => Err(ArgumentError::Memory),
        Err(_) => Err(ArgumentError::Form(form)),
    }
}

/// Returns the level that `text` means: `/` is the file.
fn parent(alloc: Global, text: &str) -> Result<Parent, ArgumentError> {
    if text == "/" {
        return Ok(Parent::File);
    }
    Ok(Parent::In(path(alloc, text, INSERTION)?))
}

/// Returns the level and the number of a child that `text` means, such as `moov:2`.
fn place(alloc: Global, text: &str) -> Result<(Parent, Option<u64>), ArgumentError> {
    if let Some((before, after)) = text.rsplit_once(':') {
        if let Ok(number) = after.parse::<u64>() {
            return Ok((parent(alloc, before)?, Some(number)));
        }
    }
    Ok((parent(alloc, text)?, None))
}

/// Returns the code that `text` is: four characters up to U+00FF, of one byte each.
fn code(text: &str, form: &'static str) -> Result<FourCC, ArgumentError> {
    let mut value = [0; 4];
    let mut rest = text.chars();
    for byte in value.iter_mut() {
        match rest.next() {
            Some(c) => match u8::try_from(u32::from(c)) {
                Ok(code) => *byte = code,
                Err(_) => return Err(ArgumentError::Form(form)),
            },
            None => return Err(ArgumentError::Form(form)),
        }
    }
    if rest.next().is_some() {
        return Err(ArgumentError::Form(form));
    }
    Ok(FourCC { value })
}

/// Returns the track_ID that `text` is.
fn track(text: &str, form: &'static str) -> Result<u32, ArgumentError> {
    match text.parse::<u32>() {
        Ok(id) => Ok(id),
        Err(_) => Err(ArgumentError::Form(form)),
    }
}

/// Returns the track_ID that a whole value is.
pub(crate) fn track_of(value: &str) -> Result<u32, ArgumentError> {
    track(value, TRACK)
}

/// Returns the change that `--remove` with this value asks for.
pub(crate) fn removal(alloc: Global, value: &str) -> Result<Argument, ArgumentError> {
    Ok(Argument::Remove(path(alloc, value, PATH)?))
}

/// Returns the change that `--insert` with this value asks for.
pub(crate) fn insertion(alloc: Global, value: &str) -> Result<Argument, ArgumentError> {
    let (to, file) = halves(value, INSERTION)?;
    let (level, before) = place(alloc, to)?;
    let name = String::from_str(alloc, file)?;
    Ok(Argument::Insert(level, before, name))
}

/// Returns the change that `--replace` with this value asks for.
pub(crate) fn replacement(alloc: Global, value: &str) -> Result<Argument, ArgumentError> {
    let (to, file) = halves(value, REPLACEMENT)?;
    let name = String::from_str(alloc, file)?;
    Ok(Argument::Replace(path(alloc, to, REPLACEMENT)?, name))
}

/// Returns the path at the front of `text`, its text, and what is after the point that ends it. That is the first point
/// before which there is a whole path, since a code may have a point.
fn split_path<'a>(
    alloc: Global,
    text: &'a str,
) -> Result<(BoxPath, String, &'a str), ArgumentError> {
    let mut front = String::new(alloc);
    let mut rest = text;
    for _ in 0..text.len() {
        let Some((before, after)) = rest.split_once('.') else {
            break;
        };
        front.push_str(before)?;
        match BoxPath::parse(alloc, front.as_str()) {
            Ok(path) => return Ok((path, front, after)),
            Err(mp4_walk::PathError::Memory) => return Err(ArgumentError::Memory),
            Err(_) => {}
        }
        front.push('.')?;
        rest = after;
    }
    Err(ArgumentError::Form(SETTING))
}

/// Returns the field that `--set` with this value names.
pub(crate) fn field_setting(alloc: Global, value: &str) -> Result<FieldArgument, ArgumentError> {
    let (name, new) = halves(value, SETTING)?;
    let (path, text, field) = split_path(alloc, name)?;
    if field.is_empty() {
        return Err(ArgumentError::Form(SETTING));
    }
    let setting = Setting {
        field: String::from_str(alloc, field)?,
        value: String::from_str(alloc, new)?,
    };
    Ok(FieldArgument {
        path,
        text,
        setting,
    })
}

/// Returns the change that `--brand` with this value asks for.
pub(crate) fn brands(alloc: Global, value: &str) -> Result<Argument, ArgumentError> {
    let mut all = Vec::new(alloc);
    for part in value.split(',') {
        match all.push(code(part, BRANDS)?) {
            Ok(()) => {}
            Err(_) => return Err(ArgumentError::Memory),
        }
    }
    Ok(Argument::Brands(all))
}

/// Returns the change that `--language` with this value asks for.
pub(crate) fn language(value: &str) -> Result<Argument, ArgumentError> {
    let (id, name) = halves(value, LANGUAGE)?;
    match packed_language(name) {
        Some(packed) => Ok(Argument::Language(track(id, LANGUAGE)?, packed)),
        None => Err(ArgumentError::Form(LANGUAGE)),
    }
}

/// Returns the change that `--rotate` with this value asks for.
pub(crate) fn rotation(value: &str) -> Result<Argument, ArgumentError> {
    let (id, degrees) = halves(value, ROTATION)?;
    let id = track(id, ROTATION)?;
    match degrees {
        "0" => Ok(Argument::Rotate(id, 0)),
        "90" => Ok(Argument::Rotate(id, 90)),
        "180" => Ok(Argument::Rotate(id, 180)),
        "270" => Ok(Argument::Rotate(id, 270)),
        _ => Err(ArgumentError::Form(ROTATION)),
    }
}

/// Returns the change that `--tag` with this value asks for.
pub(crate) fn tag(alloc: Global, value: &str) -> Result<Argument, ArgumentError> {
    let (key, text) = halves(value, TAG)?;
    let text = String::from_str(alloc, text)?;
    Ok(Argument::Tag(code(key, TAG)?, text))
}

/// Returns the number of nanoseconds that `--duration` with this value asks for.
pub(crate) fn duration(value: &str) -> Result<u64, ArgumentError> {
    match nanoseconds_in(value) {
        Some(nanoseconds) => Ok(nanoseconds),
        None => Err(ArgumentError::Form(DURATION)),
    }
}

/// Returns the number of nanoseconds that `--from` or `--to` with this value asks for.
pub(crate) fn time(value: &str) -> Result<u64, ArgumentError> {
    match time_in(value) {
        Some(nanoseconds) => Ok(nanoseconds),
        None => Err(ArgumentError::Form(TIME)),
    }
}
