//! The changes of a request, with the files that they name.

use crate::argument::{Argument, FieldArgument};
use crate::destination::{Node, NodeKind};
use crate::outcome::Outcome;
use crate::settings::add_settings;
use mp4_command::escaped;
use mp4_frame::{FourCC, codes};
use mp4_io::Failure;
use mp4_remux::edits::{Edit, Shortcut, count_sized, cover_data, text_data};
use mp4_walk::Source;
use std::alloc::AllocError;
use std::{fs, io};

/// The code of the tag of a title.
const TITLE: FourCC = FourCC {
    value: [0xa9, 0x6e, 0x61, 0x6d],
};

/// The reason why a request has no changes.
#[derive(Debug, Drop)]
pub enum NoChanges {
    /// A line on standard error has the reason.
    Told(Outcome),
    /// Memory was refused.
    Memory,
}

impl From<AllocError> for NoChanges {
    fn from(_error: AllocError) -> NoChanges {
        NoChanges::Memory
    }
}

impl From<Failure> for NoChanges {
    fn from(_failure: Failure) -> NoChanges {
        NoChanges::Memory
    }
}

/// Prints to standard error why the file `name` can't be taken.
fn tell(rt: &HostRuntime, name: &str, reason: &str, outcome: Outcome) -> NoChanges {
    match escaped(rt.alloc(), name) {
        Ok(shown) => {
            let _ = eprintln!(rt; "mp4remux: {shown}: {reason}");
            NoChanges::Told(outcome)
        }
        Err(_) => NoChanges::Memory,
    }
}

/// Prints to standard error that the file `name` can't be read.
fn tell_error(rt: &HostRuntime, name: &str, error: &io::Error) -> NoChanges {
    match format!(in rt.alloc(); "{error}") {
        Ok(reason) => tell(rt, name, reason.as_str(), Outcome::Failed),
        Err(_) => NoChanges::Memory,
    }
}

/// Returns the bytes of the file `name`.
fn bytes_in(rt: &HostRuntime, name: &str) -> io::Result<Vec<u8>> {
    let mut file = fs::open(rt, name)?;
    let length = file.length()?;
    let mut bytes = Vec::new(rt.alloc());
    bytes.resize(length as usize, 0)?;
    file.read_at(0, &mut bytes)?;
    Ok(bytes)
}

/// Returns the bytes of the regular file `name`. A FIFO is not opened, since that would wait for a writer.
fn read_file(rt: &HostRuntime, name: &str) -> Result<Vec<u8>, NoChanges> {
    let kind = match fs::metadata(rt, name) {
        Ok(metadata) => Node::new(&metadata).kind,
        Err(error) => return Err(tell_error(rt, name, &error)),
    };
    if kind != NodeKind::File {
        return match format!(in rt.alloc(); "this is a {kind}; FILE must be a regular file") {
            Ok(reason) => Err(tell(rt, name, reason.as_str(), Outcome::Failed)),
            Err(_) => Err(NoChanges::Memory),
        };
    }
    match bytes_in(rt, name) {
        Ok(bytes) => Ok(bytes),
        Err(error) => Err(tell_error(rt, name, &error)),
    }
}

/// Returns the bytes of the file `name`, if they are boxes, and one box only if `is_one`.
fn read_boxes(rt: &HostRuntime, name: &str, is_one: bool) -> Result<Vec<u8>, NoChanges> {
    let bytes = read_file(rt, name)?;
    let count = match count_sized(rt.alloc(), &bytes) {
        Ok(count) => count,
        Err(error) => return Err(tell_error(rt, name, &error)),
    };
    match count {
        Some(1) => Ok(bytes),
        Some(_) if is_one => Err(tell(rt, name, "this is not one box", Outcome::Refused)),
        Some(0) => Err(tell(rt, name, "there is no box", Outcome::Refused)),
        Some(_) => Ok(bytes),
        None => Err(tell(
            rt,
            name,
            "these are not whole boxes, each with a size",
            Outcome::Refused,
        )),
    }
}

/// Returns the `data` with the picture of the file `name`.
fn read_cover(rt: &HostRuntime, name: &str) -> Result<Vec<u8>, NoChanges> {
    let picture = read_file(rt, name)?;
    match cover_data(rt.alloc(), &picture)? {
        Some(data) => Ok(data),
        None => Err(tell(rt, name, "this is neither JPEG nor PNG", Outcome::Refused)),
    }
}

/// Returns the change that `argument` asks for.
fn change_of(rt: &HostRuntime, argument: Argument) -> Result<Shortcut, NoChanges> {
    let alloc = rt.alloc();
    Ok(match argument {
        Argument::Remove(path) => Shortcut::Edit(Edit::Remove(path)),
        Argument::Insert(level, before, name) => {
            let bytes = read_boxes(rt, name.as_str(), false)?;
            Shortcut::Edit(Edit::Insert(level, before, bytes))
        }
        Argument::Replace(path, name) => {
            let bytes = read_boxes(rt, name.as_str(), true)?;
            Shortcut::Edit(Edit::Replace(path, bytes))
        }
        Argument::Brands(brands) => Shortcut::Brands(brands),
        Argument::Language(id, language) => Shortcut::Language(id, language),
        Argument::Rotate(id, degrees) => Shortcut::Rotate(id, degrees),
        Argument::Enable(id, is_enabled) => Shortcut::Enable(id, is_enabled),
        Argument::NoTags => Shortcut::NoTags,
        Argument::Title(text) => Shortcut::Tag(TITLE, text_data(alloc, text.as_str())?),
        Argument::Tag(key, text) => Shortcut::Tag(key, text_data(alloc, text.as_str())?),
        Argument::Cover(name) => {
            Shortcut::Tag(FourCC::from(codes::COVR), read_cover(rt, name.as_str())?)
        }
        Argument::DropTrack(id) => Shortcut::DropTrack(id),
    })
}

/// Returns the changes that `arguments` and `settings` ask for. The fields of `settings` are those of the file `from`.
pub(crate) fn changes_of(
    rt: &HostRuntime,
    arguments: Vec<Argument>,
    settings: Vec<FieldArgument>,
    from: &str,
) -> Result<Vec<Shortcut>, NoChanges> {
    let mut changes = Vec::new(rt.alloc());
    for argument in arguments {
        let change = change_of(rt, argument)?;
        match changes.push(change) {
            Ok(()) => {}
            Err(_) => return Err(NoChanges::Memory),
        }
    }
    if !settings.is_empty() {
        add_settings(rt, from, settings, &mut changes)?;
    }
    Ok(changes)
}
