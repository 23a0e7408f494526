//! Fields of boxes that are set: edits that replace these boxes.

use crate::argument::FieldArgument;
use crate::changes::NoChanges;
use crate::outcome::Outcome;
use crate::rewriting::{misuse_of_input, open_source};
use mp4_command::{Kept, escaped};
use mp4_content::{SetError, Setting, ShownBox, set_fields};
use mp4_io::{Failure, or_read};
use mp4_remux::edits::{Edit, Shortcut};
use mp4_walk::{BoxPath, BoxWalk, TreeBox, find};
use std::alloc::{AllocError, Global};
use std::fs::File;

/// A box of which fields are set.
#[derive(Drop)]
struct Target {
    /// The path of the box.
    path: BoxPath,
    /// The text of this path.
    text: String,
    /// The fields, in the order of the options.
    settings: Vec<Setting>,
}

/// Returns the index of the target at `path`, or the number of targets if there is none.
fn index_of(targets: &[Target], path: &BoxPath) -> usize {
    for index in 0..targets.len() {
        if targets[index].path.parts == path.parts {
            return index;
        }
    }
    targets.len()
}

/// Adds `field` to `targets`.
fn add_field(
    alloc: Global,
    targets: &mut Vec<Target>,
    field: FieldArgument,
) -> Result<(), AllocError> {
    let FieldArgument {
        path,
        text,
        setting,
    } = field;
    let index = index_of(targets, &path);
    if index == targets.len() {
        targets.push(Target {
            path,
            text,
            settings: Vec::new(alloc),
        })?;
    }
    if index < targets.len() {
        targets[index].settings.push(setting)?;
    }
    Ok(())
}

/// Returns the boxes of which `fields` are set, each once, in the order of their first fields.
fn targets_of(alloc: Global, fields: Vec<FieldArgument>) -> Result<Vec<Target>, AllocError> {
    let mut targets = Vec::new(alloc);
    for field in fields {
        add_field(alloc, &mut targets, field)?;
    }
    Ok(targets)
}

/// Prints to standard error why fields of the box `found` at the path `path` are not set. The name of the file in
/// messages is `shown`.
fn tell_unset(
    rt: &HostRuntime,
    shown: &str,
    path: &str,
    found: &TreeBox,
    error: SetError,
) -> NoChanges {
    let at = found.position;
    match error {
        SetError::NoFields => {
            let _ = eprintln!(rt;
                "mp4remux: {shown}: {path} at {at}: fields of this box can't be set"
            );
        }
        SetError::Faulty(fault) => {
            let _ = eprintln!(rt;
                "mp4remux: {shown}: {path} at {at}: the box can't be read: {fault}"
            );
        }
        SetError::OtherBytes => {
            let _ = eprintln!(rt;
                "mp4remux: {shown}: {path} at {at}: other bytes would change, too: the box is not in its normal form"
            );
        }
        SetError::Refused(refusal) => {
            let _ = eprintln!(rt; "mp4remux: {shown}: {path}.{refusal}");
        }
        SetError::TooLarge => {
            let _ = eprintln!(rt; "mp4remux: {shown}: {path} at {at}: its size would be too large");
        }
        SetError::Failed(failure) => {
            let _ = eprintln!(rt; "mp4remux: {shown}: {failure}");
            return NoChanges::Told(Outcome::Failed);
        }
    }
    NoChanges::Told(Outcome::Refused)
}

/// Prints to standard error that the file with the name `shown` in messages has no whole box at the path `path`.
fn tell_missing(rt: &HostRuntime, shown: &str, path: &str, found: Option<TreeBox>) -> NoChanges {
    let _ = match found {
        Some(found) => {
            let at = found.position;
            eprintln!(rt; "mp4remux: {shown}: {path} at {at}: the box is not whole")
        }
        None => eprintln!(rt; "mp4remux: {shown}: there is no {path}"),
    };
    NoChanges::Told(Outcome::Refused)
}

/// Prints to standard error that the file with the name `shown` in messages can't be read.
fn tell_failed(rt: &HostRuntime, shown: &str, failure: Failure) -> NoChanges {
    let _ = eprintln!(rt; "mp4remux: {shown}: {failure}");
    NoChanges::Told(Outcome::Failed)
}

/// Returns the edit that replaces the box of `file` that is `target` by one with its fields. The name of the file in
/// messages is `shown`.
fn replacement(
    rt: &HostRuntime,
    shown: &str,
    file: &mut Kept<File>,
    target: Target,
) -> Result<Edit, NoChanges> {
    let Target {
        path,
        text,
        settings,
    } = target;
    let text = escaped(rt.alloc(), text.as_str())?;
    let found = match or_read(find(rt.alloc(), &mut *file, &path)) {
        Ok(Some(found)) if found.is_whole() => found,
        Ok(found) => return Err(tell_missing(rt, shown, text.as_str(), found)),
        Err(failure) => return Err(tell_failed(rt, shown, failure)),
    };
    let mut walk = match or_read(BoxWalk::new(rt.alloc(), file)) {
        Ok(walk) => walk,
        Err(failure) => return Err(tell_failed(rt, shown, failure)),
    };
    match set_fields::<ShownBox, &mut Kept<File>>(rt.alloc(), &mut walk, &found, &settings) {
        Ok(bytes) => Ok(Edit::Replace(path, bytes)),
        Err(error) => Err(tell_unset(rt, shown, text.as_str(), &found, error)),
    }
}

/// Adds the edits to `changes` that set `fields` of boxes of the file `from`.
pub(crate) fn add_settings(
    rt: &HostRuntime,
    from: &str,
    fields: Vec<FieldArgument>,
    changes: &mut Vec<Shortcut>,
) -> Result<(), NoChanges> {
    if from == "-" {
        return Err(NoChanges::Told(misuse_of_input(rt)));
    }
    let shown = escaped(rt.alloc(), from)?;
    let Some((mut opened, _)) = open_source(rt, from, shown.as_str()) else {
        return Err(NoChanges::Told(Outcome::Failed));
    };
    for target in targets_of(rt.alloc(), fields)? {
        let edit = replacement(rt, shown.as_str(), &mut opened.first, target)?;
        match changes.push(Shortcut::Edit(edit)) {
            Ok(()) => {}
            Err(_) => return Err(NoChanges::Memory),
        }
    }
    Ok(())
}
