//! Reading a file and writing a new one. It writes a new file beside the target and renames it once it is complete, so
//! the target is whole or unchanged.

ghost use Rattle.std.specs.Prelude.{◌≡◌, Ok, codes};

use crate::destination::{Destination, Node, NodeKind, choose_destination, partial_beside};
use crate::outcome::Outcome;
use crate::progress::Progress;
use mp4_command::{Kept, escaped};
use mp4_io::{Failure, Output, Steady, is_closed_pipe};
use mp4_remux_files::{Done, Stop, Task, carry_out};
use std::fs::{File, Metadata, OpenOptions, Permissions};
use std::io::{ErrorKind, IsTerminal, Write};
use std::os::unix::fs::{MetadataExt, OpenOptionsExt, PermissionsExt};
use std::path::{Path, PathBuf};
use std::{fs, io};

/// The names of the two files.
#[derive(Clone, Copy)]
pub struct Names<'a> {
    /// The name of the file that is read.
    pub from: &'a str,
    /// The name of the file that is written.
    pub to: &'a str,
    /// `from` with its control characters escaped, for messages.
    pub shown_from: &'a str,
    /// `to` with its control characters escaped, for messages.
    pub shown_to: &'a str,
}

/// The file that is read, opened three times, since the old file and the new one are read at the same time, and no
/// clause says how a planner leaves the file that it reads.
#[derive(Drop)]
pub struct Opened {
    /// The file.
    pub first: Kept<File>,
    /// The same file.
    pub second: Kept<File>,
    /// The same file, which is read to plan the new one.
    pub third: Kept<File>,
    /// The length of the file.
    pub length: u64,
    /// Its permissions.
    pub mode: u32,
}

/// Prints to standard error what is wrong with a file. Its name in messages is `shown`.
pub(crate) fn tell(rt: &HostRuntime, shown: &str, error: &io::Error) -> Outcome {
    let _ = eprintln!(rt; "mp4remux: {shown}: {error}");
    Outcome::Failed
}

/// Prints to standard error that reading or writing failed, with the system's reason if there is one.
fn tell_failure(rt: &HostRuntime, shown: &str, failure: Failure, reason: Option<io::Error>) {
    let _ = match reason {
        Some(error) => eprintln!(rt; "mp4remux: {shown}: {failure}: {error}"),
        None => eprintln!(rt; "mp4remux: {shown}: {failure}"),
    };
}

/// Returns the last error of reading.
fn read_error(opened: Opened) -> Option<io::Error> {
    let Opened {
        first,
        second,
        third,
        length: _,
        mode: _,
    } = opened;
    first.error.or(second.error).or(third.error)
}

/// Prints to standard error why a file was not written. `opened` and `write_error` have the last errors of both files.
pub(crate) fn tell_stop(
    rt: &HostRuntime,
    names: Names<'_>,
    stop: &Stop,
    opened: Opened,
    write_error: Option<io::Error>,
) {
    match stop {
        Stop::Refused(refusal) => {
            let _ = eprintln!(rt; "mp4remux: {}: {refusal}", names.shown_from);
        }
        Stop::Failed(Failure::Write) => {
            tell_failure(rt, names.shown_to, Failure::Write, write_error);
        }
        Stop::Failed(Failure::Read) => {
            tell_failure(rt, names.shown_from, Failure::Read, read_error(opened));
        }
        Stop::Failed(Failure::Memory) => {
            tell_failure(rt, names.shown_from, Failure::Memory, None);
        }
    }
}

/// Returns the node at the name `to`, or `None` if there is none. Follows a symbolic link.
fn node_at(rt: &HostRuntime, to: &str) -> io::Result<Option<Node>> {
    match fs::metadata(rt, to) {
        Ok(metadata) => Ok(Some(Node::new(&metadata))),
        Err(error) if error.kind() == ErrorKind::NotFound => Ok(None),
        Err(error) => Err(error),
    }
}

/// Returns whether the name `to` is a symbolic link.
fn is_link(rt: &HostRuntime, to: &str) -> bool {
    match fs::symlink_metadata(rt, to) {
        Ok(metadata) => metadata.is_symlink(),
        Err(_) => false,
    }
}

/// Returns the path of the file that is written for the name `to`. Follows a symbolic link, so that the link stays.
fn path_of(rt: &HostRuntime, to: &str, destination: Destination) -> io::Result<PathBuf> {
    match destination {
        Destination::Named => Ok(Path::new(to).to_path_buf(rt.alloc())?),
        Destination::Linked => fs::canonicalize(rt, to),
    }
}

/// Creates a file beside `target` with the first free number, so a file that an earlier run left behind is skipped.
/// Only its owner may open the new file.
fn create_beside(rt: &HostRuntime, target: &str) -> io::Result<(File, PathBuf)> {
    let mut options = OpenOptions::new();
    options.write(true).create_new(true).mode(0o600);
    for number in 0..u32::MAX {
        let path = partial_beside(rt.alloc(), target, number)?;
        match options.open(rt, &path) {
            Ok(file) => return Ok((file, path)),
            Err(error) if error.kind() == ErrorKind::AlreadyExists => {}
            Err(error) => return Err(error),
        }
    }
    Err(io::Error::from(ErrorKind::AlreadyExists))
}

/// Writes everything that `task` asks for, and removes the line of the progress.
fn write_everything<W: Write>(
    rt: &HostRuntime,
    task: Task,
    opened: &mut Opened,
    output: &mut Output<Steady<Progress<W>>>,
) -> Result<Done, Stop> {
    let run = carry_out(
        rt.alloc(),
        task,
        &mut opened.first,
        &mut opened.second,
        &mut opened.third,
        output,
    );
    output.inner.inner.clear();
    run
}

/// Writes everything into a new file.
fn write_file(
    rt: &HostRuntime,
    task: Task,
    opened: &mut Opened,
    output: &mut Output<Steady<Progress<File>>>,
) -> Result<Done, Stop> {
    let done = write_everything(rt, task, opened, output)?;
    if let Err(error) = output.inner.inner.inner.sync_all() {
        output.inner.error = Some(error);
        return Err(Stop::Failed(Failure::Write));
    }
    Ok(done)
}

/// Returns the outcome of a run that has written everything and printed a line about it. A reader who has closed the
/// pipe does without the line.
pub(crate) fn after_line(printed: io::Result<()>) -> Result<Outcome, Failure> {
    match printed {
        Ok(()) => Ok(Outcome::Written),
        Err(error) if is_closed_pipe(&error) => Ok(Outcome::Written),
        Err(_) => Err(Failure::Write),
    }
}

/// Prints what was written to the file whose name in messages is `shown`.
fn tell_done(rt: &HostRuntime, shown: &str, done: Done) -> Result<Outcome, Failure> {
    let printed = println!(rt; "{shown}: {done}");
    after_line(printed)
}

/// Gives the new file at `partial` the permissions of the file that is read, and renames it to `target`.
fn put_in_place(
    rt: &HostRuntime,
    partial: &PathBuf,
    target: &str,
    permissions: Permissions,
) -> io::Result<()> {
    fs::set_permissions(rt, partial, permissions)?;
    fs::rename(rt, partial, target)
}

/// Writes the new file to the path `target`, first into a file of another name. The new file gets the permissions of
/// the file that is read.
fn write_to(
    rt: &HostRuntime,
    task: Task,
    names: Names<'_>,
    target: &str,
    mut opened: Opened,
) -> Result<Outcome, Failure> {
    let (file, partial) = match create_beside(rt, target) {
        Ok(created) => created,
        Err(error) => return Ok(tell(rt, names.shown_to, &error)),
    };
    let permissions = Permissions::from_mode(opened.mode & 0o777);
    let mut output = Output::new(Steady::new(Progress::new(rt, file, opened.length)));
    let run = write_file(rt, task, &mut opened, &mut output);
    let outcome = Outcome::of_run(&run);
    let done = match run {
        Ok(done) => done,
        Err(stop) => {
            let _ = fs::remove_file(rt, &partial);
            tell_stop(rt, names, &stop, opened, output.inner.error);
            return Ok(outcome);
        }
    };
    if let Err(error) = put_in_place(rt, &partial, target, permissions) {
        let _ = fs::remove_file(rt, &partial);
        return Ok(tell(rt, names.shown_to, &error));
    }
    tell_done(rt, names.shown_to, done)
}

/// Writes the new file to the file to which the name `names.to` leads. The file that is read is the node `source`.
fn write_named(
    rt: &HostRuntime,
    task: Task,
    names: Names<'_>,
    opened: Opened,
    source: Node,
) -> Result<Outcome, Failure> {
    let found = match node_at(rt, names.to) {
        Ok(found) => found,
        Err(error) => return Ok(tell(rt, names.shown_to, &error)),
    };
    let is_linked = is_link(rt, names.to);
    let destination = match choose_destination(source.id, is_linked, found) {
        Ok(destination) => destination,
        Err(obstacle) => {
            let _ = eprintln!(rt; "mp4remux: {}: {obstacle}", names.shown_to);
            return Ok(Outcome::Failed);
        }
    };
    match path_of(rt, names.to, destination) {
        Ok(target) => write_to(rt, task, names, target.as_str(), opened),
        Err(error) => Ok(tell(rt, names.shown_to, &error)),
    }
}

/// Writes the new file to the standard output.
fn write_to_pipe(rt: &HostRuntime, task: Task, names: Names<'_>, mut opened: Opened) -> Outcome {
    let mut output = Output::new(Steady::new(Progress::new(rt, rt.stdout(), opened.length)));
    let run = write_everything(rt, task, &mut opened, &mut output);
    let outcome = Outcome::of_run(&run);
    if let Err(stop) = run {
        tell_stop(rt, names, &stop, opened, output.inner.error);
    }
    outcome
}

/// Opens the file `name`, which should be the node `node`.
fn open_again(rt: &HostRuntime, name: &str, node: Node) -> io::Result<File> {
    let file = fs::open(rt, name)?;
    if Node::new(&file.metadata()?) == node {
        Ok(file)
    } else {
        Err(io::Error::from(ErrorKind::NotFound))
    }
}

/// Opens the file `name` three times, and returns it with its metadata.
fn open_file(rt: &HostRuntime, name: &str) -> io::Result<(Opened, Metadata)> {
    let first = fs::open(rt, name)?;
    let metadata = first.metadata()?;
    let node = Node::new(&metadata);
    let opened = Opened {
        length: metadata.len(),
        mode: metadata.mode(),
        first: Kept::new(first),
        second: Kept::new(open_again(rt, name, node)?),
        third: Kept::new(open_again(rt, name, node)?),
    };
    Ok((opened, metadata))
}

/// Opens the file `from` that is read, and returns it with its node. If that fails or it is not a regular file, prints
/// a line to standard error and returns `None`. Its name in messages is `shown`. A FIFO is not opened, since that would
/// wait for a writer.
pub(crate) fn open_source(rt: &HostRuntime, from: &str, shown: &str) -> Option<(Opened, Node)> {
    let opened = match fs::metadata(rt, from) {
        Ok(metadata) => {
            let kind = Node::new(&metadata).kind;
            if kind != NodeKind::File {
                let _ = eprintln!(rt;
                    "mp4remux: {shown}: this is a {kind}; IN must be a regular file"
                );
                return None;
            }
            open_file(rt, from)
        }
        Err(error) => Err(error),
    };
    match opened {
        Ok((opened, metadata)) => Some((opened, Node::new(&metadata))),
        Err(error) => {
            tell(rt, shown, &error);
            None
        }
    }
}

/// Prints a misuse of the command line to standard error.
fn misuse(rt: &HostRuntime, what: &str) -> Outcome
    ensures { result ≡ Outcome.Misused }
{
    let _ = eprintln!(rt; "mp4remux: -: {what}");
    Outcome::Misused
}

/// Prints to standard error that the standard input can't be IN.
pub(crate) fn misuse_of_input(rt: &HostRuntime) -> Outcome
    ensures { result ≡ Outcome.Misused }
{
    misuse(
        rt,
        "IN must be a file, since it is read twice; ./- is a file of this name",
    )
}

/// Carries out `task` with the file `from`, and writes the new file to the file `to`, or to the standard output if `to`
/// is `-`.
fn rewrite_file(rt: &HostRuntime, task: Task, from: &str, to: &str) -> Result<Outcome, Failure> {
    if to == "-" && rt.stdout().is_terminal() {
        return Ok(misuse(
            rt,
            "the standard output is a terminal; ./- is a file of this name",
        ));
    }
    let (shown_from, shown_to) = (escaped(rt.alloc(), from)?, escaped(rt.alloc(), to)?);
    let names = Names {
        from,
        to,
        shown_from: shown_from.as_str(),
        shown_to: shown_to.as_str(),
    };
    let Some((opened, node)) = open_source(rt, from, names.shown_from) else {
        return Ok(Outcome::Failed);
    };
    if to == "-" {
        return Ok(write_to_pipe(rt, task, names, opened));
    }
    write_named(rt, task, names, opened, node)
}

/// Carries out `task` with the file `from`, and writes the new file to the file `to`, or leaves `to` as it was. If `to`
/// is `-`, writes to the standard output. It is a misuse if `from` is `-`, since the standard input can't be read
/// twice.
pub fn rewrite(rt: &HostRuntime, task: Task, from: &str, to: &str) -> Result<Outcome, Failure>
    ensures { from.now ≡ codes "-" → result ≡ Ok Outcome.Misused }
{
    if from == "-" {
        return Ok(misuse_of_input(rt));
    }
    rewrite_file(rt, task, from, to)
}
