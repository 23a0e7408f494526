//! The program `mp4remux` rewrites the container of MP4 files, and keeps every sample of every track. It writes a file
//! with its `moov` before its media data, with edits of its boxes, or with its samples in fragments or in tables. It
//! also writes a part of a file.
#![tactic(auto)]

mod argument;
mod changes;
mod destination;
mod outcome;
mod playlist;
mod progress;
mod request;
mod rewriting;
mod seconds;
mod segments;
mod settings;

use changes::{NoChanges, changes_of};
use mp4_command::{NOT_UTF_8, unreadable};
use mp4_io::Failure;
use mp4_remux::forms::FragmentOptions;
use mp4_remux_files::Task;
use outcome::Outcome;
use request::{Request, Work, requested};
use rewriting::rewrite;
use segments::write_segments;
use std::process::ExitCode;

/// Prints to standard error that a name is not UTF-8, if one of the names of files is not. Returns whether it did.
fn tell_names(rt: &HostRuntime, from: &str, to: &str) -> bool {
    match unreadable(from).or(unreadable(to)) {
        Some(shown) => {
            let _ = eprintln!(rt; "mp4remux: {shown}: {NOT_UTF_8}");
            true
        }
        None => false,
    }
}

/// Returns what should be done with the file `from`, with the bytes of the files that the changes name.
fn task_of(rt: &HostRuntime, work: Work, from: &str) -> Result<Task, NoChanges> {
    match work {
        Work::FastStart => Ok(Task::FastStart),
        Work::Edit(arguments, settings) => {
            Ok(Task::Edit(changes_of(rt, arguments, settings, from)?))
        }
        Work::Fragment(options) => Ok(Task::Fragment(options)),
        Work::Defragment => Ok(Task::Defragment),
        Work::Cut(times) => Ok(Task::Cut(times)),
    }
}

/// Returns the options of `task` if it writes segments, which are several files.
fn segmented(task: &Task) -> Option<FragmentOptions> {
    match task {
        Task::Fragment(options) if options.is_segmented => Some(*options),
        _ => None,
    }
}

/// Carries out `task` with the file `from`, and writes the file or the directory `to`.
fn carry_out(rt: &HostRuntime, task: Task, from: &str, to: &str) -> Result<Outcome, Failure> {
    match segmented(&task) {
        Some(options) => write_segments(rt, options, from, to),
        None => rewrite(rt, task, from, to),
    }
}

/// Writes what is requested, if the names are UTF-8.
fn write_file(rt: &HostRuntime, request: Request) -> Result<Outcome, Failure> {
    let Request { work, from, to } = request;
    if tell_names(rt, from.as_str(), to.as_str()) {
        return Ok(Outcome::Failed);
    }
    match task_of(rt, work, from.as_str()) {
        Ok(task) => carry_out(rt, task, from.as_str(), to.as_str()),
        Err(NoChanges::Told(outcome)) => Ok(outcome),
        Err(NoChanges::Memory) => Err(Failure::Memory),
    }
}

/// Carries out the command line, and returns the exit status.
fn run(rt: &HostRuntime) -> Result<u8, Failure> {
    match requested(rt)? {
        Ok(request) => Ok(write_file(rt, request)?.status()),
        Err(status) => Ok(status),
    }
}

fn main(rt: HostRuntime) -> ExitCode {
    match run(&rt) {
        Ok(status) => ExitCode::from(status),
        Err(failure) => {
            let _ = eprintln!(rt; "mp4remux: {failure}");
            ExitCode::from(Outcome::Failed.status())
        }
    }
}
