//! The command `diff`: what it reads and prints, and its exit status.

use crate::change_text::{array_of, lines_of};
use crate::messages::{refuse, tell};
use crate::outcome::{diff_status, is_silent};
use crate::request::Diff;
use crate::source::{Opened, Reading, how_to_read, input_file};
use mp4_command::{Kept, MISUSE, NOT_UTF_8, escaped, unreadable};
use mp4_content::{ShownBox, or_memory};
use mp4_diff::{Change, differ, differences};
use mp4_io::{Failure, Input, Output, Steady, flush, or_read, read_all, write_all};
use std::alloc::AllocError;
use std::fs;
use std::fs::File;
use std::io::{BufWriter, Read, Write};

/// The exit status if a file can't be read, the output can't be written, or memory is refused.
const TROUBLE: u8 = 2;

/// Reads an input to its end. If it can't be read, prints a line to standard error.
fn read_stream<R: Read + Drop>(rt: &HostRuntime, shown: &str, reader: R) -> Option<Opened> {
    let mut input = Input::new(Steady::new(reader));
    match read_all(rt.alloc(), &mut input) {
        Ok(bytes) => Some(Opened::Bytes(bytes)),
        Err(failure) => {
            tell(rt, shown, failure, input.inner.error);
            None
        }
    }
}

/// Returns the standard input as a file. If it can't be read, prints a line to standard error.
fn opened_input(rt: &HostRuntime, shown: &str) -> Option<Opened> {
    match input_file(rt) {
        Some(file) => Some(Opened::Input(file)),
        None => read_stream(rt, shown, rt.stdin()),
    }
}

/// Returns an open file as one that is read at any position. If it can't be read, prints a line to standard error.
fn opened_file(rt: &HostRuntime, shown: &str, mut file: File) -> Option<Opened> {
    match how_to_read(&mut file) {
        Ok(Reading::Seeks) => Some(Opened::File(file)),
        Ok(Reading::Streams) => read_stream(rt, shown, file),
        Ok(Reading::Directory) => {
            let _ = refuse(rt, shown, "this is a directory, not a file");
            None
        }
        Ok(Reading::Device) => {
            let _ = refuse(rt, shown, "this is a device, not a file");
            None
        }
        Err(error) => {
            tell(rt, shown, Failure::Read, Some(error));
            None
        }
    }
}

/// Opens a file, or the standard input. If it can't be opened, prints a line to standard error.
fn opened(rt: &HostRuntime, name: &str) -> Result<Option<Opened>, AllocError> {
    if let Some(shown) = unreadable(name) {
        let _ = refuse(rt, shown, NOT_UTF_8);
        return Ok(None);
    }
    let shown = escaped(rt.alloc(), name)?;
    if name == "-" {
        return Ok(opened_input(rt, shown.as_str()));
    }
    match fs::open(rt, name) {
        Ok(file) => Ok(opened_file(rt, shown.as_str(), file)),
        Err(error) => {
            let _ = eprintln!(rt; "mp4inspect: {shown}: {error}");
            Ok(None)
        }
    }
}

/// Writes `text` and all that is buffered.
fn write_text<W: Write>(text: &str, output: &mut Output<W>) -> Result<(), Failure> {
    write_all(output, text.as_bytes())?;
    flush(output)
}

/// Prints the differences of two files. Returns the exit status.
fn print_changes(rt: &HostRuntime, diff: &Diff, changes: &[Change]) -> Result<u8, Failure> {
    let text = or_memory(if diff.json {
        array_of(rt.alloc(), changes)
    } else {
        lines_of(rt.alloc(), changes)
    })?;
    let writer = or_read(BufWriter::new(rt.alloc(), rt.stdout()))?;
    let mut output = Output::new(Steady::new(writer));
    match write_text(text.as_str(), &mut output) {
        Err(failure) if !is_silent(failure, output.inner.is_closed()) => Err(failure),
        _ => Ok(diff_status(differ(changes))),
    }
}

/// Compares two files. Returns the exit status.
fn compare(rt: &HostRuntime, diff: &Diff, first: Opened, second: Opened) -> Result<u8, Failure> {
    let mut first = Kept::new(first);
    let mut second = Kept::new(second);
    let run = differences::<ShownBox, _, _>(rt.alloc(), &mut first, &mut second, diff.offsets);
    match run {
        Ok(changes) => print_changes(rt, diff, &changes),
        Err(failure) => {
            let name = if first.error.is_some() {
                diff.first.as_str()
            } else {
                diff.second.as_str()
            };
            let shown = escaped(rt.alloc(), name)?;
            let reason = match first.error {
                Some(error) => Some(error),
                None => second.error,
            };
            tell(rt, shown.as_str(), failure, reason);
            Ok(TROUBLE)
        }
    }
}

/// Opens two files, and compares them. Returns the exit status.
fn open_both(rt: &HostRuntime, diff: &Diff) -> Result<u8, Failure> {
    let Some(first) = opened(rt, diff.first.as_str())? else {
        return Ok(TROUBLE);
    };
    let Some(second) = opened(rt, diff.second.as_str())? else {
        return Ok(TROUBLE);
    };
    compare(rt, diff, first, second)
}

/// Carries out the command `diff`. Returns the exit status.
pub(crate) fn run_diff(rt: &HostRuntime, diff: &Diff) -> u8 {
    if diff.first.as_str() == "-" && diff.second.as_str() == "-" {
        let _ = eprintln!(rt; "mp4inspect: only one of the two files can be the standard input");
        return MISUSE;
    }
    match open_both(rt, diff) {
        Ok(status) => status,
        Err(failure) => {
            let _ = eprintln!(rt; "mp4inspect: {failure}");
            TROUBLE
        }
    }
}
