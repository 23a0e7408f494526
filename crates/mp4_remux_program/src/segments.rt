//! The option `--segments`, which writes the new file as several files in a folder: an initialization segment, a
//! segment for each fragment, and an HLS playlist (RFC 8216). The folder is filled under another name and renamed once
//! it is complete.

ghost use Rattle.std.specs.Io.{WritesAtMost};
ghost use Rattle.std.specs.Prelude.{◌≡◌, Ok, codes};

use crate::destination::{Node, partial_beside};
use crate::outcome::Outcome;
use crate::playlist::{playlist_of, segment_name};
use crate::progress::Progress;
use crate::rewriting::{Names, Opened, after_line, misuse_of_input, open_source, tell, tell_stop};
use mp4_command::escaped;
use mp4_io::{Failure, Output, Steady};
use mp4_remux::forms::{
    Form, FragmentOptions, FragmentPart, Fragmented, check_in_form, plan_fragments,
};
use mp4_remux::pieces::Plan;
use mp4_remux::write_planned;
use mp4_remux_files::Stop;
use std::alloc::{AllocError, Global};
use std::fs::{File, OpenOptions, Permissions};
use std::io::{ErrorKind, Write};
use std::os::unix::fs::{OpenOptionsExt, PermissionsExt};
use std::path::{Path, PathBuf};
use std::{fs, io};

/// The name of the initialization segment.
const INIT: &str = "init.mp4";
/// The name of the playlist.
const PLAYLIST: &str = "playlist.m3u8";

/// The files of a folder as one output: the bytes go to one file after the other.
#[derive(Drop)]
struct Segments<'a> {
    rt: HostRuntime,
    /// The folder.
    folder: &'a str,
    /// The lengths of the files, in order.
    lengths: &'a [u64],
    /// The permissions of the files.
    mode: u32,
    /// The number of files that have begun.
    begun: usize,
    /// The number of bytes that the last of them still gets.
    left: u64,
    /// The last of them.
    file: Option<File>,
}

/// Creates the file `name` in `folder`, which has no such file, with the permissions `mode`.
fn create_in(rt: &HostRuntime, folder: &str, name: &str, mode: u32) -> io::Result<File> {
    let path = Path::new(folder).join(rt.alloc(), name)?;
    let mut options = OpenOptions::new();
    options.write(true).create_new(true).mode(0o600);
    let file = options.open(rt, &path)?;
    fs::set_permissions(rt, &path, Permissions::from_mode(mode & 0o777))?;
    Ok(file)
}

impl<'a> Segments<'a> {
    /// Creates the next file.
    fn begin(&mut self) -> io::Result<()> {
        let Some(length) = self.lengths.get(self.begun).copied() else {
            return Err(io::Error::from(ErrorKind::WriteZero));
        };
        let rt = self.rt;
        let file = if self.begun == 0 {
            create_in(&rt, self.folder, INIT, self.mode)?
        } else {
            let name = segment_name(rt.alloc(), self.begun)?;
            create_in(&rt, self.folder, name.as_str(), self.mode)?
        };
        self.file = Some(file);
        self.left = length;
        self.begun = self.begun.saturating_add(1);
        Ok(())
    }

    /// Ends the last file, which has all its bytes.
    fn end(&mut self) -> io::Result<()> {
        if let Some(file) = self.file.take() {
            file.sync_all()?;
        }
        Ok(())
    }

    /// Writes the front of `buf` to the last file, up to its end.
    fn write_front(&mut self, buf: &[u8]) -> io::Result<usize>
        ensures { WritesAtMost result buf.now }
    {
        let long = self.left.min(buf.len() as u64) as usize;
        let Some(file) = self.file.as_mut() else {
            return Err(io::Error::from(ErrorKind::WriteZero));
        };
        file.write(&buf[..long])
    }
}

impl<'a> Write for Segments<'a> {
    fn write(&mut self, buf: &[u8]) -> io::Result<usize> {
        if buf.is_empty() {
            return Ok(0);
        }
        if self.left == 0 {
            self.begin()?;
        }
        let count = self.write_front(buf)?;
        self.left = self.left.saturating_sub(count as u64);
        if self.left == 0 {
            self.end()?;
        }
        Ok(count)
    }

    fn flush(&mut self) -> io::Result<()> {
        Ok(())
    }
}

/// Returns the lengths of the files: of the initialization segment, and of each segment.
fn lengths_of(
    alloc: Global,
    init_length: u64,
    parts: &[FragmentPart],
) -> Result<Vec<u64>, AllocError> {
    let mut lengths = Vec::new(alloc);
    lengths.push(init_length)?;
    for part in parts {
        lengths.push(part.length)?;
    }
    Ok(lengths)
}

/// Returns whether the folder at the name `to` has no entries.
fn is_empty(rt: &HostRuntime, to: &str) -> io::Result<bool> {
    let mut entries = fs::read_dir(rt, to)?;
    match entries.next() {
        None => Ok(true),
        Some(Ok(_)) => Ok(false),
        Some(Err(error)) => Err(error),
    }
}

/// Checks that the name `names.to` is free, or that of an empty folder. Prints a line to standard error if it isn't.
fn is_free(rt: &HostRuntime, names: Names<'_>) -> bool {
    let needed = "DIR must be an empty directory or a new name";
    let shown = names.shown_to;
    let told = match fs::symlink_metadata(rt, names.to) {
        Ok(metadata) => {
            if metadata.is_symlink() {
                eprintln!(rt; "mp4remux: {shown}: this is a symbolic link; {needed}")
            } else if !metadata.is_dir() {
                let kind = Node::new(&metadata).kind;
                eprintln!(rt; "mp4remux: {shown}: this is a {kind}; {needed}")
            } else {
                match is_empty(rt, names.to) {
                    Ok(true) => return true,
                    Ok(false) => {
                        eprintln!(rt; "mp4remux: {shown}: this directory is not empty; {needed}")
                    }
                    Err(error) => {
                        tell(rt, shown, &error);
                        return false;
                    }
                }
            }
        }
        Err(error) if error.kind() == ErrorKind::NotFound => return true,
        Err(error) => {
            tell(rt, shown, &error);
            return false;
        }
    };
    let _ = told;
    false
}

/// Creates a folder beside `target` with the first free number.
fn create_beside(rt: &HostRuntime, target: &str) -> io::Result<PathBuf> {
    for number in 0..u32::MAX {
        let path = partial_beside(rt.alloc(), target, number)?;
        match fs::create_dir(rt, &path) {
            Ok(()) => return Ok(path),
            Err(error) if error.kind() == ErrorKind::AlreadyExists => {}
            Err(error) => return Err(error),
        }
    }
    Err(io::Error::from(ErrorKind::AlreadyExists))
}

/// Writes all of `bytes` to `file`, which keeps them.
fn fill(file: &mut File, bytes: &[u8]) -> io::Result<()> {
    file.write_all(bytes)?;
    file.sync_all()
}

/// Writes the playlist to `folder`.
fn write_playlist(
    rt: &HostRuntime,
    folder: &str,
    parts: &[FragmentPart],
    scale: u32,
    mode: u32,
) -> io::Result<()> {
    let text = playlist_of(rt.alloc(), parts, scale)?;
    let mut file = create_in(rt, folder, PLAYLIST, mode)?;
    fill(&mut file, text.as_str().as_bytes())
}

/// Writes the new file that `plan` spells out over the file `opened`, if fragments list all its samples, and every
/// track keeps its samples.
fn write_fragments<W: Write>(
    rt: &HostRuntime,
    plan: Plan,
    opened: &mut Opened,
    output: &mut Output<W>,
) -> Result<(), Stop> {
    let planned = check_in_form(
        rt.alloc(),
        Form::Fragments,
        &mut opened.first,
        &mut opened.second,
        plan,
    )?;
    write_planned(rt.alloc(), planned, output)?;
    Ok(())
}

/// Writes the segments to `folder`, which have these lengths. Returns the last error of writing with the reason for
/// stopping.
fn write_media(
    rt: &HostRuntime,
    folder: &str,
    plan: Plan,
    lengths: &[u64],
    opened: &mut Opened,
) -> Result<(), (Stop, Option<io::Error>)> {
    let segments = Segments {
        rt: *rt,
        folder,
        lengths,
        mode: opened.mode,
        begun: 0,
        left: 0,
        file: None,
    };
    let mut output = Output::new(Steady::new(Progress::new(rt, segments, opened.length)));
    let run = write_fragments(rt, plan, opened, &mut output);
    output.inner.inner.clear();
    match run {
        Ok(()) => Ok(()),
        Err(stop) => Err((stop, output.inner.error)),
    }
}

/// Writes the segments and the playlist to `folder`, and renames it to `names.to`.
fn write_folder(
    rt: &HostRuntime,
    names: Names<'_>,
    folder: &str,
    fragmented: Fragmented,
    mut opened: Opened,
) -> Result<Outcome, Failure> {
    let Fragmented {
        plan,
        init_length,
        scale,
        parts,
    } = fragmented;
    let mode = opened.mode;
    let Ok(lengths) = lengths_of(rt.alloc(), init_length, &parts) else {
        return Err(Failure::Memory);
    };
    if let Err((stop, error)) = write_media(rt, folder, plan, &lengths, &mut opened) {
        let run: Result<(), Stop> = Err(stop);
        let outcome = Outcome::of_run(&run);
        if let Err(stop) = run {
            tell_stop(rt, names, &stop, opened, error);
        }
        return Ok(outcome);
    }
    if let Err(error) = write_playlist(rt, folder, &parts, scale, mode) {
        return Ok(tell(rt, names.shown_to, &error));
    }
    match fs::rename(rt, folder, names.to) {
        Ok(()) => Ok(Outcome::Written),
        Err(error) => Ok(tell(rt, names.shown_to, &error)),
    }
}

/// Prints what was written to the folder `shown`.
fn tell_written(rt: &HostRuntime, shown: &str, count: usize) -> Result<Outcome, Failure> {
    let word = if count == 1 { "segment" } else { "segments" };
    let printed = println!(rt; "{shown}: {INIT}, {count} {word} and {PLAYLIST}");
    after_line(printed)
}

/// Plans the segments, and writes them to a new folder beside `names.to`, which then gets that name.
fn write_all_segments(
    rt: &HostRuntime,
    names: Names<'_>,
    options: FragmentOptions,
    mut opened: Opened,
) -> Result<Outcome, Failure> {
    let planned = plan_fragments(rt.alloc(), &mut opened.third, options);
    let fragmented = match planned {
        Ok(fragmented) => fragmented,
        Err(stop) => {
            let run: Result<(), Stop> = Err(Stop::from(stop));
            let outcome = Outcome::of_run(&run);
            if let Err(stop) = run {
                tell_stop(rt, names, &stop, opened, None);
            }
            return Ok(outcome);
        }
    };
    let folder = match create_beside(rt, names.to) {
        Ok(folder) => folder,
        Err(error) => return Ok(tell(rt, names.shown_to, &error)),
    };
    let count = fragmented.parts.len();
    let outcome = write_folder(rt, names, folder.as_str(), fragmented, opened);
    if !matches!(outcome, Ok(Outcome::Written)) {
        let _ = fs::remove_dir_all(rt, &folder);
        return outcome;
    }
    tell_written(rt, names.shown_to, count)
}

/// Writes the fragments of the file `from` as segments to the folder `to`.
fn write_to_folder(
    rt: &HostRuntime,
    options: FragmentOptions,
    from: &str,
    to: &str,
) -> Result<Outcome, Failure> {
    let (shown_from, shown_to) = (escaped(rt.alloc(), from)?, escaped(rt.alloc(), to)?);
    let names = Names {
        from,
        to,
        shown_from: shown_from.as_str(),
        shown_to: shown_to.as_str(),
    };
    let Some((opened, _)) = open_source(rt, from, names.shown_from) else {
        return Ok(Outcome::Failed);
    };
    if !is_free(rt, names) {
        return Ok(Outcome::Failed);
    }
    write_all_segments(rt, names, options, opened)
}

/// Writes the fragments of the file `from` as segments to the folder `to`, or leaves `to` as it was. It is a misuse if
/// `from` is `-`, since the standard input can't be read twice.
pub(crate) fn write_segments(
    rt: &HostRuntime,
    options: FragmentOptions,
    from: &str,
    to: &str,
) -> Result<Outcome, Failure>
    ensures { from.now ≡ codes "-" → result ≡ Ok Outcome.Misused }
{
    if from == "-" {
        return Ok(misuse_of_input(rt));
    }
    write_to_folder(rt, options, from, to)
}
