//! The program `mp4inspect` shows people what is in MP4 files: the tree of their boxes, as text or JSON, only their
//! faults, their samples, the boxes at a path, or in what two files differ.
#![tactic(auto)]

ghost use Rattle.std.specs.Prelude.{◌≡◌, ◌≢◌, IfOk, IfErr, string_bytes};
ghost use Rattle.mp4_inspect.specs.Colors.{has_color};
ghost use Rattle.mp4_inspect.specs.PatternText.{IsPattern, IsPatternFault};

mod change_text;
mod chosen;
mod diff;
mod field;
mod field_lines;
mod get;
mod messages;
mod outcome;
mod pattern;
mod program;
mod request;
mod source;
mod tree_json;
mod tree_text;

use diff::run_diff;
use get::{Get, Got, get_boxes};
use messages::{refuse, tell};
use mp4_command::{
    FileProgress, Kept, MISUSE, NOT_UTF_8, close_command, escaped, files_below, print_error,
    unreadable, words_of,
};
use mp4_content::{Shown, ShownBox};
use mp4_inspect_samples::{Choice, Form};
use mp4_io::{Failure, Input, Output, Steady, flush, or_read, read_all, write_all};
use mp4_show::Look;
use mp4_walk::{PathError, Source};
use outcome::{Outcome, is_silent};
use pattern::Pattern;
use program::{Show, check_file, inspect};
use request::{Asked, COMMANDS, Color, Place, Request, Rows, Task, request_of};
use source::{Reading, how_to_read, input_file};
use std::alloc::{AllocError, Global};
use std::env::VarError;
use std::fs::File;
use std::io::{BufWriter, IsTerminal, Read, Write};
use std::process::ExitCode;
use std::{env, fs};

/// Returns the width of the terminal in `COLUMNS`, or the largest number if the variable is missing.
fn width(rt: &HostRuntime) -> usize {
    match env::var(rt, "COLUMNS") {
        Ok(columns) => columns.parse::<usize>().unwrap_or(usize::MAX),
        Err(_) => usize::MAX,
    }
}

/// Returns whether `NO_COLOR` is set and not empty.
fn is_colorless(rt: &HostRuntime) -> bool {
    match env::var(rt, "NO_COLOR") {
        Ok(word) => !word.is_empty(),
        Err(error) => error == VarError::NotUnicode,
    }
}

/// Returns whether `TERM` is `dumb`, so that the terminal knows no escapes.
fn is_dumb(rt: &HostRuntime) -> bool {
    match env::var(rt, "TERM") {
        Ok(word) => word.as_str() == "dumb",
        Err(_) => false,
    }
}

/// Returns whether lines have colours. `shows` says whether the output is a terminal that shows them.
fn has_color(color: Color, shows: bool) -> bool
    ensures { result ≡ has_color color shows }
{
    match color {
        Color::Auto => shows,
        Color::Always => true,
        Color::Never => false,
    }
}

/// Returns the look of the tree that `request` asks for.
fn look_of(rt: &HostRuntime, request: &Request) -> Look {
    let is_terminal = rt.stdout().is_terminal();
    let shows_color = is_terminal && !is_colorless(rt) && !is_dumb(rt);
    Look {
        rows: match request.rows {
            Some(rows) => rows as usize,
            None => usize::MAX,
        },
        width: if is_terminal && !request.wide {
            width(rt)
        } else {
            usize::MAX
        },
        color: has_color(request.color, shows_color),
    }
}

/// Returns the samples that `request` asks for, and their form.
fn choice_of(request: &Request) -> Choice {
    Choice {
        form: match request.samples {
            Rows::Text => Form::Text,
            Rows::Csv => Form::Csv,
            Rows::Json => Form::Json,
        },
        track: request.track,
        beyond: request.beyond,
        seconds: request.options.seconds,
        edits: request.options.edits,
        sync: request.options.sync,
        segments: request.options.segments,
    }
}

/// A file that is shown.
#[derive(Clone, Copy)]
struct Named<'a> {
    /// Its name.
    name: &'a str,
    /// Its name with control characters escaped, for headings and messages.
    shown: &'a str,
    /// The boxes of it that are asked for; `None` means all.
    get: Option<&'a Get>,
}

/// Returns what is wrong with a directory that is read as a file, with the option that reads it.
fn directory_fault(file: Named<'_>, task: Task) -> &'static str {
    if task == Task::Samples || file.get.is_some() {
        "this is a directory, not a file"
    } else {
        "this is a directory, not a file; -r reads the files in it"
    }
}

/// Prints to standard error that a file has faults because of which values are not known.
fn tell_unknown(rt: &HostRuntime, shown: &str) {
    let _ = eprintln!(rt;
        "mp4inspect: {shown}: some values are not known: mp4inspect check says why"
    );
}

/// Prints to standard error that a file is empty.
fn refuse_empty(rt: &HostRuntime, shown: &str) -> Outcome {
    let _ = eprintln!(rt; "mp4inspect: {shown}: this is not an MP4 file: it is empty");
    Outcome::Faulty
}

/// Prints to standard error that a file has no box at the path, or none with the field.
fn miss(rt: &HostRuntime, shown: &str, get: &Get, got: Got) {
    let _ = match got {
        Got::Nowhere => eprintln!(rt; "mp4inspect: {shown}: no box at {}", get.path),
        Got::NoField => {
            eprintln!(rt;
                "mp4inspect: {shown}: {} has no single value {}",
                get.path, get.field
            )
        }
        Got::Sound | Got::Faulty => Ok(()),
    };
}

/// Writes what is asked for of the boxes at a path. The reason if there is none, or if the file could not be read, is
/// printed to standard error.
fn get_source<B: Shown, S: Source, W: Write>(
    rt: &HostRuntime,
    file: Named<'_>,
    get: &Get,
    source: S,
    look: Look,
    output: &mut Output<Steady<W>>,
) -> Outcome {
    let mut source = Kept::new(source);
    let run = get_boxes::<B, _, _>(rt.alloc(), file.name, &mut source, get, look, output);
    let is_closed = output.inner.is_closed();
    match run {
        Ok(got) => {
            miss(rt, file.shown, get, got);
            Outcome::of_file(Ok(got != Got::Sound), is_closed)
        }
        Err(failure) => {
            tell(rt, file.shown, failure, source.error);
            Outcome::of_file(Err(failure), is_closed)
        }
    }
}

/// Writes the requested output for a file. The faults of its tracks, and the reason if it could not be read, are
/// printed to standard error.
fn inspect_source<B: Shown, S: Source, W: Write>(
    rt: &HostRuntime,
    file: Named<'_>,
    source: S,
    show: Show,
    output: &mut Output<Steady<W>>,
    any: &mut bool,
) -> Outcome {
    if let Some(get) = file.get {
        return get_source::<B, _, _>(rt, file, get, source, show.look, output);
    }
    let mut source = Kept::new(source);
    let is_empty = show.task != Task::Samples && matches!(source.length(), Ok(0));
    let mut faults = Vec::new(rt.alloc());
    let name = match show.task {
        Task::Json | Task::InfoJson => file.name,
        Task::Check if show.checks.json => file.name,
        _ => file.shown,
    };
    let run = if show.task == Task::Check {
        match check_file::<B, _, _>(rt.alloc(), name, &mut source, show, *any, output) {
            Ok(checked) => {
                *any = checked.any;
                Ok(checked.faulty)
            }
            Err(failure) => Err(failure),
        }
    } else {
        inspect::<B, _, _>(rt.alloc(), name, &mut source, show, output, &mut faults)
    };
    for fault in &faults {
        let _ = eprintln!(rt; "mp4inspect: {}: {fault}", file.shown);
    }
    if let Err(failure) = run {
        tell(rt, file.shown, failure, source.error);
    }
    if matches!(show.task, Task::Info | Task::InfoJson) && !is_empty && matches!(run, Ok(true)) {
        tell_unknown(rt, file.shown);
    }
    if is_empty {
        return refuse_empty(rt, file.shown).or_worse(Outcome::of_file(
            run,
            output.inner.is_closed(),
        ));
    }
    let outcome = Outcome::of_file(run, output.inner.is_closed());
    // `check` writes only lines of faults, so a line that could not be written is a fault too.
    if !faults.is_empty() || show.task == Task::Check && output.failed {
        outcome.or_worse(Outcome::Faulty)
    } else {
        outcome
    }
}

/// Writes the requested output for an input that can only be read from beginning to end.
fn inspect_stream<R: Read + Drop, W: Write>(
    rt: &HostRuntime,
    file: Named<'_>,
    reader: R,
    show: Show,
    output: &mut Output<Steady<W>>,
    any: &mut bool,
) -> Outcome {
    let mut input = Input::new(Steady::new(reader));
    match read_all(rt.alloc(), &mut input) {
        Ok(bytes) => inspect_source::<ShownBox, _, _>(
            rt,
            file,
            bytes.as_slice(),
            show,
            output,
            any,
        ),
        Err(failure) => {
            tell(rt, file.shown, failure, input.inner.error);
            Outcome::Failed
        }
    }
}

/// Writes the requested output for the standard input.
fn inspect_input<W: Write>(
    rt: &HostRuntime,
    file: Named<'_>,
    show: Show,
    output: &mut Output<Steady<W>>,
    any: &mut bool,
) -> Outcome {
    match input_file(rt) {
        Some(source) => inspect_source::<ShownBox, _, _>(rt, file, source, show, output, any),
        None => inspect_stream(rt, file, rt.stdin(), show, output, any),
    }
}

/// Writes the requested output for an open file.
fn inspect_open<W: Write>(
    rt: &HostRuntime,
    file: Named<'_>,
    mut source: File,
    show: Show,
    output: &mut Output<Steady<W>>,
    any: &mut bool,
) -> Outcome {
    match how_to_read(&mut source) {
        Ok(Reading::Seeks) => inspect_source::<ShownBox, _, _>(rt, file, source, show, output, any),
        Ok(Reading::Streams) => inspect_stream(rt, file, source, show, output, any),
        Ok(Reading::Directory) => refuse(rt, file.shown, directory_fault(file, show.task)),
        Ok(Reading::Device) => refuse(rt, file.shown, "this is a device, not a file"),
        Err(error) => {
            tell(rt, file.shown, Failure::Read, Some(error));
            Outcome::Failed
        }
    }
}

/// Writes the requested output for a file, or for the standard input. If it can't be opened, prints a line to standard
/// error.
fn inspect_named<W: Write>(
    rt: &HostRuntime,
    name: &str,
    get: Option<&Get>,
    show: Show,
    output: &mut Output<Steady<W>>,
    any: &mut bool,
) -> Result<Outcome, AllocError> {
    if let Some(shown) = unreadable(name) {
        return Ok(refuse(rt, shown, NOT_UTF_8));
    }
    let shown = escaped(rt.alloc(), name)?;
    let file = Named {
        name,
        shown: shown.as_str(),
        get,
    };
    if name == "-" {
        return Ok(inspect_input(rt, file, show, output, any));
    }
    match fs::open(rt, name) {
        Ok(source) => Ok(inspect_open(rt, file, source, show, output, any)),
        Err(error) => {
            let _ = eprintln!(rt; "mp4inspect: {shown}: {error}");
            Ok(Outcome::Failed)
        }
    }
}

/// Returns whether the progress of a run can be shown: standard error is a terminal, and lines of the output don't come
/// in between, or are longer.
fn can_show_progress(rt: &HostRuntime, request: &Request) -> bool {
    let has_long_lines = request.task == Task::Check && !request.checks.json;
    rt.stderr().is_terminal() && !is_dumb(rt) && (has_long_lines || !rt.stdout().is_terminal())
}

/// Writes the requested output for each file, and stores the worst outcome in `outcome`. A file that can't be read is
/// skipped.
fn inspect_all<W: Write>(
    rt: &HostRuntime,
    request: &Request,
    get: Option<&Get>,
    output: &mut Output<Steady<W>>,
    outcome: &mut Outcome,
    progress: &mut FileProgress,
) -> Result<(), Failure> {
    let look = look_of(rt, request);
    let mut follows = false;
    let mut any = false;
    let is_array = matches!(request.task, Task::Json | Task::InfoJson) || request.checks.json;
    let is_seen = rt.stdout().is_terminal();
    if is_array {
        write_all(output, b"[")?;
    }
    for name in &request.files {
        let show = Show {
            task: request.task,
            look,
            several: request.recursive || request.files.len() > 1,
            follows,
            samples: choice_of(request),
            checks: request.checks,
        };
        let here = inspect_named(rt, name.as_str(), get, show, output, &mut any)?;
        *outcome = outcome.or_worse(here);
        if output.failed {
            return Err(Failure::Write);
        }
        follows = follows || here != Outcome::Failed;
        if is_seen {
            flush(output)?;
        }
        progress.add();
    }
    if is_array {
        write_all(output, b"]\n")?;
    }
    flush(output)
}

/// Shows the requested files. If the pipe of the output is closed, ends silently. `outcome` is that of the folders.
fn show(
    rt: &HostRuntime,
    request: &Request,
    get: Option<&Get>,
    mut outcome: Outcome,
) -> Result<Outcome, Failure> {
    let writer = or_read(BufWriter::new(rt.alloc(), rt.stdout()))?;
    let mut output = Output::new(Steady::new(writer));
    let shows = can_show_progress(rt, request);
    let mut progress = FileProgress::new(rt, request.files.len(), shows);
    let run = inspect_all(rt, request, get, &mut output, &mut outcome, &mut progress);
    progress.clear();
    let Err(failure) = run else {
        return Ok(outcome);
    };
    let is_closed = output.inner.is_closed();
    if !is_silent(failure, is_closed) {
        let _ = eprintln!(rt; "mp4inspect: {failure}");
    }
    Ok(outcome.ended_by(failure, is_closed))
}

/// Returns whether `words` are those of the command `faststart`, which `mp4remux` has.
fn is_fast_start(words: &[String]) -> bool {
    words.len() > 1 && words[1].as_str() == "faststart"
}

/// Returns the boxes that `place` asks for. The error has the fault of its path.
fn get_of(alloc: Global, place: &Place) -> Result<Get, PathError>
    ensures pattern { IfOk result (λ get. IsPattern (string_bytes place.now.path) get.pattern) }
    ensures fault { IfErr result (λ e. e ≢ PathError.Memory → IsPatternFault (string_bytes place.now.path) e) }
{
    Ok(Get {
        pattern: Pattern::parse(alloc, place.path.as_str())?,
        path: escaped(alloc, place.path.as_str())?,
        form: place.form,
        field: escaped(alloc, place.field.as_str())?,
    })
}

/// Writes what is asked for of the boxes at a path. Returns the exit status.
fn run_get(rt: &HostRuntime, request: &Request, place: &Place) -> Result<u8, Failure> {
    match get_of(rt.alloc(), place) {
        Ok(get) => Ok(show(rt, request, Some(&get), Outcome::Sound)?.status()),
        Err(PathError::Memory) => Err(Failure::Memory),
        Err(fault) => {
            let path = escaped(rt.alloc(), place.path.as_str())?;
            let _ = eprintln!(rt; "mp4inspect: {path}: {fault}");
            Ok(MISUSE)
        }
    }
}

/// Replaces the folders among the files of `request` by the files in them. Returns the outcome: a folder that can't be
/// read is a failure.
fn enter_folders(rt: &HostRuntime, request: &mut Request) -> Result<Outcome, Failure> {
    if !request.recursive {
        return Ok(Outcome::Sound);
    }
    let listed = files_below(rt, "mp4inspect", request.files.as_slice())?;
    request.files = listed.files;
    Ok(if listed.failed {
        Outcome::Failed
    } else {
        Outcome::Sound
    })
}

/// Carries out a request, and returns the exit status.
fn run_request(rt: &HostRuntime, mut request: Request) -> Result<u8, Failure> {
    let outcome = enter_folders(rt, &mut request)?;
    match &request.place {
        Some(place) => run_get(rt, &request, place),
        None => Ok(show(rt, &request, None, outcome)?.status()),
    }
}

/// Returns a message if the first file of `request` may be a misspelt command: the command line has no command, and no
/// file has this name.
fn misspelt(rt: &HostRuntime, request: &Request) -> Result<Option<String>, AllocError> {
    let is_tree = matches!(request.task, Task::Tree | Task::Json) && request.place.is_none();
    let Some(word) = request.files.first() else {
        return Ok(None);
    };
    if !is_tree || fs::metadata(rt, word.as_str()).is_ok() {
        return Ok(None);
    }
    let Some(command) = close_command(rt.alloc(), word.as_str(), COMMANDS)? else {
        return Ok(None);
    };
    let word = escaped(rt.alloc(), word.as_str())?;
    Ok(Some(format!(in rt.alloc();
        "{word}: no such file or command; did you mean mp4inspect {command}?"
    )?))
}

/// Carries out a request, unless its first file may be a misspelt command. Returns the exit status.
fn run_spelt(rt: &HostRuntime, request: Request) -> Result<u8, Failure> {
    match misspelt(rt, &request)? {
        Some(message) => {
            let _ = eprintln!(rt; "mp4inspect: {message}");
            Ok(MISUSE)
        }
        None => run_request(rt, request),
    }
}

/// Carries out the command line, and returns the exit status.
fn run(rt: &HostRuntime) -> Result<u8, Failure> {
    let words = words_of(rt.alloc(), rt)?;
    if is_fast_start(words.as_slice()) {
        let _ = eprintln!(rt;
            "mp4inspect: faststart is a command of mp4remux: mp4remux faststart IN OUT"
        );
        return Ok(MISUSE);
    }
    match request_of(rt.alloc(), words.as_slice()) {
        Ok(Asked::Show(request)) => run_spelt(rt, request),
        Ok(Asked::Diff(diff)) => Ok(run_diff(rt, &diff)),
        Err(error) => print_error(rt, &error),
    }
}

fn main(rt: HostRuntime) -> ExitCode {
    match run(&rt) {
        Ok(status) => ExitCode::from(status),
        Err(failure) => {
            let _ = eprintln!(rt; "mp4inspect: {failure}");
            ExitCode::from(Outcome::Failed.status())
        }
    }
}
