//! The requests that a command line can make.

use crate::get::GetForm;
use clap::{Arg, ArgAction, ArgMatches, Command, Error};
use std::alloc::{AllocError, Global};

/// The output for each file.
#[derive(Clone, Copy, Debug, PartialEq, Eq)]
pub enum Task {
    /// The tree of its boxes, as text.
    Tree,
    /// The tree of its boxes, as JSON.
    Json,
    /// Only its faults.
    Check,
    /// The samples of its tracks.
    Samples,
    /// Its format and its tracks, as text.
    Info,
    /// Its format and its tracks, as JSON.
    InfoJson,
}

/// The form of the samples in the output.
#[derive(Clone, Copy, Debug, PartialEq, Eq)]
pub enum Rows {
    /// Aligned columns.
    Text,
    /// Lines of numbers that are separated by commas.
    Csv,
    /// JSON.
    Json,
}

/// The form in which faults are written, what is checked, and which faults make the run fail.
#[derive(Clone, Copy, Debug, PartialEq, Eq)]
pub struct Checks {
    /// True for JSON.
    pub json: bool,
    /// True if warnings count, too.
    pub strict: bool,
    /// True if samples are checked, too.
    pub media: bool,
}

/// Lines, no check of samples, and a run that fails for errors only.
const PLAIN: Checks = Checks {
    json: false,
    strict: false,
    media: false,
};

/// The choice of colours.
#[derive(Clone, Copy, Debug, PartialEq, Eq)]
pub enum Color {
    /// On a terminal that shows them, unless `NO_COLOR` is set.
    Auto,
    /// Always.
    Always,
    /// Never.
    Never,
}

/// The commands.
pub const COMMANDS: &[&str] = &["info", "check", "samples", "get", "diff", "help"];
/// The values of `--color`.
const COLORS: &[&str] = &["always", "never", "auto"];

/// The boxes that the command `get` asks for.
#[derive(Debug, Drop)]
pub struct Place {
    /// The path of the boxes, a pattern.
    pub path: String,
    /// The form in which the boxes are written.
    pub form: GetForm,
    /// The field whose value is written, with `GetForm::Field`.
    pub field: String,
}

/// The options of `samples` about times, and about which rows are written.
#[derive(Clone, Copy, Debug, PartialEq, Eq)]
pub struct SampleOptions {
    /// Asks for times in seconds.
    pub seconds: bool,
    /// Asks for presentation times by the edit lists of the tracks.
    pub edits: bool,
    /// Asks for sync samples only.
    pub sync: bool,
    /// Asks for a row for each `moof` instead of each sample.
    pub segments: bool,
}

/// Ticks without edits, for all samples.
const ALL_SAMPLES: SampleOptions = SampleOptions {
    seconds: false,
    edits: false,
    sync: false,
    segments: false,
};

/// A request to show files.
#[derive(Debug, Drop)]
pub struct Request {
    /// The output for each file.
    pub task: Task,
    /// The number of entries of each list that are shown; `None` means all entries.
    pub rows: Option<u32>,
    /// Keeps lines whole on a terminal.
    pub wide: bool,
    /// The choice of colours.
    pub color: Color,
    /// The form of the samples in the output.
    pub samples: Rows,
    /// The track_ID of the track whose samples are written; `None` means all tracks.
    pub track: Option<u32>,
    /// Asks for all samples, including those past the end of the file.
    pub beyond: bool,
    /// The options about times and rows of samples.
    pub options: SampleOptions,
    /// The form of faults, what is checked, and which faults count.
    pub checks: Checks,
    /// The files, in order; `-` is the standard input. A name that is not UTF-8 has a mark.
    pub files: Vec<String>,
    /// True if folders among the files stand for the files in them.
    pub recursive: bool,
    /// The boxes that the command `get` asks for; `None` for other commands.
    pub place: Option<Place>,
}

/// A request to compare two files.
#[derive(Debug, Drop)]
pub struct Diff {
    /// The first file; `-` is the standard input. A name that is not UTF-8 has a mark.
    pub first: String,
    /// The second file, in the same form.
    pub second: String,
    /// True if offsets into the files are compared, too.
    pub offsets: bool,
    /// True for JSON.
    pub json: bool,
}

/// A request that a command line makes.
#[derive(Debug, Drop)]
pub enum Asked {
    /// To show files.
    Show(Request),
    /// To compare two files.
    Diff(Diff),
}

/// Returns the argument for several files.
fn files<'a>(alloc: Global) -> Arg<'a> {
    Arg::new(alloc, "FILE")
        .action(ArgAction::Append)
        .num_args(1..)
        .required(true)
        .help("Files to read; - is the standard input")
}

/// Returns the option `name` without a value.
fn flag<'a>(alloc: Global, name: &'a str, help: &'a str) -> Arg<'a> {
    Arg::new(alloc, name)
        .long(name)
        .action(ArgAction::SetTrue)
        .help(help)
}

/// Returns the option `name` with a number.
fn number<'a>(alloc: Global, name: &'a str, help: &'a str) -> Arg<'a> {
    Arg::new(alloc, name)
        .long(name)
        .value_name("N")
        .value_parser(clap::value_parser!(u32))
        .help(help)
}

/// Returns the option for folders.
fn recursive<'a>(alloc: Global) -> Arg<'a> {
    Arg::new(alloc, "recursive")
        .short('r')
        .long("recursive")
        .action(ArgAction::SetTrue)
        .help(
            "Read the files in folders and in the folders below them, in the order of their paths",
        )
}

/// Returns the option for colours.
fn color_option<'a>(alloc: Global) -> Arg<'a> {
    Arg::new(alloc, "color")
        .long("color")
        .value_name("WHEN")
        .value_parser(COLORS)
        .default_value("auto")
        .help("Print colours: auto prints them on a terminal")
}

/// Returns the command `check`.
fn check<'a>(alloc: Global) -> Result<Command<'a>, AllocError> {
    let json = "Print an array of JSON objects";
    let strict = "Exit with status 1 for warnings, too";
    let media = "Check the samples of AVC, HEVC and PCM, too";
    Command::new(alloc, "check")
        .about("Print only faults, one a line, with position and path; nothing if there are none")
        .arg(flag(alloc, "json", json))?
        .arg(flag(alloc, "strict", strict))?
        .arg(flag(alloc, "media", media))?
        .arg(recursive(alloc))?
        .arg(files(alloc))
}

/// Returns the command `info`.
fn info<'a>(alloc: Global) -> Result<Command<'a>, AllocError> {
    let json = "Print an array of JSON objects, with exact numbers";
    Command::new(alloc, "info")
        .about(
            "Print what a file is: its format, and a line for each track with codec, duration and rates",
        )
        .arg(flag(alloc, "json", json))?
        .arg(recursive(alloc))?
        .arg(files(alloc))
}

/// Returns the option `name` without a value, which excludes the option `other`.
fn flag_without<'a>(
    alloc: Global,
    name: &'a str,
    help: &'a str,
    other: &'a str,
) -> Result<Arg<'a>, AllocError> {
    flag(alloc, name, help).conflicts_with(other)
}

/// Returns the argument for one file.
fn file<'a>(alloc: Global) -> Arg<'a> {
    Arg::new(alloc, "FILE")
        .required(true)
        .help("File to read; - is the standard input")
}

/// Returns the option `segments`, which excludes those that choose samples.
fn segments_option<'a>(alloc: Global, help: &'a str) -> Result<Arg<'a>, AllocError> {
    flag(alloc, "segments", help)
        .conflicts_with("track")?
        .conflicts_with("beyond")?
        .conflicts_with("edits")?
        .conflicts_with("sync")
}

/// Returns the command `samples`.
fn samples<'a>(alloc: Global) -> Result<Command<'a>, AllocError> {
    let json = "Print an array of JSON objects";
    let csv = "Print a line of names, then lines of numbers, separated by commas";
    let beyond = "Print also the samples past the end of the file";
    let seconds = "Print times in seconds";
    let edits = "Print presentation times by the edit lists";
    let sync = "Print only sync samples (key frames)";
    let segments = "Print the bytes, start and duration of each fragment instead of samples";
    Command::new(alloc, "samples")
        .about("Print the offset, size and times of each sample of the tracks, one a line")
        .arg(number(alloc, "track", "Print only the samples of track N"))?
        .arg(flag_without(alloc, "json", json, "csv")?)?
        .arg(flag(alloc, "csv", csv))?
        .arg(flag(alloc, "beyond", beyond))?
        .arg(flag(alloc, "seconds", seconds))?
        .arg(flag(alloc, "edits", edits))?
        .arg(flag(alloc, "sync", sync))?
        .arg(segments_option(alloc, segments)?)?
        .arg(file(alloc))
}

/// Returns the argument for a path.
fn path<'a>(alloc: Global) -> Arg<'a> {
    Arg::new(alloc, "PATH").required(true).help(
        "Path of a box, such as moov/trak[1]/mdia; * is any box, and **/ any path before",
    )
}

/// Returns the command `get`.
fn get<'a>(alloc: Global) -> Result<Command<'a>, AllocError> {
    let json = "Print JSON, with all entries of lists";
    let raw = "Write the bytes of the boxes to standard output";
    let content = "Write the bytes of the boxes without their headers";
    let field = Arg::new(alloc, "field")
        .long("field")
        .value_name("NAME")
        .help("Print the value of one field, such as timescale or entries[0].media_time");
    Command::new(alloc, "get")
        .about("Print the boxes at a path with the boxes inside them, their bytes or one field")
        .arg(
            flag_without(alloc, "json", json, "raw")?
                .conflicts_with("content")?
                .conflicts_with("field")?,
        )?
        .arg(flag_without(alloc, "raw", raw, "content")?.conflicts_with("field")?)?
        .arg(flag_without(alloc, "content", content, "field")?)?
        .arg(field)?
        .arg(color_option(alloc))?
        .arg(file(alloc))?
        .arg(path(alloc))
}

/// Returns the argument `name` for a file that is compared.
fn compared<'a>(alloc: Global, name: &'a str, help: &'a str) -> Arg<'a> {
    Arg::new(alloc, name).required(true).help(help)
}

/// Returns the command `diff`.
fn diff_command<'a>(alloc: Global) -> Result<Command<'a>, AllocError> {
    let json = "Print an array of JSON objects";
    let offsets = "Compare also offsets into the files, such as chunk offsets";
    let about =
        "Print the boxes and fields in which two files differ; media data differ only by length";
    Command::new(alloc, "diff")
        .about(about)
        .arg(flag(alloc, "json", json))?
        .arg(flag(alloc, "offsets", offsets))?
        .arg(compared(alloc, "A", "First file; - is the standard input"))?
        .arg(compared(alloc, "B", "Second file; - is the standard input"))
}

/// Returns the command line without its commands.
fn tree<'a>(alloc: Global) -> Result<Command<'a>, AllocError> {
    let all = "Show all entries of lists";
    let rows = "Show N entries of each list";
    let wide = "Don't break lines at the width of the terminal";
    Command::new(alloc, "mp4inspect")
        .version("0.1.0")
        .about("Show the boxes of MP4 files: a line each, with name, @position, +length and fields")
        .args_conflicts_with_subcommands(true)
        .subcommand_negates_reqs(true)
        .arg(flag(alloc, "json", "Print JSON, with all entries of lists"))?
        .arg(flag_without(alloc, "all", all, "rows")?)?
        .arg(number(alloc, "rows", rows).default_value("8"))?
        .arg(flag(alloc, "wide", wide))?
        .arg(color_option(alloc))?
        .arg(recursive(alloc))?
        .arg(files(alloc))
}

/// Returns the whole command line.
fn command<'a>(alloc: Global) -> Result<Command<'a>, AllocError> {
    tree(alloc)?
        .subcommand(info(alloc)?)?
        .subcommand(check(alloc)?)?
        .subcommand(samples(alloc)?)?
        .subcommand(get(alloc)?)?
        .subcommand(diff_command(alloc)?)
}

/// Returns the names of the files in `matches`.
fn files_of(alloc: Global, matches: &ArgMatches<'_>) -> Result<Vec<String>, AllocError> {
    let mut files = Vec::new(alloc);
    if let Some(names) = matches.get_strs("FILE") {
        for name in names {
            files.push(String::from_str(alloc, name)?)?;
        }
    }
    Ok(files)
}

/// Returns the choice of colours.
fn color_of(matches: &ArgMatches<'_>) -> Color {
    match matches.get_str("color") {
        Some("always") => Color::Always,
        Some("never") => Color::Never,
        _ => Color::Auto,
    }
}

/// Returns the request of the command `check`.
fn check_of(alloc: Global, matches: &ArgMatches<'_>) -> Result<Request, AllocError> {
    Ok(Request {
        task: Task::Check,
        rows: Some(0),
        wide: true,
        color: Color::Auto,
        samples: Rows::Text,
        track: None,
        beyond: false,
        options: ALL_SAMPLES,
        checks: Checks {
            json: matches.get_flag("json"),
            strict: matches.get_flag("strict"),
            media: matches.get_flag("media"),
        },
        files: files_of(alloc, matches)?,
        recursive: matches.get_flag("recursive"),
        place: None,
    })
}

/// Returns the request of the command `info`.
fn info_of(alloc: Global, matches: &ArgMatches<'_>) -> Result<Request, AllocError> {
    Ok(Request {
        task: if matches.get_flag("json") {
            Task::InfoJson
        } else {
            Task::Info
        },
        rows: Some(0),
        wide: true,
        color: Color::Auto,
        samples: Rows::Text,
        track: None,
        beyond: false,
        options: ALL_SAMPLES,
        checks: PLAIN,
        files: files_of(alloc, matches)?,
        recursive: matches.get_flag("recursive"),
        place: None,
    })
}

/// Returns the request of the command `samples`.
fn samples_of(alloc: Global, matches: &ArgMatches<'_>) -> Result<Request, AllocError> {
    let samples = if matches.get_flag("json") {
        Rows::Json
    } else if matches.get_flag("csv") {
        Rows::Csv
    } else {
        Rows::Text
    };
    Ok(Request {
        task: Task::Samples,
        rows: Some(0),
        wide: true,
        color: Color::Auto,
        samples,
        track: matches.get_one::<u32>("track"),
        beyond: matches.get_flag("beyond"),
        options: SampleOptions {
            seconds: matches.get_flag("seconds"),
            edits: matches.get_flag("edits"),
            sync: matches.get_flag("sync"),
            segments: matches.get_flag("segments"),
        },
        checks: PLAIN,
        files: files_of(alloc, matches)?,
        recursive: false,
        place: None,
    })
}

/// Returns a copy of the value of the argument `name`, or an empty text if it has none.
fn text_of(alloc: Global, matches: &ArgMatches<'_>, name: &str) -> Result<String, AllocError> {
    String::from_str(alloc, matches.get_str(name).unwrap_or(""))
}

/// Returns what the command `get` writes.
fn form_of(matches: &ArgMatches<'_>) -> GetForm {
    if matches.get_flag("json") {
        GetForm::Json
    } else if matches.get_flag("raw") {
        GetForm::Raw
    } else if matches.get_flag("content") {
        GetForm::Content
    } else if matches.get_str("field").is_some() {
        GetForm::Field
    } else {
        GetForm::Tree
    }
}

/// Returns the request of the command `get`.
fn get_of(alloc: Global, matches: &ArgMatches<'_>) -> Result<Request, AllocError> {
    let form = form_of(matches);
    Ok(Request {
        task: if form == GetForm::Json {
            Task::Json
        } else {
            Task::Tree
        },
        rows: None,
        wide: false,
        color: color_of(matches),
        samples: Rows::Text,
        track: None,
        beyond: false,
        options: ALL_SAMPLES,
        checks: PLAIN,
        files: files_of(alloc, matches)?,
        recursive: false,
        place: Some(Place {
            path: text_of(alloc, matches, "PATH")?,
            form,
            field: text_of(alloc, matches, "field")?,
        }),
    })
}

/// Returns the request of the command `diff`.
fn diff_of(alloc: Global, matches: &ArgMatches<'_>) -> Result<Diff, AllocError> {
    Ok(Diff {
        first: text_of(alloc, matches, "A")?,
        second: text_of(alloc, matches, "B")?,
        offsets: matches.get_flag("offsets"),
        json: matches.get_flag("json"),
    })
}

/// Returns the request of a command line without a command: to show the trees of files.
fn tree_of(alloc: Global, matches: &ArgMatches<'_>) -> Result<Request, AllocError> {
    let rows = if matches.get_flag("all") {
        None
    } else {
        matches.get_one::<u32>("rows")
    };
    Ok(Request {
        task: if matches.get_flag("json") {
            Task::Json
        } else {
            Task::Tree
        },
        rows,
        wide: matches.get_flag("wide"),
        color: color_of(matches),
        samples: Rows::Text,
        track: None,
        beyond: false,
        options: ALL_SAMPLES,
        checks: PLAIN,
        files: files_of(alloc, matches)?,
        recursive: matches.get_flag("recursive"),
        place: None,
    })
}

/// Returns the request to show files in `matches`.
fn show_of(alloc: Global, matches: &ArgMatches<'_>) -> Result<Request, AllocError> {
    match matches.subcommand() {
        Some(("samples", inner)) => samples_of(alloc, inner),
        Some(("get", inner)) => get_of(alloc, inner),
        Some(("info", inner)) => info_of(alloc, inner),
        Some((_, inner)) => check_of(alloc, inner),
        None => tree_of(alloc, matches),
    }
}

/// Returns the request of a command line. The first of its `words` is the program's name. An error has the text to
/// print and the status with which the program ends: for misuse, the help or the version.
pub(crate) fn request_of(alloc: Global, words: &[String]) -> Result<Asked, Error> {
    let matches = command(alloc)?.try_get_matches_from(words)?;
    match matches.subcommand() {
        Some(("diff", inner)) => Ok(Asked::Diff(diff_of(alloc, inner)?)),
        _ => Ok(Asked::Show(show_of(alloc, &matches)?)),
    }
}
