//! The requests that a command line can make.

use crate::argument::{
    Argument, ArgumentError, FieldArgument, brands, duration, field_setting, insertion, language,
    removal, replacement, rotation, tag, time, track_of,
};
use clap::{Arg, ArgAction, ArgMatches, Command, Error};
use mp4_command::{MISUSE, escaped, print_error, unreadable, words_of};
use mp4_io::Failure;
use mp4_remux::forms::FragmentOptions;
use mp4_remux_files::Times;
use std::alloc::{AllocError, Global};

/// The work that a command line asks for.
#[derive(Debug, Drop)]
pub enum Work {
    /// The `moov` before the media data.
    FastStart,
    /// These changes, and fields that are set.
    Edit(Vec<Argument>, Vec<FieldArgument>),
    /// All samples in fragments.
    Fragment(FragmentOptions),
    /// All samples in tables.
    Defragment,
    /// The part between two times.
    Cut(Times),
}

/// A request to write a file.
#[derive(Debug, Drop)]
pub struct Request {
    /// The work to do with the file.
    pub work: Work,
    /// The name of the file to read. A name that is not UTF-8 has a mark.
    pub from: String,
    /// The name of the file to write; `-` is the standard output. If segments are asked for, the name of the directory.
    pub to: String,
}

/// The reason why a command line makes no request.
#[derive(Debug, Drop)]
enum Misuse {
    /// The text and the status of the parser: for a misuse, the help or the version.
    Parsed(Error),
    /// The value of an option has another form than this one.
    Value {
        /// The name of the option.
        option: &'static str,
        /// The value.
        value: String,
        /// The form that it should have.
        form: &'static str,
    },
    /// The value of an option is not UTF-8. The text is the value, escaped.
    NotText(String),
    /// No option asks for an edit.
    NoEdit,
    /// Memory was refused.
    Memory,
}

impl From<AllocError> for Misuse {
    fn from(_error: AllocError) -> Misuse {
        Misuse::Memory
    }
}

/// The end of the help of `faststart`.
const AFTER_FAST_START: &str =
    "Every sample of every track keeps its bytes, times, flags and description. Every other byte stays
the same, except for offsets into the file, which lead to the same bytes as before, and the sizes of boxes in which a
stco becomes a co64. If an offset can't be kept, the file is refused.

Exit status: 0 written, 1 refused (nothing is written), 2 misuse, 3 failed.";

/// The end of the help of `edit`.
const AFTER_EDIT: &str =
    "A PATH is codes and numbers, such as moov/trak[1]/udta; / is the file. It leads to a box of the file or to one in
the moov. Paths are those of IN, whatever the order of the options. TRACK is a track_ID.

A FIELD is names and numbers, such as matrix.a or compatible_brands[1], as mp4inspect --json shows them. A VALUE that is
JSON, such as 2, 0.5, [1, 2] or \"2\", is this value; any other VALUE is a text, such as deu. Fields of a box are set in
the order of the options. Nothing else of it changes: a box that isn't in its normal form is refused.

Every sample of every track keeps its bytes, times, flags and description. Every other box stays the same too, except
for the named boxes, the sizes of the boxes around them, and offsets into the file, which lead to the same bytes as
before; a stco may become a co64. So no edit may change a sample table (stbl) or a fragment (moof): it is refused.

A dropped track has no samples any more. Its trak and trex are removed, and its traf become free boxes of the same
length. Its media data stay where they are, and so do references to it. All other tracks keep every sample.

Exit status: 0 written, 1 refused (nothing is written), 2 misuse, 3 failed.";

/// The end of the help of `fragment`.
const AFTER_FRAGMENT: &str =
    "Every sample of every track keeps its bytes, times, flags and description. The file is cut at sync samples of the
first video, at the same times in all tracks. Without --duration, it is cut at each of them, and a file without video
every 2 seconds. What fragments can't say, such as auxiliary information of encrypted samples, is refused.

With --segments, the samples are those of init.mp4 and all segments, joined in order.

Exit status: 0 written, 1 refused (nothing is written), 2 misuse, 3 failed.";

/// The end of the help of `defragment`.
const AFTER_DEFRAGMENT: &str =
    "Every sample of every track keeps its bytes, times, flags and description. What tables can't say is refused: a
first sample that is not decoded at 0, and a gap between samples.

Exit status: 0 written, 1 refused (nothing is written), 2 misuse, 3 failed.";

/// The end of the help of `cut`.
const AFTER_CUT: &str =
    "Every sample that is kept has its bytes, duration, rendering offset, flags and description, and the decode times of
a track are less by one number. The samples of the first video are those from its last sync sample at --from or earlier
to the last one, in decode order, that is presented before --to. All other tracks begin when this sync sample is
presented: with their last sync sample at that time or earlier. New edit lists present the time from --from to --to.
OUT has tables, and IN has tables or fragments.

Exit status: 0 written, 1 refused (nothing is written), 2 misuse, 3 failed.";

/// Returns the argument `name` for one file.
fn named<'a>(alloc: Global, name: &'a str, help: &'a str) -> Arg<'a> {
    Arg::new(alloc, name).required(true).help(help)
}

/// Returns the argument for the file to read.
fn input<'a>(alloc: Global) -> Arg<'a> {
    named(alloc, "IN", "File to read; it isn't changed")
}

/// The help for the file to write.
const OUTPUT: &str =
    "File to write, whole or not at all; an existing file is replaced; - is the standard output";

/// Returns the argument for the file to write.
fn output<'a>(alloc: Global) -> Arg<'a> {
    named(alloc, "OUT", OUTPUT)
}

/// Returns the option `name` with a value that is shown as `value`.
fn option<'a>(alloc: Global, name: &'a str, value: &'a str, help: &'a str) -> Arg<'a> {
    Arg::new(alloc, name)
        .long(name)
        .value_name(value)
        .help(help)
}

/// Returns the option `name` with a value, which may be given more than once.
fn repeated<'a>(alloc: Global, name: &'a str, value: &'a str, help: &'a str) -> Arg<'a> {
    option(alloc, name, value, help).action(ArgAction::Append)
}

/// Returns the option `name` without a value.
fn flag<'a>(alloc: Global, name: &'a str, help: &'a str) -> Arg<'a> {
    Arg::new(alloc, name)
        .long(name)
        .action(ArgAction::SetTrue)
        .help(help)
}

/// Returns the command `faststart`.
fn fast_start<'a>(alloc: Global) -> Result<Command<'a>, AllocError> {
    Command::new(alloc, "faststart")
        .about(
            "Write a copy of a file with the moov before the media data, so that a player gets it first",
        )
        .after_help(AFTER_FAST_START)
        .arg(input(alloc))?
        .arg(output(alloc))
}

/// Adds the options of `edit` for boxes.
fn with_boxes<'a>(alloc: Global, command: Command<'a>) -> Result<Command<'a>, AllocError> {
    let remove = "Remove the box at PATH";
    let insert =
        "Insert the boxes of FILE as the last children of PATH, or with PATH:N before its child N, from 0";
    let replace = "Replace the box at PATH by that of FILE";
    let set = "Set a field of the box at PATH, such as moov/mvhd.rate=2";
    let brand =
        "Set the major brand to the first of these codes, and add all of them to the compatible brands";
    command
        .arg(repeated(alloc, "remove", "PATH", remove))?
        .arg(repeated(alloc, "insert", "PATH=FILE", insert))?
        .arg(repeated(alloc, "replace", "PATH=FILE", replace))?
        .arg(repeated(alloc, "set", "PATH.FIELD=VALUE", set))?
        .arg(repeated(alloc, "brand", "BRANDS", brand))
}

/// Adds the options of `edit` for tracks.
fn with_tracks<'a>(alloc: Global, command: Command<'a>) -> Result<Command<'a>, AllocError> {
    let language = "Set the language of a track, such as 1=eng; an elng of it is removed";
    let rotate =
        "Turn the pictures of a track clockwise by 0, 90, 180 or 270 degrees, such as 1=90";
    command
        .arg(repeated(alloc, "language", "TRACK=LANGUAGE", language))?
        .arg(repeated(alloc, "rotate", "TRACK=DEGREES", rotate))?
        .arg(repeated(alloc, "enable", "TRACK", "Enable a track"))?
        .arg(repeated(alloc, "disable", "TRACK", "Disable a track"))?
        .arg(repeated(alloc, "drop-track", "TRACK", "Drop a track"))
}

/// Adds the options of `edit` for tags.
fn with_tags<'a>(alloc: Global, command: Command<'a>) -> Result<Command<'a>, AllocError> {
    let none = "Remove the tags of the movie";
    let key = "Set a tag of iTunes to a text, such as \u{a9}alb=Blue";
    command
        .arg(flag(alloc, "no-tags", none))?
        .arg(repeated(alloc, "title", "TEXT", "Set the tag \u{a9}nam"))?
        .arg(repeated(alloc, "tag", "KEY=VALUE", key))?
        .arg(repeated(
            alloc,
            "cover",
            "FILE",
            "Set the tag covr to a picture, JPEG or PNG",
        ))
}

/// Returns the command `edit`.
fn edit<'a>(alloc: Global) -> Result<Command<'a>, AllocError> {
    let about = "Write a copy of a file with other boxes, a track less, or other tags";
    let command = Command::new(alloc, "edit")
        .about(about)
        .after_help(AFTER_EDIT)
        .arg(input(alloc))?
        .arg(output(alloc))?;
    let command = with_boxes(alloc, command)?;
    let command = with_tracks(alloc, command)?;
    with_tags(alloc, command)
}

/// Adds the options of `fragment` to `command`.
fn with_fragments<'a>(alloc: Global, command: Command<'a>) -> Result<Command<'a>, AllocError> {
    let seconds =
        "Begin a fragment at a sync sample at least SECONDS after the last beginning, such as 2.5";
    let segments =
        "Write segments and an HLS playlist to the directory DIR, which must be empty or new";
    let before = "Write an index of the fragments before them";
    let after = "Write an index of the fragments after them";
    command
        .arg(option(alloc, "duration", "SECONDS", seconds))?
        .arg(flag(alloc, "sidx", before))?
        .arg(flag(alloc, "mfra", after))?
        .arg(
            option(alloc, "segments", "DIR", segments)
                .conflicts_with("OUT")?
                .conflicts_with("sidx")?
                .conflicts_with("mfra")?,
        )
}

/// Returns the command `fragment`.
fn fragment<'a>(alloc: Global) -> Result<Command<'a>, AllocError> {
    let about =
        "Write a copy of a file with its samples in fragments: a moof and an mdat for each group of pictures";
    let command = Command::new(alloc, "fragment")
        .about(about)
        .after_help(AFTER_FRAGMENT)
        .arg(input(alloc))?
        .arg(
            Arg::new(alloc, "OUT")
                .required_unless_present("segments")?
                .help(OUTPUT),
        )?;
    with_fragments(alloc, command)
}

/// Returns the command `defragment`.
fn defragment<'a>(alloc: Global) -> Result<Command<'a>, AllocError> {
    let about =
        "Write a copy of a file with its fragments joined: one moov with tables of all samples, and one mdat";
    Command::new(alloc, "defragment")
        .about(about)
        .after_help(AFTER_DEFRAGMENT)
        .arg(input(alloc))?
        .arg(output(alloc))
}

/// Returns the command `cut`.
fn cut<'a>(alloc: Global) -> Result<Command<'a>, AllocError> {
    let about = "Write the part of a file between two times, without changing its samples";
    let from = "Begin the part at this time, such as 2.5";
    let to = "End the part at this time, or when the file ends";
    Command::new(alloc, "cut")
        .about(about)
        .after_help(AFTER_CUT)
        .arg(option(alloc, "from", "SECONDS", from).required(true))?
        .arg(option(alloc, "to", "SECONDS", to).required(true))?
        .arg(input(alloc))?
        .arg(output(alloc))
}

/// Returns the whole command line.
fn command<'a>(alloc: Global) -> Result<Command<'a>, AllocError> {
    Command::new(alloc, "mp4remux")
        .version("0.1.0")
        .about(
            "Rewrite the container of MP4 files; every sample of every track keeps its bytes, times and description",
        )
        .subcommand_required(true)
        .arg_required_else_help(true)
        .subcommand(fast_start(alloc)?)?
        .subcommand(edit(alloc)?)?
        .subcommand(fragment(alloc)?)?
        .subcommand(defragment(alloc)?)?
        .subcommand(cut(alloc)?)
}

/// Returns the name of the file in the argument `id` of `matches`.
fn name_of(alloc: Global, matches: &ArgMatches<'_>, id: &str) -> Result<String, AllocError> {
    String::from_str(alloc, matches.get_str(id).unwrap_or(""))
}

/// Returns the change that the option `name` with this value asks for.
fn argument(alloc: Global, name: &str, value: &str) -> Result<Argument, ArgumentError> {
    match name {
        "remove" => removal(alloc, value),
        "insert" => insertion(alloc, value),
        "replace" => replacement(alloc, value),
        "brand" => brands(alloc, value),
        "language" => language(value),
        "rotate" => rotation(value),
        "enable" => Ok(Argument::Enable(track_of(value)?, true)),
        "disable" => Ok(Argument::Enable(track_of(value)?, false)),
        "drop-track" => Ok(Argument::DropTrack(track_of(value)?)),
        "title" => Ok(Argument::Title(String::from_str(alloc, value)?)),
        "tag" => tag(alloc, value),
        _ => Ok(Argument::Cover(String::from_str(alloc, value)?)),
    }
}

/// Returns `value`, the value of an option, if it is UTF-8.
fn utf_8<'a>(alloc: Global, value: &'a str) -> Result<&'a str, Misuse> {
    match unreadable(value) {
        Some(shown) => Err(Misuse::NotText(String::from_str(alloc, shown)?)),
        None => Ok(value),
    }
}

/// Returns the misuse of the option `option` with a `value` that has the fault `error`.
fn misuse_of(alloc: Global, option: &'static str, value: &str, error: ArgumentError) -> Misuse {
    match error {
        ArgumentError::Form(form) => match String::from_str(alloc, value) {
            Ok(value) => Misuse::Value {
                option,
                value,
                form,
            },
            Err(_) => Misuse::Memory,
        },
        ArgumentError::Memory => Misuse::Memory,
    }
}

/// Returns the fields that `matches` ask to set, in the order of the options.
fn settings_of(alloc: Global, matches: &ArgMatches<'_>) -> Result<Vec<FieldArgument>, Misuse> {
    let mut settings = Vec::new(alloc);
    let Some(values) = matches.get_strs("set") else {
        return Ok(settings);
    };
    for item in values {
        let value: &str = utf_8(alloc, *item)?;
        match field_setting(alloc, value) {
            Ok(setting) => match settings.push(setting) {
                Ok(()) => {}
                Err(_) => return Err(Misuse::Memory),
            },
            Err(error) => return Err(misuse_of(alloc, "set", value, error)),
        }
    }
    Ok(settings)
}

/// Adds to `arguments` what the option `name` asks for, each time that it is given.
fn add_all(
    alloc: Global,
    matches: &ArgMatches<'_>,
    name: &'static str,
    arguments: &mut Vec<Argument>,
) -> Result<(), Misuse> {
    let Some(values) = matches.get_strs(name) else {
        return Ok(());
    };
    for item in values {
        let value: &str = utf_8(alloc, *item)?;
        match argument(alloc, name, value) {
            Ok(argument) => match arguments.push(argument) {
                Ok(()) => {}
                Err(_) => return Err(Misuse::Memory),
            },
            Err(error) => return Err(misuse_of(alloc, name, value, error)),
        }
    }
    Ok(())
}

/// The options of `edit` that have a value, except `--set`.
const OPTIONS: [&str; 12] = [
    "remove",
    "insert",
    "replace",
    "brand",
    "language",
    "rotate",
    "enable",
    "disable",
    "drop-track",
    "title",
    "tag",
    "cover",
];

/// Returns the changes in `matches`.
fn edit_of(alloc: Global, matches: &ArgMatches<'_>) -> Result<Work, Misuse> {
    let mut arguments = Vec::new(alloc);
    for name in OPTIONS {
        add_all(alloc, matches, name, &mut arguments)?;
    }
    if matches.get_flag("no-tags") {
        match arguments.push(Argument::NoTags) {
            Ok(()) => {}
            Err(_) => return Err(Misuse::Memory),
        }
    }
    let settings = settings_of(alloc, matches)?;
    if arguments.is_empty() && settings.is_empty() {
        return Err(Misuse::NoEdit);
    }
    Ok(Work::Edit(arguments, settings))
}

/// Returns the least number of nanoseconds of a fragment in `matches`, or `None` if it is not given.
fn least_of(alloc: Global, matches: &ArgMatches<'_>) -> Result<Option<u64>, Misuse> {
    let Some(given) = matches.get_str("duration") else {
        return Ok(None);
    };
    let value = utf_8(alloc, given)?;
    match duration(value) {
        Ok(least) => Ok(Some(least)),
        Err(error) => Err(misuse_of(alloc, "duration", value, error)),
    }
}

/// Returns the fragments that `matches` ask for.
fn fragments_of(alloc: Global, matches: &ArgMatches<'_>) -> Result<FragmentOptions, Misuse> {
    Ok(FragmentOptions {
        least: least_of(alloc, matches)?,
        has_sidx: matches.get_flag("sidx"),
        has_mfra: matches.get_flag("mfra"),
        is_segmented: matches.contains_id("segments"),
    })
}

/// Returns the time in `matches` that the option `name` asks for, in nanoseconds.
fn time_of(alloc: Global, matches: &ArgMatches<'_>, name: &'static str) -> Result<u64, Misuse> {
    let value = utf_8(alloc, matches.get_str(name).unwrap_or(""))?;
    match time(value) {
        Ok(nanoseconds) => Ok(nanoseconds),
        Err(error) => Err(misuse_of(alloc, name, value, error)),
    }
}

/// Returns the times of the part that `matches` ask for. The second one is later than the first.
fn times_of(alloc: Global, matches: &ArgMatches<'_>) -> Result<Times, Misuse> {
    let from = time_of(alloc, matches, "from")?;
    let to = time_of(alloc, matches, "to")?;
    if to <= from {
        let value = matches.get_str("to").unwrap_or("");
        return Err(Misuse::Value {
            option: "to",
            value: String::from_str(alloc, value)?,
            form: "expected a time after --from",
        });
    }
    Ok(Times { from, to })
}

/// Returns the request to do `work` with the file IN of `matches`, and to write what the argument `to` names.
fn files_in(
    alloc: Global,
    matches: &ArgMatches<'_>,
    work: Work,
    to: &str,
) -> Result<Request, AllocError> {
    Ok(Request {
        work,
        from: name_of(alloc, matches, "IN")?,
        to: name_of(alloc, matches, to)?,
    })
}

/// Returns the request for the fragments in `matches`.
fn fragment_of(alloc: Global, matches: &ArgMatches<'_>) -> Result<Request, Misuse> {
    let options = fragments_of(alloc, matches)?;
    let to = if options.is_segmented {
        "segments"
    } else {
        "OUT"
    };
    Ok(files_in(alloc, matches, Work::Fragment(options), to)?)
}

/// Returns the request in `matches`.
fn asked(alloc: Global, matches: &ArgMatches<'_>) -> Result<Request, Misuse> {
    match matches.subcommand() {
        Some(("edit", inner)) => {
            let work = edit_of(alloc, inner)?;
            Ok(files_in(alloc, inner, work, "OUT")?)
        }
        Some(("fragment", inner)) => fragment_of(alloc, inner),
        Some(("defragment", inner)) => Ok(files_in(alloc, inner, Work::Defragment, "OUT")?),
        Some(("cut", inner)) => {
            let work = Work::Cut(times_of(alloc, inner)?);
            Ok(files_in(alloc, inner, work, "OUT")?)
        }
        Some((_, inner)) => Ok(files_in(alloc, inner, Work::FastStart, "OUT")?),
        None => Ok(files_in(alloc, matches, Work::FastStart, "OUT")?),
    }
}

/// Returns the request of a command line. The first of its `words` is the program's name.
fn request_of(alloc: Global, words: &[String]) -> Result<Request, Misuse> {
    match command(alloc)?.try_get_matches_from(words) {
        Ok(matches) => asked(alloc, &matches),
        Err(error) => Err(Misuse::Parsed(error)),
    }
}

/// Prints to standard error what is wrong with a command line, or the help or the version. Returns the exit status.
fn tell_misuse(rt: &HostRuntime, misuse: &Misuse) -> Result<u8, Failure> {
    match misuse {
        Misuse::Parsed(error) => return print_error(rt, error),
        Misuse::Value {
            option,
            value,
            form,
        } => {
            let shown = escaped(rt.alloc(), value.as_str())?;
            let _ = eprintln!(rt; "mp4remux: --{option} {shown}: {form}");
        }
        Misuse::NotText(shown) => {
            let _ = eprintln!(rt; "mp4remux: {shown}: this is not UTF-8");
        }
        Misuse::NoEdit => {
            let _ = eprintln!(rt;
                "mp4remux: -: no option asks for an edit; mp4remux edit --help lists them"
            );
        }
        Misuse::Memory => return Err(Failure::Memory),
    }
    Ok(MISUSE)
}

/// Returns the request of the program's command line. If that makes none, prints a message to standard error, or the
/// help or the version, and returns the exit status.
pub(crate) fn requested(rt: &HostRuntime) -> Result<Result<Request, u8>, Failure> {
    let words = words_of(rt.alloc(), rt)?;
    match request_of(rt.alloc(), words.as_slice()) {
        Ok(request) => Ok(Ok(request)),
        Err(misuse) => Ok(Err(tell_misuse(rt, &misuse)?)),
    }
}
