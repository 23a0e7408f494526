//! The program, from the source of a file to a writer.

ghost use Rattle.std.specs.Prelude.{◌≡◌, ◌||◌, false, string_bytes, IfOk, OnOk, OnErr, IfSome};
ghost use Rattle.std.specs.Io.KnownBytes.{Appends};
ghost use Rattle.mp4_check.specs.SampleFaults.{WritesAll};
ghost use Rattle.mp4_inspect.specs.Checked.{ChecksFile, form_of, is_bad};
ghost use Rattle.mp4_inspect.specs.Heading.{heading_of};
ghost use Rattle.mp4_inspect.specs.Info.{WritesInfo, WritesInfoJson, WritesObject};
ghost use Rattle.mp4_inspect.specs.Json.{comma, WritesJson};
ghost use Rattle.mp4_inspect.specs.Listed.{SamplesFile};
ghost use Rattle.mp4_inspect.specs.Written.{WritesFile, BeginsFile};
ghost use Rattle.mp4_io.specs.Ends.{is_write};
ghost use Rattle.mp4_movie.specs.Infos.{AreInfos};
ghost use Rattle.mp4_movie.specs.Movies.{traks};
ghost use Rattle.mp4_walk.specs.FileBoxes.{boxes_of};

use crate::request::{Checks, Task};
use crate::tree_json::tree_json;
use crate::tree_text::write_tree;
use mp4_check::{Form, Told, write_faults, write_sample_faults};
use mp4_content::Shown;
use mp4_extra_samples::sidx::SidxBox;
use mp4_frame::ReadBox;
use mp4_info::{FileFacts, InfoBoxes, ReadsInfo, facts_of, info_json, info_text, is_known};
use mp4_inspect_samples::{Choice, TrackFault, write_samples};
use mp4_io::{Failure, Output, or_read, write_all};
use mp4_movie::{Movie, TrackInfo};
use mp4_show::Look;
use mp4_walk::{BoxWalk, Source, TreeBox};
use std::alloc::Global;
use std::io::Write;

/// The way in which a file is shown.
#[derive(Clone, Copy, Debug, PartialEq, Eq)]
pub struct Show {
    /// The task: what is written.
    pub task: Task,
    /// The look of a tree as text.
    pub look: Look,
    /// True if there are several files, so that each output has the name of its file.
    pub several: bool,
    /// True if a file was written before.
    pub follows: bool,
    /// The samples that are written, and their form.
    pub samples: Choice,
    /// The form of faults, what is checked, and which faults count.
    pub checks: Checks,
}

/// Returns a walk over a source, its boxes, and its tracks. Reads the headers of all boxes, and the headers of tracks.
pub fn list_file<S: Source>(
    alloc: Global,
    source: S,
) -> Result<(BoxWalk<S>, Vec<TreeBox>, Vec<TrackInfo>), Failure>
    ensures bytes { IfOk result (λ file. file.0.bytes ≡ S.all source) }
    ensures boxes { IfSome (S.all source) (λ bytes. IfOk result (λ file. file.1.items ≡ boxes_of bytes)) }
    ensures tracks { IfSome (S.all source)
        (λ bytes. IfOk result (λ file. AreInfos bytes 0 (traks (boxes_of bytes)) file.2.items)) }
    ensures not_write { is_write result ≡ false }
{
    let mut movie = or_read(Movie::open(alloc, source))?;
    let tracks = or_read(movie.tracks(alloc))?;
    let (walk, boxes) = movie.into_parts();
    Ok((walk, boxes, tracks))
}

/// Returns the heading of the tree of a file, if there are several files: a line with its name, after an empty line if
/// a file was written before.
fn heading_of(alloc: Global, name: &str, show: Show) -> Result<String, Failure>
    ensures { IfOk result (λ heading. string_bytes heading ≡ heading_of show name.now) }
{
    let mut heading = String::new(alloc);
    if show.several {
        if show.follows {
            heading.push('\n')?;
        }
        heading.push_str(name)?;
        heading.push_str(":\n")?;
    }
    Ok(heading)
}

/// Writes the heading of a file with the tracks `tracks`, and the texts of its boxes. Returns whether a box has a
/// fault. After an error a beginning of that text is written.
fn show_boxes<B: Shown, S: Source, W: Write>(
    alloc: Global,
    heading: &str,
    tree: &mut BoxWalk<S>,
    boxes: &[TreeBox],
    tracks: &[TrackInfo],
    look: Look,
    output: &mut Output<W>,
) -> Result<bool, Failure>
    ensures texts { IfSome tree.old.bytes
        (λ bytes. boxes.now ≡ boxes_of bytes
        → IfOk result (λ faulty.
        WritesFile B.known B.named_reading B.shown look heading.now bytes
        (W.contents output.old.inner) (W.contents output.new.inner) faulty)) }
    ensures beginning { OnErr result
        (IfSome tree.old.bytes
        (λ bytes. boxes.now ≡ boxes_of bytes
        → BeginsFile B.known B.named_reading B.shown look heading.now bytes
        (W.contents output.old.inner) (W.contents output.new.inner))) }
    ensures failed { output.new.failed ≡ (output.old.failed || is_write result) }
{
    write_all(output, heading.as_bytes())?;
    write_tree::<B, S, W>(alloc, tree, boxes, tracks, look, output)
}

/// Writes the heading and the tree of a source as text, after reading the headers of all boxes. Returns whether a box
/// has a fault. After an error a beginning of that text is written.
fn show_tree<B: Shown, S: Source, W: Write>(
    alloc: Global,
    heading: &str,
    source: S,
    look: Look,
    output: &mut Output<W>,
) -> Result<bool, Failure>
    ensures texts { IfSome (S.all source)
        (λ bytes. IfOk result
        (λ faulty. WritesFile B.known B.named_reading B.shown look heading.now bytes
        (W.contents output.old.inner) (W.contents output.new.inner) faulty)) }
    ensures beginning { OnErr result
        (IfSome (S.all source)
        (λ bytes. BeginsFile B.known B.named_reading B.shown look heading.now bytes
        (W.contents output.old.inner) (W.contents output.new.inner))) }
    ensures failed { output.new.failed ≡ (output.old.failed || is_write result) }
{
    let (mut walk, boxes, tracks) = list_file(alloc, source)?;
    show_boxes::<B, S, W>(alloc, heading, &mut walk, &boxes, &tracks, look, output)
}

/// Writes a comma if `follows`.
fn write_comma<W: Write>(follows: bool, output: &mut Output<W>) -> Result<(), Failure>
    ensures comma { OnOk result (Appends (W.contents output.old.inner) (W.contents output.new.inner) (comma follows)) }
{
    if follows {
        write_all(output, b",\n")
    } else {
        Ok(())
    }
}

/// Writes the JSON of a file with the boxes `boxes`, after a comma if it follows another. Returns whether a box has a
/// fault.
fn show_objects<B: Shown, S: Source, W: Write>(
    alloc: Global,
    name: &str,
    tree: &mut BoxWalk<S>,
    boxes: &[TreeBox],
    follows: bool,
    output: &mut Output<W>,
) -> Result<bool, Failure>
    ensures json { IfSome tree.old.bytes
        (λ bytes. boxes.now ≡ boxes_of bytes
        → IfOk result (λ faulty. WritesJson B.known B.named_reading B.shown bytes name.now follows
        (W.contents output.old.inner) (W.contents output.new.inner) faulty)) }
{
    let shown = tree_json::<B, S>(alloc, tree, name, boxes)?;
    write_comma(follows, output)?;
    write_all(output, shown.0.as_slice())?;
    Ok(shown.1)
}

/// Writes the JSON of a source, after a comma if it follows another. Returns whether a box has a fault.
fn show_json<B: Shown, S: Source, W: Write>(
    alloc: Global,
    name: &str,
    source: S,
    follows: bool,
    output: &mut Output<W>,
) -> Result<bool, Failure>
    ensures json { IfSome (S.all source)
        (λ bytes. IfOk result (λ faulty. WritesJson B.known B.named_reading B.shown bytes name.now follows
        (W.contents output.old.inner) (W.contents output.new.inner) faulty)) }
{
    let mut tree = or_read(BoxWalk::new(alloc, source))?;
    let boxes = or_read(tree.rest(alloc))?;
    show_objects::<B, S, W>(alloc, name, &mut tree, &boxes, follows, output)
}

/// Returns the form of the faults of the file `name`.
fn form_of(name: &str, show: Show) -> Form<'_>
    ensures { result ≡ form_of show name.entry }
{
    if show.checks.json {
        Form::Objects(name)
    } else if show.several {
        Form::Lines(Some(name))
    } else {
        Form::Lines(None)
    }
}

/// Returns whether the faults in `told` make the run fail.
fn is_bad(told: Told, checks: Checks) -> bool
    ensures { result ≡ is_bad checks told }
{
    told.failures || checks.strict && told.warnings
}

/// Writes the faults of a source, and after them those of its samples if `media`. Returns what was written. `any` says
/// whether a fault of another file was written before.
fn show_faults<B: Shown, S: Source, W: Write>(
    alloc: Global,
    form: Form<'_>,
    any: bool,
    media: bool,
    source: S,
    output: &mut Output<W>,
) -> Result<Told, Failure>
    ensures faults { IfSome (S.all source)
        (λ bytes. IfOk result (WritesAll B.known B.named_reading ⟦<SidxBox as ReadBox>⟧.reads media form.entry any
        bytes (W.contents output.old.inner) (W.contents output.new.inner))) }
{
    let mut walk = or_read(BoxWalk::new(alloc, source))?;
    let boxes = or_read(walk.rest(alloc))?;
    let told = write_faults::<B, S, W>(alloc, &mut walk, &boxes, form, any, output)?;
    if media {
        write_sample_faults(alloc, &mut walk, &boxes, form, told, output)
    } else {
        Ok(told)
    }
}

/// The result of the check of a file.
#[derive(Clone, Copy, Debug, PartialEq, Eq)]
pub struct Checked {
    /// True if it has a fault that makes the run fail.
    pub faulty: bool,
    /// True if a fault of any file was written.
    pub any: bool,
}

/// Writes the faults of the file `name`. `any` says whether a fault of another file was written before.
pub fn check_file<B: Shown, S: Source, W: Write>(
    alloc: Global,
    name: &str,
    source: S,
    show: Show,
    any: bool,
    output: &mut Output<W>,
) -> Result<Checked, Failure>
    ensures check { IfSome (S.all source)
        (λ bytes. IfOk result
        (ChecksFile B.known B.named_reading ⟦<SidxBox as ReadBox>⟧.reads (form_of show name.entry) show.checks bytes any
        (W.contents output.old.inner) (W.contents output.new.inner))) }
{
    let form = form_of(name, show);
    let told = show_faults::<B, S, W>(alloc, form, any, show.checks.media, source, output)?;
    Ok(Checked {
        faulty: is_bad(told, show.checks),
        any: told.any,
    })
}

/// Writes the lines about a source. Returns whether a main value is not known.
fn show_info<S: Source, W: Write>(
    alloc: Global,
    name: &str,
    source: S,
    output: &mut Output<W>,
) -> Result<bool, Failure>
    ensures info { IfSome (S.all source)
        (λ bytes. IfOk result (WritesInfo ⟦<InfoBoxes as ReadsInfo>⟧.readings bytes
        (W.contents output.old.inner) (W.contents output.new.inner))) }
{
    let facts = facts_of(alloc, source)?;
    let text = info_text(alloc, name, &facts)?;
    write_all(output, text.as_str().as_bytes())?;
    Ok(!is_known(&facts))
}

/// Writes the JSON object of `facts`, after a comma if it follows another.
fn write_info_json<W: Write>(
    alloc: Global,
    name: &str,
    facts: &FileFacts,
    follows: bool,
    output: &mut Output<W>,
) -> Result<(), Failure>
    ensures json { OnOk result
        (WritesObject name.now facts.now follows (W.contents output.old.inner) (W.contents output.new.inner)) }
{
    let text = info_json(alloc, name, facts)?;
    write_comma(follows, output)?;
    write_all(output, text.as_slice())?;
    Ok(())
}

/// Writes the JSON object about a source, after a comma if it follows another. Returns whether a main value is not
/// known.
fn show_info_json<S: Source, W: Write>(
    alloc: Global,
    name: &str,
    source: S,
    follows: bool,
    output: &mut Output<W>,
) -> Result<bool, Failure>
    ensures info { IfSome (S.all source)
        (λ bytes. IfOk result (WritesInfoJson ⟦<InfoBoxes as ReadsInfo>⟧.readings bytes name.now follows
        (W.contents output.old.inner) (W.contents output.new.inner))) }
{
    let facts = facts_of(alloc, source)?;
    write_info_json(alloc, name, &facts, follows, output)?;
    Ok(!is_known(&facts))
}

/// Writes the samples or segments of a source, and stores its faults. Returns whether a fault is stored.
fn show_samples<S: Source, W: Write>(
    alloc: Global,
    source: S,
    samples: Choice,
    output: &mut Output<W>,
    faults: &mut Vec<TrackFault>,
) -> Result<bool, Failure>
    ensures samples { IfSome (S.all source)
        (λ bytes. IfOk result
        (SamplesFile samples bytes (W.contents output.old.inner) (W.contents output.new.inner) faults.old.items
        faults.new.items)) }
{
    write_samples(alloc, source, samples, output, faults)?;
    Ok(!faults.as_slice().is_empty())
}

/// Writes the requested output for a file, unless its faults are requested: `check_file` writes these. Returns whether
/// it has a fault. After an error a beginning of the tree is written. `faults` gets the faults of tracks whose samples
/// are written.
pub fn inspect<B: Shown, S: Source, W: Write>(
    alloc: Global,
    name: &str,
    source: S,
    show: Show,
    output: &mut Output<W>,
    faults: &mut Vec<TrackFault>,
) -> Result<bool, Failure>
    ensures tree { show.task ≡ Task.Tree
        → IfSome (S.all source)
        (λ bytes. IfOk result
        (λ faulty. WritesFile B.known B.named_reading B.shown show.look (heading_of show name.now) bytes
        (W.contents output.old.inner) (W.contents output.new.inner) faulty)) }
    ensures beginning { show.task ≡ Task.Tree
        → OnErr result (IfSome (S.all source)
        (λ bytes. BeginsFile B.known B.named_reading B.shown show.look (heading_of show name.now) bytes
        (W.contents output.old.inner) (W.contents output.new.inner))) }
    ensures json { show.task ≡ Task.Json
        → IfSome (S.all source)
        (λ bytes. IfOk result
        (λ faulty. WritesJson B.known B.named_reading B.shown bytes name.now show.follows (W.contents output.old.inner)
        (W.contents output.new.inner) faulty)) }
    ensures info { show.task ≡ Task.Info
        → IfSome (S.all source)
        (λ bytes. IfOk result (WritesInfo ⟦<InfoBoxes as ReadsInfo>⟧.readings bytes
        (W.contents output.old.inner) (W.contents output.new.inner))) }
    ensures info_json { show.task ≡ Task.InfoJson
        → IfSome (S.all source)
        (λ bytes. IfOk result (WritesInfoJson ⟦<InfoBoxes as ReadsInfo>⟧.readings bytes name.now show.follows
        (W.contents output.old.inner) (W.contents output.new.inner))) }
    ensures samples { show.task ≡ Task.Samples
        → IfSome (S.all source)
        (λ bytes. IfOk result
        (SamplesFile show.samples bytes (W.contents output.old.inner) (W.contents output.new.inner) faults.old.items
        faults.new.items)) }
{
    match show.task {
        Task::Tree => {
            let heading = heading_of(alloc, name, show)?;
            show_tree::<B, S, W>(alloc, heading.as_str(), source, show.look, output)
        }
        Task::Json => show_json::<B, S, W>(alloc, name, source, show.follows, output),
        Task::Check => Ok(false),
        Task::Info => show_info(alloc, name, source, output),
        Task::InfoJson => show_info_json(alloc, name, source, show.follows, output),
        Task::Samples => show_samples(alloc, source, show.samples, output, faults),
    }
}
