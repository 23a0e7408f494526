//! The tree of a file as text.

ghost use Rattle.std.specs.Prelude.{◌≡◌, ℕ, ◌*◌, ◌++◌, ◌||◌, [], false, codes, decimal, length, option_map, replicate};
ghost use Rattle.std.specs.Prelude.{string_bytes, true, IfOk, OnOk, OnErr, IfSome, List};
ghost use Rattle.mp4_io.specs.Ends.{is_read, is_write};
ghost use Rattle.mp4_content.specs.Content.{ShowsAs, is_faulty};
ghost use Rattle.mp4_content.specs.FaultText.{IsFaultText};
ghost use Rattle.mp4_content.specs.Kind.{kind_of};
ghost use Rattle.mp4_inspect.specs.TreeLines.{IsEnd, IsRestOf, IsText, called, called_text, faint_if, head_text};
ghost use Rattle.mp4_inspect.specs.TreeLines.{name_text, place_text, type_text, with_called, with_entry_name};
ghost use Rattle.mp4_inspect.specs.TreeLines.{with_name, with_track, words_if};
ghost use Rattle.mp4_inspect.specs.Written.{Tells, WritesBox, WritesBoxes, BeginsBox, BeginsBoxes};
ghost use Rattle.mp4_show.specs.Lines.{state_of, with_colored};
ghost use Rattle.mp4_show.specs.Texts.{colored};

use mp4_check::track_at;
use mp4_content::{Content, Shown, content_of, either, fault_text, or_memory, put_content};
use mp4_frame::codes::{STSD, TRAK};
use mp4_io::{Failure, Output, write_all};
use mp4_movie::{BoxError, TrackInfo};
use mp4_show::{BoxFields, Look, Result, TextSink, columns, push_code, push_colored, push_number};
use mp4_stream::{Error, FourCC};
use mp4_walk::{BoxWalk, Source, TreeBox, name_of};
use std::alloc::Global;
use std::io::Write;

/// The colour of a box's name: bold.
const BOLD: &str = "1";

/// The colour of a fault: red.
const RED: &str = "31";

/// The colour of a box that is not read: faint.
const FAINT: &str = "2";

/// Appends the code of a box to `out`.
fn push_type(code: Option<FourCC>, out: &mut String) -> Result<()>
    ensures { OnOk result (string_bytes out.new ≡ string_bytes out.old ++ type_text code) }
{
    match code {
        Some(code) => push_code(code, out),
        None => out.push('-'),
    }
}

/// Puts two spaces for each box around a box at this depth into `out`.
fn indent(depth: u64, out: &mut String) -> Result<()>
    ensures { OnOk result (string_bytes out.new ≡ replicate (2 * depth) 32) }
{
    out.clear();
    for _ in 0..depth {
        out.push_str("  ")?;
    }
    Ok(())
}

/// Puts the beginning of the line of a box into `out`: two spaces for each box around it, and its code.
#[tactic(auto, unfolding(crate::specs::TreeLines::name_text))]
fn name_line(alloc: Global, look: Look, found: &TreeBox, out: &mut String) -> Result<()>
    ensures { OnOk result (string_bytes out.new ≡ name_text look found.now) }
{
    let mut name = String::new(alloc);
    push_type(found.code, &mut name)?;
    indent(found.depth, out)?;
    push_colored(look, name.as_str(), BOLD, out)
}

/// Appends the digits of `number` to `out`.
fn push_decimal(number: u64, out: &mut String) -> Result<()>
    ensures { OnOk result (string_bytes out.new ≡ string_bytes out.old ++ decimal number) }
{
    let mut buffer = itoa::Buffer::new();
    out.push_str(buffer.format(number))?;
    Ok(())
}

/// Appends the position and the length of a box to `out`.
fn push_place(found: &TreeBox, out: &mut String) -> Result<()>
    ensures { OnOk result (string_bytes out.new ≡ string_bytes out.old ++ place_text found.now) }
{
    out.push_str(" @")?;
    push_decimal(found.position, out)?;
    out.push_str(" +")?;
    push_decimal(found.length, out)
}

/// Returns a word for the media of a handler.
fn kind_word(handler: FourCC) -> &'static str {
    match &handler.value {
        b"vide" => "video",
        b"soun" => "sound",
        b"text" => "text",
        b"sbtl" | b"subt" => "subtitles",
        b"clcp" => "captions",
        b"hint" => "hints",
        b"tmcd" => "time code",
        b"meta" => "metadata",
        b"pict" => "pictures",
        _ => "media",
    }
}

/// Returns words for the line of a track: its track_ID and the kind of its media. Leaves out what is missing, and a
/// kind that can't be read.
fn track_words(alloc: Global, track: &TrackInfo) -> Result<String> {
    let mut text = String::new(alloc);
    match &track.track_id {
        Ok(id) => {
            text.push_str("track ")?;
            push_number(u64::from(*id), &mut text)?;
        }
        Err(BoxError::Missing { .. }) => {}
        Err(_) => text.push_str("unreadable track_ID")?,
    }
    if let Ok(handler) = &track.handler {
        text.push_str(if text.is_empty() { "" } else { ", " })?;
        text.push_str(kind_word(*handler))?;
        text.push_str(" (")?;
        push_code(*handler, &mut text)?;
        text.push(')')?;
    }
    Ok(text)
}

/// Returns words for the line of the box `found`, if it is one of these tracks.
fn words_at(alloc: Global, found: &TreeBox, tracks: &[TrackInfo]) -> Result<String> {
    match track_at(tracks, found.position) {
        Some(track) => track_words(alloc, track),
        None => Ok(String::new(alloc)),
    }
}

/// Sends words to `sink`, unless there are none.
fn put_words(words: &str, sink: &mut TextSink) -> Result<()>
    ensures { OnOk result (state_of sink.new ≡ words_if (state_of sink.old) words.now) }
{
    if words.is_empty() {
        Ok(())
    } else {
        sink.words(words)
    }
}

/// Sends words about a track to `sink`, if the box is one.
fn put_track(
    alloc: Global,
    found: &TreeBox,
    tracks: &[TrackInfo],
    sink: &mut TextSink,
) -> Result<()>
    ensures { OnOk result ((words : List ℕ)
        × (state_of sink.new ≡ with_track words found.now (state_of sink.old))) }
{
    if found.has_code(FourCC::from(TRAK)) {
        let words = words_at(alloc, found, tracks)?;
        put_words(words.as_str(), sink)?;
        Ok(())
    } else {
        Ok(())
    }
}

/// Returns the name of a box for people, if it has one.
#[tactic(auto, unfolding(crate::specs::TreeLines::called))]
fn called(found: &TreeBox) -> Option<&'static str>
    ensures { option_map (λ name. name.now) result ≡ called found.now.code }
{
    match found.code {
        Some(code) => name_of(code),
        None => None,
    }
}

/// Appends a name in round brackets, after a space if `out` has a word.
fn push_name(name: &str, out: &mut String) -> Result<()>
    ensures { OnOk result (string_bytes out.new ≡ with_name (string_bytes out.old) name.now) }
{
    out.push_str(if out.as_str().is_empty() { "(" } else { " (" })?;
    out.push_str(name)?;
    out.push(')')
}

/// Returns `word`, and the name of a box for people in round brackets.
fn called_text(alloc: Global, word: &str, found: &TreeBox) -> Result<String>
    ensures { IfOk result (λ text. string_bytes text ≡ called_text word.now (called found.now.code)) }
{
    let mut text = String::from_str(alloc, word)?;
    match called(found) {
        Some(name) => {
            push_name(name, &mut text)?;
            Ok(text)
        }
        None => Ok(text),
    }
}

/// Sends words of no importance to `sink`, unless there are none.
fn put_faint(words: &str, sink: &mut TextSink) -> Result<()>
    ensures { OnOk result (state_of sink.new ≡ faint_if (state_of sink.old) words.now) }
{
    if words.is_empty() {
        Ok(())
    } else {
        sink.words_colored(words, FAINT)
    }
}

/// Sends `word` and the name of a box for people, in round brackets, to `sink`.
fn put_called(alloc: Global, word: &str, found: &TreeBox, sink: &mut TextSink) -> Result<()>
    ensures { OnOk result (state_of sink.new ≡ with_called word.now found.now (state_of sink.old)) }
{
    let text = called_text(alloc, word, found)?;
    put_faint(text.as_str(), sink)
}

/// Sends the name of a sample entry for people to `sink`, if the box is one.
fn put_entry_name(alloc: Global, found: &TreeBox, sink: &mut TextSink) -> Result<()>
    ensures { OnOk result (state_of sink.new ≡ with_entry_name found.now (state_of sink.old)) }
{
    if found.context.parent == STSD {
        put_called(alloc, "", found, sink)
    } else {
        Ok(())
    }
}

/// Sends the fault of a box to `sink`.
fn put_fault(alloc: Global, found: &TreeBox, fault: &Error, sink: &mut TextSink) -> Result<()>
    ensures { OnOk result ((text : List ℕ) × IsFaultText found.now fault.now text
        × (state_of sink.new ≡ with_colored (state_of sink.old) (codes "fault: " ++ text) (codes "31"))) }
{
    let mut text = String::from_str(alloc, "fault: ")?;
    let words = fault_text(alloc, found, fault)?;
    text.push_str(words.as_str())?;
    sink.words_colored(text.as_str(), RED)?;
    Ok(())
}

/// Sends the fields of a box, its fault, or why it has none to `sink`.
fn put_end<B: BoxFields + Drop>(
    alloc: Global,
    found: &TreeBox,
    content: &Content<B>,
    sink: &mut TextSink,
) -> Result<()>
    ensures { OnOk result (IsEnd B.shown found.now content.now (state_of sink.old) (state_of sink.new)) }
{
    match content {
        Content::Unread => put_called(alloc, "not read", found, sink),
        Content::Deep => sink.words("not gone into: in 32 boxes"),
        Content::Faulty(fault) => put_fault(alloc, found, fault, sink),
        Content::Boxes | Content::Known(_) | Content::Front(..) => {
            put_content(content, found.context.stsd_version == 0, sink)
        }
    }
}

/// Sends the rest of the line of a box, after its head, to `sink`. `tracks` has the tracks of the file.
fn put_rest<B: BoxFields + Drop>(
    alloc: Global,
    found: &TreeBox,
    content: &Content<B>,
    tracks: &[TrackInfo],
    sink: &mut TextSink,
) -> Result<()>
    ensures { OnOk result (IsRestOf B.shown found.now content.now (state_of sink.old) (state_of sink.new)) }
{
    put_track(alloc, found, tracks, sink)?;
    put_entry_name(alloc, found, sink)?;
    put_end(alloc, found, content, sink)?;
    Ok(())
}

/// Puts the head of a box into `text`: its code and its place.
fn put_head(alloc: Global, look: Look, found: &TreeBox, text: &mut String) -> Result<()>
    ensures { OnOk result (string_bytes text.new ≡ head_text look found.now) }
{
    name_line(alloc, look, found, text)?;
    push_place(found, text)
}

/// Puts the text of a box into `text`. `tracks` has the tracks of the file.
fn put_box<B: BoxFields + Drop>(
    alloc: Global,
    found: &TreeBox,
    content: &Content<B>,
    tracks: &[TrackInfo],
    look: Look,
    text: &mut String,
) -> Result<()>
    ensures { OnOk result (IsText B.shown look found.now content.now (string_bytes text.new)) }
{
    put_head(alloc, look, found, text)?;
    let mut sink = TextSink::new(alloc, look, found.depth, columns(text.as_str()));
    put_rest(alloc, found, content, tracks, &mut sink)?;
    text.push_str(sink.text())?;
    text.push('\n')?;
    Ok(())
}

/// Makes the text of the box `found` of a file with the tracks `tracks`. Returns whether it shows a fault.
fn make_box<B: Shown, S: Source>(
    alloc: Global,
    tree: &mut BoxWalk<S>,
    found: &TreeBox,
    tracks: &[TrackInfo],
    look: Look,
    text: &mut String,
) -> std::result::Result<bool, Failure>
    ensures text { IfSome tree.old.bytes
        (λ bytes. IfOk result
        (λ faulty. Tells B.known B.named_reading B.shown look bytes found.now (string_bytes text.new) faulty)) }
    ensures kept { tree.new ≡ tree.old }
    ensures not_write { is_write result ≡ false }
{
    let content = content_of::<B, S>(alloc, tree, found)?;
    or_memory(put_box(alloc, found, &content, tracks, look, text))?;
    Ok(content.is_faulty())
}

/// Writes the text of the box `found` of a file with the tracks `tracks`. Returns whether it shows a fault. After a
/// failed write a beginning of the text is written, and after another failure nothing.
fn write_box<B: Shown, S: Source, W: Write>(
    alloc: Global,
    tree: &mut BoxWalk<S>,
    found: &TreeBox,
    tracks: &[TrackInfo],
    look: Look,
    text: &mut String,
    output: &mut Output<W>,
) -> std::result::Result<bool, Failure>
    ensures text { IfSome tree.old.bytes
        (λ bytes. IfOk result
        (λ faulty. WritesBox B.known B.named_reading B.shown look bytes found.now (W.contents output.old.inner)
        (W.contents output.new.inner) faulty)) }
    ensures beginning { OnErr result
        (IfSome tree.old.bytes
        (λ bytes. BeginsBox B.known B.named_reading B.shown look bytes found.now (W.contents output.old.inner)
        (W.contents output.new.inner))) }
    ensures not_read { is_read result ≡ true → output.new ≡ output.old }
    ensures kept { tree.new ≡ tree.old }
    ensures failed { output.new.failed ≡ (output.old.failed || is_write result) }
{
    let faulty = make_box::<B, S>(alloc, tree, found, tracks, look, text)?;
    write_all(output, text.as_bytes())?;
    Ok(faulty)
}

/// Writes the tree of a file with the tracks `tracks`: the text of each of its boxes `boxes`, in order. Returns whether
/// one of them shows a fault. After an error a beginning of these texts is written.
pub fn write_tree<B: Shown, S: Source, W: Write>(
    alloc: Global,
    tree: &mut BoxWalk<S>,
    boxes: &[TreeBox],
    tracks: &[TrackInfo],
    look: Look,
    output: &mut Output<W>,
) -> std::result::Result<bool, Failure>
    ensures texts { IfSome tree.old.bytes
        (λ bytes. IfOk result
        (λ faulty. WritesBoxes B.known B.named_reading B.shown look bytes boxes.now (W.contents output.old.inner)
        (W.contents output.new.inner) faulty)) }
    ensures beginning { OnErr result
        (IfSome tree.old.bytes
        (λ bytes. BeginsBoxes B.known B.named_reading B.shown look bytes boxes.now (W.contents output.old.inner)
        (W.contents output.new.inner))) }
    ensures failed { output.new.failed ≡ (output.old.failed || is_write result) }
{
    let mut text = String::new(alloc);
    let mut faulty = false;
    for found in boxes {
        let here = write_box::<B, S, W>(alloc, tree, found, tracks, look, &mut text, output)?;
        faulty = either(faulty, here);
    }
    Ok(faulty)
}
