//! The differences of two files as lines and as JSON.

use json::Writer;
use mp4_content::{Part, push_path};
use mp4_diff::{Change, Side, What};
use mp4_show::{Result, json_text, push_code, push_escaped, push_number};
use mp4_shown_json::JsonSink;
use mp4_stream::FourCC;
use std::alloc::Global;

/// The number of characters of a value in a line. The rest is left out.
const SHOWN: usize = 60;

/// Appends a code, or a hyphen if there is none.
fn push_name(code: Option<FourCC>, out: &mut String) -> Result<()> {
    match code {
        Some(code) => push_code(code, out),
        None => {
            out.push('-')?;
            Ok(())
        }
    }
}

/// Appends `number` in brackets.
fn push_index(number: u64, out: &mut String) -> Result<()> {
    out.push('[')?;
    push_number(number, out)?;
    out.push(']')?;
    Ok(())
}

/// Appends at most `SHOWN` characters of `text`, with two points if it has more.
fn push_short(alloc: Global, text: &str, out: &mut String) -> Result<()> {
    let mut short = String::new(alloc);
    let mut count: usize = 0;
    for c in text.chars() {
        if count == SHOWN {
            short.push_str("..")?;
            return push_escaped(short.as_str(), out);
        }
        short.push(c)?;
        count = count.saturating_add(1);
    }
    push_escaped(short.as_str(), out)
}

/// Returns the text of some JSON.
fn json_of(bytes: &[u8]) -> &str {
    match std::str::from_utf8(bytes) {
        Ok(text) => text,
        Err(_) => "",
    }
}

/// Appends what a box has of a field, or a hyphen if it lacks the field or the entry.
fn push_side(alloc: Global, side: &Option<Side>, out: &mut String) -> Result<()> {
    match side {
        Some(side) if !side.text.is_empty() => push_short(alloc, json_of(&side.text), out),
        _ => {
            out.push('-')?;
            Ok(())
        }
    }
}

/// Appends two sides, with a bar between them.
fn push_sides(
    alloc: Global,
    first: &Option<Side>,
    second: &Option<Side>,
    out: &mut String,
) -> Result<()> {
    push_side(alloc, first, out)?;
    out.push_str(" | ")?;
    push_side(alloc, second, out)
}

/// Returns the number of entries that a box has of a list, or 0 if it lacks the field.
fn count_of(side: &Option<Side>) -> u64 {
    match side {
        Some(side) => side.count,
        None => 0,
    }
}

/// Appends two numbers, with a bar between them.
fn push_numbers(first: u64, second: u64, out: &mut String) -> Result<()> {
    push_number(first, out)?;
    out.push_str(" | ")?;
    push_number(second, out)
}

/// Appends `codes`, with spaces between them.
fn push_codes(codes: &[Option<FourCC>], out: &mut String) -> Result<()> {
    let mut before = "";
    for code in codes {
        out.push_str(before)?;
        push_name(*code, out)?;
        before = " ";
    }
    Ok(())
}

/// Appends how two files differ at a path, after the path.
fn push_what(alloc: Global, what: &What, out: &mut String) -> Result<()> {
    match what {
        What::OnlyFirst | What::OnlySecond => Ok(()),
        What::Value(name, first, second) => {
            push_escaped(name.as_str(), out)?;
            out.push_str(": ")?;
            push_sides(alloc, first, second, out)
        }
        What::List(name, index, first, second) => {
            push_escaped(name.as_str(), out)?;
            push_index(*index, out)?;
            out.push_str(": ")?;
            push_sides(alloc, first, second, out)?;
            out.push_str("; ")?;
            push_numbers(count_of(first), count_of(second), out)?;
            out.push_str(" entries")?;
            Ok(())
        }
        What::Length(first, second) => {
            push_numbers(*first, *second, out)?;
            out.push_str(" bytes of media data")?;
            Ok(())
        }
        What::Content(at, first, second) => {
            out.push_str("the contents differ at byte ")?;
            push_number(*at, out)?;
            out.push_str("; ")?;
            push_numbers(*first, *second, out)?;
            out.push_str(" bytes")?;
            Ok(())
        }
        What::Order(first, second) => {
            out.push_str("order of boxes differs: ")?;
            push_codes(first, out)?;
            out.push_str(" | ")?;
            push_codes(second, out)
        }
    }
}

/// Appends what begins the line of the difference `what` at `path`.
fn push_front(path: &[Part], what: &What, out: &mut String) -> Result<()> {
    match what {
        What::OnlyFirst => out.push_str("- ")?,
        What::OnlySecond => out.push_str("+ ")?,
        _ => {}
    }
    push_path(path, out)?;
    match what {
        What::OnlyFirst | What::OnlySecond => Ok(()),
        _ if path.is_empty() => Ok(()),
        _ => {
            out.push_str(": ")?;
            Ok(())
        }
    }
}

/// Appends the line of the difference `what` at `path`.
fn push_line(alloc: Global, path: &[Part], what: &What, out: &mut String) -> Result<()> {
    push_front(path, what, out)?;
    push_what(alloc, what, out)?;
    out.push('\n')?;
    Ok(())
}

/// Returns a line for each difference.
pub(crate) fn lines_of(alloc: Global, changes: &[Change]) -> Result<String> {
    let mut out = String::new(alloc);
    for change in changes {
        for what in &change.whats {
            push_line(alloc, &change.path, what, &mut out)?;
        }
    }
    Ok(out)
}

/// Appends `text` as a string of JSON.
fn push_string(alloc: Global, text: &str, out: &mut String) -> Result<()> {
    let mut sink = JsonSink::new(alloc);
    sink.out.string(text)?;
    let text = sink.into_text();
    out.push_str(json_of(&text))?;
    Ok(())
}

/// Appends the name of a member, after a comma.
fn push_key(name: &str, out: &mut String) -> Result<()> {
    out.push_str(",\"")?;
    out.push_str(name)?;
    out.push_str("\":")?;
    Ok(())
}

/// Appends a member with a text.
fn push_member(alloc: Global, name: &str, text: &str, out: &mut String) -> Result<()> {
    push_key(name, out)?;
    push_string(alloc, text, out)
}

/// Appends a member with a number.
fn push_count(name: &str, number: u64, out: &mut String) -> Result<()> {
    push_key(name, out)?;
    push_number(number, out)
}

/// Appends a member with the number of entries that a box has of a list, or `null` if it lacks the field.
fn push_count_of(name: &str, side: &Option<Side>, out: &mut String) -> Result<()> {
    push_key(name, out)?;
    match side {
        Some(side) => push_number(side.count, out),
        None => {
            out.push_str("null")?;
            Ok(())
        }
    }
}

/// Appends a member with what a box has of a field, or `null` if it lacks the field or the entry.
fn push_value(name: &str, side: &Option<Side>, out: &mut String) -> Result<()> {
    push_key(name, out)?;
    match side {
        Some(side) if !side.text.is_empty() => out.push_str(json_of(&side.text))?,
        _ => out.push_str("null")?,
    }
    Ok(())
}

/// Appends a member with an array of codes. A box without one has `null`.
fn push_array(alloc: Global, name: &str, codes: &[Option<FourCC>], out: &mut String) -> Result<()> {
    push_key(name, out)?;
    let mut sink = JsonSink::new(alloc);
    sink.out.begin_array()?;
    for code in codes {
        match code {
            Some(code) => sink.code(*code)?,
            None => sink.out.null()?,
        }
    }
    sink.out.end_array()?;
    let text = sink.into_text();
    out.push_str(json_of(&text))?;
    Ok(())
}

/// Returns the kind of a difference, for JSON.
fn kind_of(what: &What) -> &'static str {
    match what {
        What::OnlyFirst => "only_first",
        What::OnlySecond => "only_second",
        What::Value(_, _, _) => "field",
        What::List(_, _, _, _) => "list",
        What::Length(_, _) => "length",
        What::Content(_, _, _) => "content",
        What::Order(_, _) => "order",
    }
}

/// Appends the members that only differences of this kind have.
fn push_own(alloc: Global, what: &What, out: &mut String) -> Result<()> {
    match what {
        What::OnlyFirst | What::OnlySecond => Ok(()),
        What::Value(name, first, second) => {
            push_member(alloc, "field", name.as_str(), out)?;
            push_value("first", first, out)?;
            push_value("second", second, out)
        }
        What::List(name, index, first, second) => {
            push_member(alloc, "field", name.as_str(), out)?;
            push_count("index", *index, out)?;
            push_count_of("first_count", first, out)?;
            push_count_of("second_count", second, out)?;
            push_value("first", first, out)?;
            push_value("second", second, out)
        }
        What::Length(first, second) => {
            push_count("first_length", *first, out)?;
            push_count("second_length", *second, out)
        }
        What::Content(at, first, second) => {
            push_count("at", *at, out)?;
            push_count("first_length", *first, out)?;
            push_count("second_length", *second, out)
        }
        What::Order(first, second) => {
            push_array(alloc, "first", first, out)?;
            push_array(alloc, "second", second, out)
        }
    }
}

/// Returns the object of the difference `what` at `path`.
fn object_of(alloc: Global, path: &[Part], what: &What) -> Result<String> {
    let mut text = String::new(alloc);
    push_path(path, &mut text)?;
    let mut out = String::new(alloc);
    out.push_str("{\"path\":")?;
    push_string(alloc, text.as_str(), &mut out)?;
    push_member(alloc, "kind", kind_of(what), &mut out)?;
    push_own(alloc, what, &mut out)?;
    out.push('}')?;
    Ok(out)
}

/// Returns the object of the difference `what` at `path` as it is printed: with control characters by their numbers.
fn shown_object(alloc: Global, path: &[Part], what: &What) -> Result<Vec<u8>> {
    let mut sink = JsonSink::new(alloc);
    sink.out = Writer::new(object_of(alloc, path, what)?.into_bytes());
    json_text(alloc, sink)
}

/// Returns an array with an object for each difference.
pub(crate) fn array_of(alloc: Global, changes: &[Change]) -> Result<String> {
    let mut out = String::new(alloc);
    out.push('[')?;
    let mut before = "";
    for change in changes {
        for what in &change.whats {
            out.push_str(before)?;
            let object = shown_object(alloc, &change.path, what)?;
            out.push_str(json_of(&object))?;
            before = ",\n";
        }
    }
    out.push_str("]\n")?;
    Ok(out)
}
