//! The lines and the JSON objects of faults.

ghost use Rattle.std.specs.Prelude.{◌≡◌, [], ◌∷◌, ◌++◌, codes, decimal, string_bytes, IfOk, OnOk};
ghost use Rattle.mp4_check.specs.FaultValues.{value_of, values_of};
ghost use Rattle.mp4_check.specs.Lines.{IsLine, IsObject, IsShown, Writes, between, fault_tokens, place_tokens};
ghost use Rattle.mp4_check.specs.Lines.{front_text, line_text, position_member, severity_text, text_member, told_after};
ghost use Rattle.mp4_check.specs.LinesLaws.{writes_more, writes_none};
ghost use Rattle.mp4_check.specs.declared.lines.Told.{Told};
ghost use Rattle.mp4_check.specs.declared.lines.Form.TheVariants as forms;
ghost use Rattle.mp4_shown_json.specs.Tokens.{Puts};

use crate::fault::{Fault, Severity};
use crate::fault_form::FaultForm;
use crate::words::words_of;
use mp4_content::{or_memory, path_text};
use mp4_io::{Failure, Output, write_all};
use mp4_show::{Result, json_text, push_number};
use mp4_shown_json::JsonSink;
use std::alloc::Global;
use std::io::Write;

/// The form in which faults are written.
#[derive(Clone, Copy)]
pub enum Form<'a> {
    /// A line each, after the name of the file if there is one.
    Lines(Option<&'a str>),
    /// A JSON object each, with this name of the file.
    Objects(&'a str),
}

/// A summary of the faults that were written.
#[derive(Clone, Copy, Debug, PartialEq, Eq)]
pub struct Told {
    /// True if a fault was written, of any file.
    pub any: bool,
    /// True if an error of this file was written.
    pub failures: bool,
    /// True if a warning of this file was written.
    pub warnings: bool,
}

/// Returns the front of the words of a fault.
fn front_of(severity: Severity) -> &'static str
    ensures { result.now ≡ severity_text severity }
{
    match severity {
        Severity::Failure => "",
        Severity::Warning => "warning: ",
    }
}

/// Appends the name of the file before a line, if there is one.
fn push_front(name: Option<&str>, out: &mut String) -> Result<()>
    ensures { OnOk result (string_bytes out.new ≡ string_bytes out.old ++ front_text name.entry) }
{
    match name {
        Some(name) => {
            out.push_str(name)?;
            out.push_str(": ")?;
            Ok(())
        }
        None => Ok(()),
    }
}

/// Appends the words of a line, after the word of its severity.
fn push_words(severity: Severity, said: &str, out: &mut String) -> Result<()>
    ensures { OnOk result (string_bytes out.new
        ≡ string_bytes out.old ++ (severity_text severity ++ (said.now ++ 10 ∷ []))) }
{
    out.push_str(front_of(severity))?;
    out.push_str(said)?;
    out.push_str("\n")
}

/// Appends the place of a line: a position and a path.
fn push_place(position: u64, path: &str, out: &mut String) -> Result<()>
    ensures { OnOk result (string_bytes out.new
        ≡ string_bytes out.old ++ (decimal position ++ (codes " " ++ (path.now ++ codes ": ")))) }
{
    push_number(position, out)?;
    out.push_str(" ")?;
    out.push_str(path)?;
    out.push_str(": ")
}

/// Appends the line of `fault`: the name of the file if there is one, its position, its path `path` and its words
/// `said`.
fn push_line(
    name: Option<&str>,
    fault: &Fault,
    path: &str,
    said: &str,
    out: &mut String,
) -> Result<()>
    ensures { OnOk result (string_bytes out.new
        ≡ string_bytes out.old ++ line_text (front_text name.entry) (value_of fault.now) path.now said.now) }
{
    push_front(name, out)?;
    push_place(fault.position, path, out)?;
    push_words(fault.what.code().severity(), said, out)
}

/// Returns the line of `fault`, after the name of the file if there is one.
fn line_of(alloc: Global, name: Option<&str>, fault: &Fault) -> Result<Vec<u8>>
    ensures { IfOk result (λ text. IsLine (forms.Lines name.entry) (value_of fault.now) text.items) }
{
    let path = path_text(alloc, &fault.path)?;
    let said = words_of(alloc, fault)?;
    let mut line = String::new(alloc);
    push_line(name, fault, path.as_str(), said.as_str(), &mut line)?;
    Ok(line.into_bytes())
}

/// Writes the member `name` with the text `text`.
fn put_text(name: &str, text: &str, sink: &mut JsonSink) -> Result<()>
    ensures { OnOk result (Puts sink.old.out sink.new.out (text_member name.now text.now)) }
{
    sink.out.key(name)?;
    sink.out.string(text)?;
    Ok(())
}

/// Writes the member with the position `position`.
fn put_position(position: u64, sink: &mut JsonSink) -> Result<()>
    ensures { OnOk result (Puts sink.old.out sink.new.out (position_member position)) }
{
    sink.out.key("position")?;
    sink.out.u64(position)?;
    Ok(())
}

/// Writes the members that say where a fault is: in the file `name`, at the path `path`.
fn put_place(name: &str, fault: &Fault, path: &str, sink: &mut JsonSink) -> Result<()>
    ensures { OnOk result
        (Puts sink.old.out sink.new.out (place_tokens name.now (value_of fault.now) path.now)) }
{
    put_text("file", name, sink)?;
    put_position(fault.position, sink)?;
    put_text("path", path, sink)
}

/// Writes the object of `fault`, with its path `path` and its words `said`.
fn put_fault(name: &str, fault: &Fault, path: &str, said: &str, sink: &mut JsonSink) -> Result<()>
    ensures { OnOk result
        (Puts sink.old.out sink.new.out (fault_tokens name.now (value_of fault.now) path.now said.now)) }
{
    let code = fault.what.code();
    sink.out.begin_object()?;
    put_place(name, fault, path, sink)?;
    put_text("code", code.word(), sink)?;
    put_text("severity", code.severity().word(), sink)?;
    put_text("text", said, sink)?;
    sink.out.end_object()?;
    Ok(())
}

/// Returns the JSON object of `fault`, which is one of the file `name`.
fn object_of(alloc: Global, name: &str, fault: &Fault) -> Result<Vec<u8>>
    ensures { IfOk result (λ text. IsObject name.now (value_of fault.now) text.items) }
{
    let path = path_text(alloc, &fault.path)?;
    let said = words_of(alloc, fault)?;
    let mut sink = JsonSink::new(alloc);
    put_fault(name, fault, path.as_str(), said.as_str(), &mut sink)?;
    json_text(alloc, sink)
}

/// Returns the text of `fault` in the form `form`.
fn text_of(alloc: Global, fault: &Fault, form: Form<'_>) -> Result<Vec<u8>>
    ensures { IfOk result (λ text. IsShown form.entry (value_of fault.now) text.items) }
{
    match form {
        Form::Lines(name) => line_of(alloc, name, fault),
        Form::Objects(name) => object_of(alloc, name, fault),
    }
}

/// Returns the text between two faults.
fn between(form: Form<'_>, any: bool) -> &'static str
    ensures { result.now ≡ between form.entry any }
{
    match form {
        Form::Objects(_) if any => ",\n",
        _ => "",
    }
}

/// Returns `told` after a fault of this severity.
fn told_after(told: Told, severity: Severity) -> Told
    ensures { result ≡ told_after told severity }
{
    Told {
        any: true,
        failures: told.failures || severity == Severity::Failure,
        warnings: told.warnings || severity == Severity::Warning,
    }
}

/// Writes `fault`. Returns what was written, with it.
fn write_fault<W: Write>(
    alloc: Global,
    fault: &Fault,
    form: Form<'_>,
    told: Told,
    output: &mut Output<W>,
) -> std::result::Result<Told, Failure>
    ensures { IfOk result (λ now. Writes form.entry told (value_of fault.now ∷ [])
        (W.contents output.old.inner) (W.contents output.new.inner) now) }
{
    let text = or_memory(text_of(alloc, fault, form))?;
    write_all(output, between(form, told.any).as_bytes())?;
    write_all(output, &text)?;
    Ok(told_after(told, fault.what.code().severity()))
}

impl<W: Write> FaultForm<Output<W>> for Form<'_> {
    ghost writes = { λ form told vs old new now.
        Writes form told vs (W.contents old.inner) (W.contents new.inner) now };

    ghost writes_none = { λ form told output. writes_none form told (W.contents output.inner) };

    ghost writes_more = { λ form told between now vs ws a b c. writes_more form told between now vs ws
        (W.contents a.inner) (W.contents b.inner) (W.contents c.inner) };

    fn write(
        &self,
        alloc: Global,
        fault: &Fault,
        told: Told,
        output: &mut Output<W>,
    ) -> std::result::Result<Told, Failure> {
        write_fault(alloc, fault, *self, told, output)
    }
}

/// Writes `faults` in the form `form`, in order. Returns what was written, with them.
pub fn write_all_faults<F: FaultForm<O>, O>(
    alloc: Global,
    faults: &[Fault],
    form: F,
    told: Told,
    output: &mut O,
) -> std::result::Result<Told, Failure>
    ensures { IfOk result (λ now. F.writes form told (values_of faults.now) output.old output.new now) }
{
    let mut written = told;
    for fault in faults {
        let more = form.write(alloc, fault, written, output)?;
        written = more;
    }
    Ok(written)
}
