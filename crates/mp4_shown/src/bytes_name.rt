//! The name of a run of bytes, and how a person reads it.

ghost use Rattle.std.specs.Prelude.{◌≡◌, ◌&&◌, OnOk};
ghost use Rattle.std.specs.Str.{is_utf8};
ghost use Rattle.mp4_shown.specs.Hands.{Hands};
ghost use Rattle.mp4_shown.specs.Runs.{is_ended, items_of, seen_bytes, shown_items, shown_run, shown_text, unended};

use crate::field_sink::{FieldSink, Result};
use crate::list_name::first;
use crate::value::Value;

/// The look of bytes.
#[derive(Clone, Copy)]
pub enum BytesAs {
    /// As bytes.
    Bytes,
    /// As bytes, unless there are none.
    SomeBytes,
    /// As a count in the first byte, under the second name, and the bytes after it, unless there are none.
    Counted,
    /// As a list of numbers of one byte each, unless there are none.
    Numbers,
    /// As text, and as bytes under the second name if they aren't UTF-8.
    Text,
    /// As text without the byte of 0 that ends it, and as bytes under the second name if that byte is missing or the
    /// others aren't UTF-8.
    Ended,
}

/// The name of a run of bytes, how it is shown, and a second name, of its count or of the bytes beside a text. It is a
/// tuple so that a clause can name a constant that holds it. `run!` writes one.
pub type BytesName = (&'static str, BytesAs, &'static str);

/// Returns whether the last of `bytes` is a 0.
fn is_ended(bytes: &[u8]) -> bool
    ensures { result ≡ is_ended bytes.now }
{
    !bytes.is_empty() && bytes[bytes.len() - 1] == 0
}

/// Returns `bytes` without a last byte of 0.
fn unended(bytes: &[u8]) -> &[u8]
    ensures { result.now ≡ unended bytes.now }
{
    if is_ended(bytes) {
        &bytes[..bytes.len() - 1]
    } else {
        bytes
    }
}

/// Returns whether `bytes` are UTF-8.
#[tactic(auto, using(mp4_frame::specs::TextLaws::utf8_passes, mp4_frame::specs::TextLaws::other_fails))]
fn is_text(bytes: &[u8]) -> bool
    ensures { result ≡ is_utf8 bytes.now }
{
    match std::str::from_utf8(bytes) {
        Ok(_) => true,
        Err(_) => false,
    }
}

/// Returns whether `bytes` are UTF-8 and a 0 that ends them.
fn is_ended_text(bytes: &[u8]) -> bool
    ensures { result ≡ (is_ended bytes.now && is_utf8 (unended bytes.now)) }
{
    is_ended(bytes) && is_text(unended(bytes))
}

/// Hands `text` to a sink, and `bytes` under the second name unless the text says all of them.
fn put_text<K: FieldSink>(
    name: &'static str,
    second: &'static str,
    says_all: bool,
    text: &[u8],
    bytes: &[u8],
    sink: &mut K,
) -> Result<()>
    ensures { OnOk result (Hands K.trace K.after sink.old
        (shown_text name.now second.now says_all text.now bytes.now) sink.new) }
{
    sink.field(name, Value::Text(text))?;
    if says_all {
        return Ok(());
    }
    sink.field(second, Value::Bytes(bytes))
}

/// Hands `numbers` to a sink, each as an item.
fn put_items<K: FieldSink>(numbers: &[u8], sink: &mut K) -> Result<()>
    ensures { OnOk result (Hands K.trace K.after sink.old (items_of numbers.now) sink.new) }
{
    for number in numbers {
        sink.item(Value::Number(u64::from(*number)))?;
    }
    Ok(())
}

/// Hands a list of `numbers` to a sink, at most `rows` of them.
fn put_list<K: FieldSink>(
    name: &'static str,
    rows: usize,
    numbers: &[u8],
    sink: &mut K,
) -> Result<()>
    ensures { OnOk result (Hands K.trace K.after sink.old (shown_items name.now rows numbers.now) sink.new) }
{
    sink.begin_list(name, numbers.len())?;
    put_items(first(numbers, rows), sink)?;
    sink.end_list()
}

/// Hands `bytes` to a sink, under their name.
pub fn put_bytes<K: FieldSink>(
    name: BytesName,
    rows: usize,
    bytes: &[u8],
    sink: &mut K,
) -> Result<()>
    ensures { OnOk result (Hands K.trace K.after sink.old (shown_run (seen_bytes name.entry) rows bytes.now) sink.new) }
{
    let (name, bytes_as, second) = name;
    match bytes_as {
        BytesAs::Bytes => sink.field(name, Value::Bytes(bytes)),
        BytesAs::SomeBytes => {
            if bytes.is_empty() {
                return Ok(());
            }
            sink.field(name, Value::Bytes(bytes))
        }
        BytesAs::Counted => {
            if bytes.is_empty() {
                return Ok(());
            }
            sink.field(second, Value::Number(u64::from(bytes[0])))?;
            sink.field(name, Value::Bytes(&bytes[1..]))
        }
        BytesAs::Numbers => {
            if bytes.is_empty() {
                return Ok(());
            }
            put_list(name, rows, bytes, sink)
        }
        BytesAs::Text => put_text(name, second, is_text(bytes), bytes, bytes, sink),
        BytesAs::Ended => {
            let says_all = is_ended_text(bytes);
            put_text(name, second, says_all, unended(bytes), bytes, sink)
        }
    }
}
