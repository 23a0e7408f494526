//! Characters that are shown by their numbers, since a terminal may obey them or show them elsewhere.

ghost use Rattle.std.specs.Prelude.{◌≡◌, ◌++◌, ◌<◌, OnOk, IfOk, flat_map, string_bytes};
ghost use Rattle.std.specs.List.{list_any};
ghost use Rattle.std.specs.Str.{chars};
ghost use Rattle.std.specs.Char.Escape.{hex_digit_at};
ghost use Rattle.mp4_show.specs.Escaped.{is_escaped, leading_digit, short_digits, four_digits, number_in};
ghost use Rattle.mp4_show.specs.Escaped.{shown_char, escaped, text_escaped, json_escaped};
ghost use Rattle.mp4_show.specs.Texts.{byte_digits};

use mp4_shown::Result;
use std::alloc::Global;

/// A form of a character's number.
#[derive(Clone, Copy, Debug, PartialEq, Eq)]
pub(crate) enum Form {
    /// As `\u{9b}`, and the end of a line as `\n`.
    Text,
    /// As `\u009b` (RFC 8259, section 7).
    Json,
}

/// Returns whether `c` is shown by its number: it is a control character, separates lines or paragraphs, or sets the
/// direction of text (Unicode, Bidi_Control).
pub fn is_escaped(c: char) -> bool
    ensures { result ≡ is_escaped c }
{
    matches!(
        c,
        '\0'..='\u{1F}'
            | '\u{7F}'..='\u{9F}'
            | '\u{61C}'
            | '\u{200E}'..='\u{200F}'
            | '\u{2028}'..='\u{202E}'
            | '\u{2066}'..='\u{2069}'
    )
}

/// Returns the hexadecimal digit of `number` at `place`, a power of 16.
fn hex_digit(place: u32, number: u32) -> char
    requires { 0 < place }
    ensures digit { result ≡ hex_digit_at place number }
    ensures ascii { result < 128 }
{
    char::from_digit(number / place % 16, 16).unwrap_or('0')
}

/// Appends the digit of `number` at `place`, unless it and all before it are 0.
fn push_leading_digit(place: u32, number: u32, out: &mut String) -> Result<()>
    requires { 0 < place }
    ensures text { OnOk result (string_bytes out.new ≡ string_bytes out.old ++ leading_digit place number) }
{
    if number >= place {
        out.push(hex_digit(place, number))?;
    }
    Ok(())
}

/// Appends the hexadecimal digits of `number` without zeros at the front.
fn push_short_digits(number: u32, out: &mut String) -> Result<()>
    ensures text { OnOk result (string_bytes out.new ≡ string_bytes out.old ++ short_digits number) }
{
    push_leading_digit(0x1000, number, out)?;
    push_leading_digit(0x100, number, out)?;
    push_leading_digit(0x10, number, out)?;
    out.push(hex_digit(1, number))?;
    Ok(())
}

/// Appends four hexadecimal digits of `number`.
fn push_four_digits(number: u32, out: &mut String) -> Result<()>
    ensures text { OnOk result (string_bytes out.new ≡ string_bytes out.old ++ four_digits number) }
{
    out.push(hex_digit(0x1000, number))?;
    out.push(hex_digit(0x100, number))?;
    out.push(hex_digit(0x10, number))?;
    out.push(hex_digit(1, number))?;
    Ok(())
}

/// Appends `number` as `form` has the number of a character.
#[tactic(auto, unfolding(crate::specs::Escaped::number_in))]
fn push_number_in(form: Form, number: u32, out: &mut String) -> Result<()>
    ensures text { OnOk result (string_bytes out.new ≡ string_bytes out.old ++ number_in form number) }
{
    match form {
        Form::Text if number == 10 => out.push_str("\\n")?,
        Form::Text => {
            out.push_str("\\u{")?;
            push_short_digits(number, out)?;
            out.push('}')?;
        }
        Form::Json => {
            out.push_str("\\u")?;
            push_four_digits(number, out)?;
        }
    }
    Ok(())
}

/// Appends `c`, by its number if that is how it is shown.
#[tactic(auto, unfolding(crate::specs::Escaped::shown_char))]
pub(crate) fn push_shown(form: Form, c: char, out: &mut String) -> Result<()>
    ensures text { OnOk result (string_bytes out.new ≡ string_bytes out.old ++ shown_char form c) }
{
    if is_escaped(c) {
        return push_number_in(form, u32::from(c), out);
    }
    out.push(c)?;
    Ok(())
}

/// Appends `text` in this form.
pub(crate) fn push_text_in(form: Form, text: &str, out: &mut String) -> Result<()>
    ensures text { OnOk result (string_bytes out.new ≡ string_bytes out.old ++ escaped form text.now) }
{
    for c in text.chars() {
        push_shown(form, c, out)?;
    }
    Ok(())
}

/// Returns whether `text` has a character that is shown by its number.
fn has_escaped(text: &str) -> bool
    ensures { result ≡ list_any is_escaped (chars text.now) }
{
    for c in text.chars() {
        if is_escaped(c) {
            return true;
        }
    }
    false
}

/// Returns `text` with the characters of `is_escaped` as JSON has them. Takes memory only if there are some.
pub(crate) fn into_json(alloc: Global, text: String) -> Result<String>
    ensures text { IfOk result (λ t. string_bytes t ≡ json_escaped (string_bytes text)) }
{
    if !has_escaped(text.as_str()) {
        return Ok(text);
    }
    let mut out = String::new(alloc);
    push_text_in(Form::Json, text.as_str(), &mut out)?;
    Ok(out)
}

/// Appends `text` with a number such as `\u{9b}` for each character of `is_escaped`, and `\n` for the end of a line.
pub fn push_escaped(text: &str, out: &mut String) -> Result<()>
    ensures text { OnOk result (string_bytes out.new ≡ string_bytes out.old ++ text_escaped text.now) }
{
    push_text_in(Form::Text, text, out)
}

/// Appends the two hexadecimal digits of each byte.
pub(crate) fn push_digits(bytes: &[u8], out: &mut String) -> Result<()>
    ensures text { OnOk result (string_bytes out.new ≡ string_bytes out.old ++ flat_map byte_digits bytes.now) }
{
    for byte in bytes {
        out.push(hex_digit(0x10, u32::from(*byte)))?;
        out.push(hex_digit(1, u32::from(*byte)))?;
    }
    Ok(())
}
