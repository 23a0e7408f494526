//! The text of a fault.

ghost use Rattle.std.specs.Prelude.{◌≡◌, ◌<◌, ◌++◌, IfOk, IfSome, OnOk, decimal, string_bytes};
ghost use Rattle.std.specs.Char.Escape.{hex_digit_at};
ghost use Rattle.mp4_content.specs.FaultText.{IsFaultText, are_plain, byte_text, bytes_text, bytes_word, error_shown};
ghost use Rattle.mp4_content.specs.FaultText.{foreign_text, front_text, is_plain, why_text};

use crate::foreign::{NotMp4, not_mp4};
use mp4_show::{Result, push_number};
use mp4_stream::Error;
use mp4_walk::TreeBox;
use std::alloc::Global;

/// Returns the hexadecimal digit of `byte` at `place`, a power of 16.
fn digit(place: u32, byte: u8) -> char
    requires { 0 < place }
    ensures digit { result ≡ hex_digit_at place byte }
    ensures ascii { result < 128 }
{
    char::from_digit(u32::from(byte) / place % 16, 16).unwrap_or('0')
}

/// Returns whether `byte` is a character of ASCII that can be printed.
fn is_plain(byte: u8) -> bool
    ensures { result ≡ is_plain byte }
{
    matches!(byte, 0x20..=0x7E)
}

/// Returns whether all of `bytes` are such characters.
fn are_plain(bytes: &[u8]) -> bool
    ensures { result ≡ are_plain bytes.now }
{
    bytes.iter().all(|byte| is_plain(*byte))
}

/// Appends `byte` to `out` as a character of ASCII, or as two hexadecimal digits after `\x`.
fn push_byte(byte: u8, out: &mut String) -> Result<()>
    ensures text { OnOk result (string_bytes out.new ≡ string_bytes out.old ++ byte_text byte) }
{
    if byte == b'"' || byte == b'\\' {
        out.push('\\')?;
        return out.push(char::from(byte));
    }
    if is_plain(byte) {
        return out.push(char::from(byte));
    }
    out.push_str("\\x")?;
    out.push(digit(0x10, byte))?;
    out.push(digit(1, byte))
}

/// Appends each of `bytes` to `out` as `push_byte` does.
fn push_bytes(bytes: &[u8], out: &mut String) -> Result<()>
    ensures text { OnOk result (string_bytes out.new ≡ string_bytes out.old ++ bytes_text bytes.now) }
{
    for byte in bytes {
        push_byte(*byte, out)?;
    }
    Ok(())
}

/// Appends the beginning of a file to `out`: eight characters if it is a text, or otherwise the first four bytes.
#[tactic(auto, unfolding(crate::specs::FaultText::front_text))]
fn push_front(first: &[u8], second: &[u8], out: &mut String) -> Result<()>
    ensures text { OnOk result (string_bytes out.new ≡ string_bytes out.old ++ front_text first.now second.now) }
{
    if are_plain(first) && are_plain(second) {
        out.push('"')?;
        push_bytes(first, out)?;
        push_bytes(second, out)?;
        out.push('"')
    } else {
        push_bytes(first, out)
    }
}

/// Appends the number of bytes of a file to `out`.
fn push_length(length: u64, out: &mut String) -> Result<()>
    ensures text { OnOk result (string_bytes out.new
        ≡ string_bytes out.old ++ (decimal length ++ bytes_word length)) }
{
    push_number(length, out)?;
    out.push_str(if length == 1 { " byte" } else { " bytes" })
}

/// Appends `why` a file is not an MP4 file to `out`.
fn push_why(why: NotMp4, out: &mut String) -> Result<()>
    ensures text { OnOk result (string_bytes out.new ≡ string_bytes out.old ++ why_text why) }
{
    match why {
        NotMp4::Short(length) => {
            out.push_str("has only ")?;
            push_length(length, out)
        }
        NotMp4::Begins(size, code) => {
            out.push_str("begins with ")?;
            push_front(&size.to_be_bytes(), &code.to_be_bytes(), out)
        }
    }
}

/// Appends to `out` that a file is not an MP4 file, and `why`.
pub fn push_foreign(why: NotMp4, out: &mut String) -> Result<()>
    ensures text { OnOk result (string_bytes out.new ≡ string_bytes out.old ++ foreign_text why) }
{
    out.push_str("this is not an MP4 file: it ")?;
    push_why(why, out)
}

/// Returns the text of an error.
fn error_text(alloc: Global, error: &Error) -> Result<String>
    ensures text { IfOk result (λ text. IfSome (error_shown error.now) (λ t. string_bytes text ≡ t)) }
{
    match error {
        Error::IoError => String::from_str(alloc, "unexpected end of input"),
        Error::InvalidData(text) => String::from_str(alloc, text),
        Error::BoxNotFound(name) => format!(in alloc; "{name} not found"),
        _ => format!(in alloc; "{error}"),
    }
}

/// Returns the text of a fault of the box `found`: that the file is not an MP4 file, if the box shows that, or the text
/// of `fault`.
pub fn fault_text(alloc: Global, found: &TreeBox, fault: &Error) -> Result<String>
    ensures text { IfOk result (λ text. IsFaultText found.now fault.now (string_bytes text)) }
{
    let Some(why) = not_mp4(found) else {
        return error_text(alloc, fault);
    };
    let mut text = String::new(alloc);
    push_foreign(why, &mut text)?;
    Ok(text)
}
