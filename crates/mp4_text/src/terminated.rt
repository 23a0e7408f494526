//! Zero-terminated strings.

ghost use Rattle.std.specs.Prelude.{◌≡◌, ◌↔◌, ◌≤◌, ◌+◌, ◌++◌, IfOk, IsTrue, length, position, take};
ghost use Rattle.mp4_frame.specs.Reading.{Answers, AnswersAs};
ghost use Rattle.mp4_text.specs.Terminated.{is_zero, before_zero, utf8_text, terminated_text, two_texts, after_texts};
ghost use Rattle.mp4_text.specs.Terminated.{text_and_zero, IsTerminable};

use mp4_frame::{Error, Result, Text, expect_bytes, put_bytes, put_u8};
use std::alloc::Global;

/// Returns the index of the first zero byte of `bytes`, or `None` if it has none.
fn first_zero(bytes: &[u8]) -> Option<usize>
    ensures { result ≡ position is_zero bytes.now }
{
    bytes.iter().position(|byte| *byte == 0)
}

/// Returns the bytes from offset `at` up to the first zero byte, without it, or up to the end if there is none.
#[tactic(auto, using(crate::proofs::Zeros::offset_or_length, crate::proofs::Zeros::offset_within))]
fn before_zero(bytes: &[u8], at: usize) -> &[u8]
    ensures { result.now ≡ before_zero bytes.now at }
{
    if bytes.len() < at {
        return &[];
    }
    let rest = &bytes[at..];
    let len = first_zero(rest).unwrap_or(rest.len());
    &rest[..len]
}

/// Returns `bytes` as a string. Fails with invalid data unless they are UTF-8.
#[tactic(auto, using(mp4_frame::specs::TextLaws::utf8_passes, mp4_frame::specs::TextLaws::other_fails))]
fn utf8_text(bytes: &[u8]) -> Result<&str>
    ensures { AnswersAs (λ text. text.now) result (utf8_text bytes.now) }
{
    match str::from_utf8(bytes) {
        Ok(text) => Ok(text),
        Err(_) => Err(Error::InvalidData("invalid utf8")),
    }
}

/// Reads the zero-terminated string at offset `at`. Fails with end of input if there is no zero byte, and with invalid
/// data unless the string is UTF-8.
#[tactic(auto, unfolding(crate::specs::Terminated::terminated_text))]
fn terminated_text_at(alloc: Global, bytes: &[u8], at: usize) -> Result<Text>
    ensures text { Answers result (terminated_text bytes.now at) }
    ensures room { IfOk result (λ text. at + length text + 1 ≤ length bytes.now) }
{
    let text = before_zero(bytes, at);
    expect_bytes(bytes, at, text.len() + 1)?;
    Text::from_str(alloc, utf8_text(text)?)
}

/// Reads two zero-terminated strings, the first at offset `at` and the second after it.
#[tactic(auto, unfolding(crate::specs::Terminated::two_texts))]
pub(crate) fn two_texts_at(alloc: Global, bytes: &[u8], at: usize) -> Result<(Text, Text)>
    ensures texts { Answers result (two_texts bytes.now at) }
    ensures room { IfOk result (λ texts. after_texts at texts ≤ length bytes.now) }
{
    let first = terminated_text_at(alloc, bytes, at)?;
    let second = terminated_text_at(alloc, bytes, at + first.len() + 1)?;
    Ok((first, second))
}

/// Returns whether a zero byte can end `text`: no byte in it is zero.
pub(crate) fn is_terminable(text: &Text) -> bool
    ensures { IsTrue result ↔ IsTerminable text.now }
{
    text.is_utf8() && !text.as_bytes().contains(&0)
}

/// Writes `text` and a zero byte to `out` at offset `at`, and returns the offset after them.
#[tactic(auto, unfolding(mp4_frame::specs::Bytes::be_bytes))]
pub(crate) fn put_terminated(out: &mut [u8], at: usize, text: &[u8]) -> usize
    requires { at + length (text_and_zero text.now) ≤ length out.old }
    ensures next { result ≡ at + length (text_and_zero text.now) }
    ensures put { take result out.new ≡ take at out.old ++ text_and_zero text.now }
{
    let at = put_bytes(out, at, text);
    put_u8(out, at, 0)
}
