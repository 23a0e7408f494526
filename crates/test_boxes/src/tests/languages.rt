//! Tests of languages with letters or lengths that no code can express, and with hand-computed codes.

use mp4_stream::{MdhdBox, Text, WriteBox, language_code, language_string};
use std::alloc::Global;

/// Returns a media header with this language.
fn media_header(language: Text) -> MdhdBox {
    MdhdBox {
        version: 0,
        flags: 0,
        creation_time: 0,
        modification_time: 0,
        timescale: 1000,
        duration: 0,
        language,
    }
}

/// Returns whether `mdhd` is written with `code` in the two bytes of its language.
fn is_written(alloc: Global, mdhd: MdhdBox, code: u16) -> bool {
    let mut out = Vec::new(alloc);
    mdhd.write_box(&mut out).is_ok() && out.get(28..30) == Some(u16::to_be_bytes(code).as_slice())
}

/// Returns whether an `mdhd` of `language` is written with `code` in the two bytes of its language.
fn is_written_in_mdhd(alloc: Global, language: &str, code: u16) -> bool {
    match Text::from_str(alloc, language) {
        Ok(language) => is_written(alloc, media_header(language), code),
        Err(_) => false,
    }
}

/// Returns whether `language` has this code, as a number and in the bytes of an `mdhd`.
fn has_code(alloc: Global, language: &str, code: u16) -> bool {
    language_code(language) == code && is_written_in_mdhd(alloc, language, code)
}

/// Returns whether languages with letters beyond ASCII have the codes of their UTF-16 units.
fn letters_have_codes(alloc: Global) -> bool {
    // The five low bits of U+00E9 are 9, and of U+20AC 12. U+10348 is two units, 0xD800 and 0xDF48, whose five low bits
    // are 0 and 8.
    has_code(alloc, "\u{e9}\u{20ac}z", 0x259a)
        && has_code(alloc, "a\u{e9}\u{20ac}", 0x052c)
        && has_code(alloc, "\u{10348}x", 0x0118)
        && has_code(alloc, "z\u{10348}x", 0x6808)
        && has_code(alloc, "zz\u{10348}", 0x6b40)
}

#[test]
fn letters_past_ascii_are_utf16_units(rt: HostRuntime) {
    assert!(rt; letters_have_codes(rt.alloc()));
}

/// Returns whether `code` is read as `letters`.
fn is_read_as(alloc: Global, code: u16, letters: &str) -> bool {
    match language_string(alloc, code) {
        Ok(language) => language.as_str() == letters,
        Err(_) => false,
    }
}

/// Returns whether `language` has the code `code`, and `code` is read as `letters`.
fn becomes(alloc: Global, language: &str, code: u16, letters: &str) -> bool {
    language_code(language) == code && is_read_as(alloc, code, letters)
}

/// Returns whether characters other than lower-case letters are read back as the characters from 0x60 to 0x7f with the
/// same five low bits.
fn other_letters_become_small(alloc: Global) -> bool {
    // A capital letter is 0x20 below the small one, and a digit is 0x30 and its number.
    becomes(alloc, "SWE", 0x4ee5, "swe")
        && becomes(alloc, "Zul", 0x6aac, "zul")
        && becomes(alloc, "aBC", 0x0443, "abc")
        && becomes(alloc, "159", 0x46b9, "quy")
        && becomes(alloc, "@[~", 0x037e, "`{~")
}

/// Returns whether missing letters count as 0, and letters after the third are ignored.
fn missing_letters_are_zero() -> bool {
    language_code("") == 0
        && language_code("s") == 0x4c00
        && language_code("sw") == 0x4ee0
        && language_code("swede") == 0x4ee5
}

#[test]
fn only_five_bits_of_a_letter_are_written(rt: HostRuntime) {
    assert!(rt; other_letters_become_small(rt.alloc()) && missing_letters_are_zero());
}
