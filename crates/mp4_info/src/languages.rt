//! The language of a track.

ghost use Rattle.std.specs.Prelude.{◌≡◌};
ghost use Rattle.std.specs.Str.{bytes_eq};
ghost use Rattle.mp4_info.specs.Languages.{are_letters, is_letter, language_of, letters_or_und, of_zero, tag_of};
ghost use Rattle.mp4_info.specs.Languages.{without_end};

use mp4_extra_tracks::elng::ElngBox;

/// Returns `bytes` without a zero byte at the end.
fn without_end(bytes: &[u8]) -> &[u8]
    ensures { result.now ≡ without_end bytes.now }
{
    let count = bytes.len();
    if count > 0 && bytes[count - 1] == 0 {
        return &bytes[..count - 1];
    }
    bytes
}

/// Returns the tag of an extended language, or nothing without one.
fn tag_of(elng: &Option<ElngBox>) -> &[u8]
    ensures { result.now ≡ tag_of elng.now }
{
    match elng {
        Some(elng) => without_end(elng.extended_language.as_slice()),
        None => &[],
    }
}

/// Returns whether `byte` is a small letter.
fn is_letter(byte: u8) -> bool
    ensures { result ≡ is_letter byte }
{
    matches!(byte, b'a'..=b'z')
}

/// Returns whether all of `bytes` are small letters.
fn are_letters(bytes: &[u8]) -> bool
    ensures { result ≡ are_letters bytes.now }
{
    for index in 0..bytes.len() {
        if !is_letter(bytes[index]) {
            return false;
        }
    }
    true
}

/// Returns whether `letters` are those of the number 0.
fn are_of_zero(letters: &[u8]) -> bool
    ensures { result ≡ bytes_eq letters.now of_zero }
{
    letters == b"```".as_slice()
}

/// Returns the letters of a media header. The number 0 is English in QuickTime, `eng`. If one of the letters is no
/// small letter, the number is another one of QuickTime, which gives `und`.
pub fn letters_or_und(letters: &[u8]) -> &[u8]
    ensures { result.now ≡ letters_or_und letters.now }
{
    if are_of_zero(letters) {
        b"eng"
    } else if are_letters(letters) {
        letters
    } else {
        b"und"
    }
}

/// Returns the language of a track: the tag of its extended language, unless it is missing or empty, and otherwise
/// `letters`, those of its media header.
pub fn language_of<'a>(elng: &'a Option<ElngBox>, letters: &'a [u8]) -> &'a [u8]
    ensures { result.now ≡ language_of elng.now letters.now }
{
    let tag = tag_of(elng);
    if tag.is_empty() { letters } else { tag }
}
