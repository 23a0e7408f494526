//! The meaning of a media header's language.

ghost use Rattle.std.specs.Prelude.{◌≡◌};
ghost use Rattle.mp4_flat.specs.Language.{language_code};
ghost use Rattle.mp4_show.specs.Language.{language_as, language_kind, shown_language};
ghost use Rattle.mp4_shown.specs.Event.{shown_of};

use mp4_shown::Value;
use mp4_stream::language_code;

/// The meaning of a language's code.
#[derive(Clone, Copy, Debug, PartialEq, Eq)]
pub(crate) enum LanguageKind {
    /// Three letters of five bits each (ISO 639-2).
    Letters,
    /// A language by its number on the Macintosh.
    Macintosh,
    /// No language.
    Unspecified,
}

/// Returns what `code` stands for (ISO/IEC 14496-12, 8.4.2; QuickTime File Format, "Language code values").
fn language_kind(code: u16) -> LanguageKind
    ensures { result ≡ language_kind code }
{
    if code < 0x400 {
        LanguageKind::Macintosh
    } else if code == 0x7FFF {
        LanguageKind::Unspecified
    } else {
        LanguageKind::Letters
    }
}

/// Returns a language of this kind, with these `letters` and this `code`.
fn language_as(kind: LanguageKind, letters: &str, code: u16) -> Value<'_>
    ensures { shown_of result ≡ language_as kind letters.now code }
{
    match kind {
        LanguageKind::Letters => Value::Text(letters.as_bytes()),
        LanguageKind::Macintosh => Value::Named(u64::from(code), "Macintosh"),
        LanguageKind::Unspecified => Value::Named(u64::from(code), "unspecified"),
    }
}

/// Returns the language whose code has these `letters`: the letters, or the code if it stands for something else.
pub(crate) fn language_value(letters: &str) -> Value<'_>
    ensures { shown_of result ≡ shown_language letters.now }
{
    let code = language_code(letters);
    language_as(language_kind(code), letters, code)
}
