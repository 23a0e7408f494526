//! The language of a media header.

ghost use Rattle.std.specs.Prelude.{◌≡◌, ◌<◌, ◌^◌, IsTrue, Ok};
ghost use Rattle.mp4_flat.specs.Language.{letters};
ghost use Rattle.mp4_shown.specs.Event.{Text as SeenText, seen_text};
ghost use Rattle.mp4_show.specs.TakenShapes.{kind_name, kind_taken, language_taken, letters_taken};
ghost use Rattle.mp4_show.specs.TakenShapes.{without_letters};
ghost use Rattle.mp4_shown.specs.Object.{left};
ghost use Rattle.mp4_shown.specs.Taking.{TakesAs};

use mp4_declared::Context;
use mp4_flat::{language_code, language_string};
use mp4_frame::Text;
use mp4_shown::taken::{
    Error, Object, Reason, Result, TakeShape, agrees, refuse, whole_in, with_suffix,
};
use std::alloc::Global;

/// Returns the letters of `code`.
fn letters_of(alloc: Global, code: u16) -> Result<Text>
    ensures { TakesAs (λ text. text) result (Ok (letters code)) }
{
    match language_string(alloc, code) {
        Ok(letters) => Ok(letters.into()),
        Err(_) => Err(Error::OutOfMemory),
    }
}

/// Returns whether `code` is of a language on the Macintosh, or of none: whether it has no letters.
fn without_letters(code: u64) -> bool
    ensures value { result ≡ without_letters code }
    ensures small { IsTrue result → code < 2 ^ 16 }
{
    code < 0x400 || code == 0x7FFF
}

/// Returns what a code without letters is of.
fn kind_name(code: u64) -> &'static str
    ensures { result.now ≡ kind_name code }
{
    if code == 0x7FFF {
        "unspecified"
    } else {
        "Macintosh"
    }
}

/// Returns the letters `text` of a language, called `name`. Another text is refused.
fn take_letters(alloc: Global, name: &str, text: &str) -> Result<Text>
    ensures { TakesAs (λ letters. letters) result (letters_taken name.now text.now) }
{
    let code = language_code(text);
    let letters = letters_of(alloc, code)?;
    if letters.as_str() == text && !without_letters(u64::from(code)) {
        Ok(letters)
    } else {
        Err(refuse(alloc, name, Reason::OutOfRange))
    }
}

/// Takes what the code `code` of the language `name` is of out, if it is present, and checks it.
fn take_kind(alloc: Global, name: &str, code: u64, object: &mut Object<'_>) -> Result<()>
    ensures { TakesAs (λ _. left object.new) result (kind_taken name.now code (left object.old)) }
{
    let name = with_suffix(alloc, name, "_name")?;
    let value = object.take_out(alloc, name.as_str())?;
    if agrees(&value, Some(kind_name(code))) {
        Ok(())
    } else {
        Err(refuse(alloc, name.as_str(), Reason::Contradiction))
    }
}

/// Takes the language called `name` out: its letters, or its code if that has none.
fn take_language(alloc: Global, name: &str, object: &mut Object<'_>) -> Result<Text>
    ensures { TakesAs (λ letters. (letters, left object.new)) result (language_taken name.now (left object.old)) }
{
    let value = object.take_one(alloc, name)?;
    if let Some(text) = value.as_str() {
        return take_letters(alloc, name, text);
    }
    let code = match whole_in(&value) {
        Ok(code) => code,
        Err(reason) => return Err(refuse(alloc, name, reason)),
    };
    if !without_letters(code) {
        return Err(refuse(alloc, name, Reason::OutOfRange));
    }
    take_kind(alloc, name, code, object)?;
    letters_of(alloc, code as u16)
}

/// The letters of a language.
pub(crate) struct Language;

impl TakeShape for Language {
    type Names = &'static str;

    type Taken = Text;

    ghost Known = { SeenText };

    ghost known = { seen_text };

    ghost taken = { λ name c ms. language_taken name.now ms };

    fn take(
        alloc: Global,
        name: &&'static str,
        _context: Context,
        object: &mut Object<'_>,
    ) -> Result<Text> {
        take_language(alloc, *name, object)
    }
}
