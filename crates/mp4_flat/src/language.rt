//! Language codes: three letters in one number.

ghost use Rattle.std.specs.Prelude.{◌≡◌, ◌%◌, IfOk, IfErr, slice_index, drop, string_bytes};
ghost use Rattle.std.specs.Str.{IsUtf8};
ghost use Rattle.std.specs.Str.Iter.{encode_utf16_rest};
ghost use Rattle.mp4_frame.specs.declared.error.Error.TheVariants.{OutOfMemory};
ghost use Rattle.mp4_flat.specs.Language.{units_left, language_code, letters};

use mp4_frame::Result;
use std::alloc::Global;
use std::str::EncodeUtf16;

/// Takes the next UTF-16 unit from `units`, and returns its five low bits, or 0 if there is none.
fn next_letter(units: &mut EncodeUtf16) -> u16
    requires { IsUtf8 (encode_utf16_rest units.old) }
    ensures letter { result ≡ slice_index (units_left units.old) 0 % 32 }
    ensures left { units_left units.new ≡ drop 1 (units_left units.old) }
    ensures text { IsUtf8 (encode_utf16_rest units.new) }
{
    match units.next() {
        Some(unit) => unit % 32,
        None => 0,
    }
}

/// Returns the code of `language`, a name of three letters (ISO/IEC 14496-12, 8.4.2): the five low bits of each of the
/// first three UTF-16 units, with the first unit in the highest bits. A missing unit counts as 0.
#[tactic(auto, unfolding(crate::specs::Language::language_code))]
pub fn language_code(language: &str) -> u16
    ensures { result ≡ language_code language.now }
{
    let mut units = language.encode_utf16();
    let first = next_letter(&mut units);
    let second = next_letter(&mut units);
    let third = next_letter(&mut units);
    first * 1024 + second * 32 + third
}

/// Returns the three letters of `code`. Each is 0x60 plus five bits of the code, the lowest five for the last letter.
/// The only error is out of memory.
#[tactic(auto, using(crate::specs::LanguageLaws::letters_are_text), unfolding(crate::specs::Language::letters))]
pub fn language_string(alloc: Global, code: u16) -> Result<String>
    ensures letters { IfOk result (λ text. string_bytes text ≡ letters code) }
    ensures memory { IfErr result (λ e. e ≡ OutOfMemory) }
{
    let letters = [
        0x60 + (code / 1024 % 32) as u8,
        0x60 + (code / 32 % 32) as u8,
        0x60 + (code % 32) as u8,
    ];
    match str::from_utf8(&letters) {
        Ok(text) => Ok(String::from_str(alloc, text)?),
        Err(_) => unreachable!(),
    }
}
