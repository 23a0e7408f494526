//! Codes of four characters as text.

ghost use Rattle.std.specs.Prelude.{◌≡◌, ◌++◌, OnOk, string_bytes};
ghost use Rattle.mp4_shown_json.specs.Tokens.{code_text};

use mp4_frame::FourCC;
use mp4_shown::Result;

/// Appends the four bytes of a code, each as the character of its number.
pub fn push_latin(code: FourCC, out: &mut String) -> Result<()>
    ensures text { OnOk result (string_bytes out.new ≡ string_bytes out.old ++ code_text code.value) }
{
    for byte in &code.value {
        out.push(char::from(*byte))?;
    }
    Ok(())
}
