//! Codes of four characters as text.

ghost use Rattle.std.specs.Prelude.{◌≡◌, ◌++◌, OnOk, string_bytes};
ghost use Rattle.std.specs.List.{list_all};
ghost use Rattle.mp4_show.specs.Texts.{is_printable, code_shown};

use crate::escape::push_digits;
use mp4_shown::Result;
use mp4_shown_json::push_latin;
use mp4_stream::FourCC;

/// Returns whether `byte` is a character that can be printed: of ASCII, or of Latin-1 such as the sign © in `©too`.
fn is_printable(byte: u8) -> bool
    ensures { result ≡ is_printable byte }
{
    matches!(byte, 0x20..=0x7E | 0xA0..=0xFF)
}

/// Returns whether all four characters of `code` can be printed.
fn can_be_printed(code: FourCC) -> bool
    ensures { result ≡ list_all is_printable code.value }
{
    code.value.iter().all(|byte| is_printable(*byte))
}

/// Appends a code: its four characters if all can be printed, or else its hexadecimal digits.
pub fn push_code(code: FourCC, out: &mut String) -> Result<()>
    ensures text { OnOk result (string_bytes out.new ≡ string_bytes out.old ++ code_shown code.value) }
{
    if can_be_printed(code) {
        return push_latin(code, out);
    }
    out.push_str("0x")?;
    push_digits(&code.value, out)
}
