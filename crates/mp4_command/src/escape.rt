//! Bytes as text that a terminal shows and doesn't obey.

ghost use Rattle.std.specs.Prelude.{◌≡◌, ◌++◌, ◌<◌, OnOk, flat_map, string_bytes};
ghost use Rattle.std.specs.Char.Escape.{hex_digit_at};
ghost use Rattle.mp4_command.specs.Words.{byte_escaped, bytes_escaped};

use mp4_show::push_escaped;
use std::alloc::AllocError;

/// Returns the hexadecimal digit of `byte` at `place`, a power of 16.
fn hex_digit(place: u32, byte: u8) -> char
    requires { 0 < place }
    ensures digit { result ≡ hex_digit_at place byte }
    ensures ascii { result < 128 }
{
    char::from_digit(u32::from(byte) / place % 16, 16).unwrap_or('0')
}

/// Appends the number of a byte, such as `\xe9`.
fn push_byte(byte: u8, out: &mut String) -> Result<(), AllocError>
    ensures text { OnOk result (string_bytes out.new ≡ string_bytes out.old ++ byte_escaped byte) }
{
    out.push_str("\\x")?;
    out.push(hex_digit(0x10, byte))?;
    out.push(hex_digit(1, byte))?;
    Ok(())
}

/// Appends the numbers of bytes.
fn push_bytes(bytes: &[u8], out: &mut String) -> Result<(), AllocError>
    ensures text { OnOk result (string_bytes out.new ≡ string_bytes out.old ++ flat_map byte_escaped bytes.now) }
{
    for byte in bytes {
        push_byte(*byte, out)?;
    }
    Ok(())
}

/// Appends `bytes` as `push_escaped` does where they are UTF-8, and each other byte as `\xe9`.
pub(crate) fn push_escaped_bytes(bytes: &[u8], out: &mut String) -> Result<(), AllocError>
    ensures text { OnOk result (string_bytes out.new ≡ string_bytes out.old ++ bytes_escaped bytes.now) }
{
    for chunk in bytes.utf8_chunks() {
        push_escaped(chunk.valid(), out)?;
        push_bytes(chunk.invalid(), out)?;
    }
    Ok(())
}
