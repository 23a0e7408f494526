//! Numbers in the strings of codecs.

ghost use Rattle.std.specs.Prelude.{◌≡◌, ◌++◌, OnOk, decimal, string_bytes};
ghost use Rattle.mp4_info.specs.Digits.{bit, element, hexadecimal, two_digits, wide_element, zero_before};

use mp4_shown::Result;

/// Appends `number` in decimal digits.
pub fn push_number(number: u64, out: &mut String) -> Result<()>
    ensures text { OnOk result (string_bytes out.new ≡ string_bytes out.old ++ decimal number) }
{
    let mut buffer = itoa::Buffer::new();
    out.push_str(buffer.format(number))
}

/// Returns the zero before a number of one digit, or nothing before a longer one.
fn zero_before(number: u64) -> &'static str
    ensures { result.now ≡ zero_before number }
{
    if number < 10 { "0" } else { "" }
}

/// Appends `number` in at least two decimal digits.
#[tactic(auto, unfolding(crate::specs::Digits::two_digits))]
fn push_two_digits(number: u64, out: &mut String) -> Result<()>
    ensures text { OnOk result (string_bytes out.new ≡ string_bytes out.old ++ two_digits number) }
{
    out.push_str(zero_before(number))?;
    push_number(number, out)
}

/// Appends `number` in hexadecimal digits without zeros at the front, such as `2A`.
pub fn push_hexadecimal(number: u64, out: &mut String) -> Result<()>
    ensures text { OnOk result (string_bytes out.new ≡ string_bytes out.old ++ hexadecimal number) }
{
    write!(out, "{number:X}")
}

/// Appends a period and `number`.
#[tactic(auto, unfolding(crate::specs::Digits::element))]
pub fn push_element(number: u64, out: &mut String) -> Result<()>
    ensures text { OnOk result (string_bytes out.new ≡ string_bytes out.old ++ element number) }
{
    out.push_str(".")?;
    push_number(number, out)
}

/// Appends a period and `number` in at least two decimal digits.
#[tactic(auto, unfolding(crate::specs::Digits::wide_element))]
pub fn push_wide_element(number: u64, out: &mut String) -> Result<()>
    ensures text { OnOk result (string_bytes out.new ≡ string_bytes out.old ++ wide_element number) }
{
    out.push_str(".")?;
    push_two_digits(number, out)
}

/// Returns 1 for a set flag, or 0.
pub fn bit(flag: bool) -> u64
    ensures { result ≡ bit flag }
{
    if flag { 1 } else { 0 }
}
