//! Fixed-point numbers as decimals.

ghost use Rattle.std.specs.Prelude.{◌≡◌, suc, ◌+◌, ◌*◌, ◌/◌, ◌%◌, ◌^◌, ◌<◌, ◌≤◌, ◌∷◌, [], ◌++◌, OnOk, string_bytes};
ghost use Rattle.mp4_shown_json.specs.Fixed.{fixed_text, fraction};

use mp4_shown::Result;

/// Appends the digit `digit`.
fn push_digit(digit: u64, out: &mut String) -> Result<()>
    requires { digit < 10 }
    ensures text { OnOk result (string_bytes out.new ≡ string_bytes out.old ++ ((48 + digit) ∷ [])) }
{
    out.push(char::from(48 + digit as u8))?;
    Ok(())
}

/// Returns 2^`bits`.
#[tactic(auto, using(crate::proofs::Fraction::power_small, crate::proofs::Fraction::power_positive))]
pub fn power(bits: u32) -> u64
    requires { bits ≤ 30 }
    ensures value { result ≡ 2 ^ bits }
    ensures small { result ≤ 2 ^ 30 }
    ensures positive { 0 < result }
{
    1 << bits
}

/// Returns the digit that comes next if `part` / `one` is left.
#[tactic(auto, using(crate::proofs::Fraction::below_ten))]
fn next_digit(part: u64, one: u64) -> u64
    requires below { part < one }
    requires small { one ≤ 2 ^ 30 }
    ensures digit { result < 10 }
    ensures value { result ≡ part * 10 / one }
{
    part * 10 / one
}

/// Returns what is left after that digit.
#[tactic(auto, using(crate::proofs::Fraction::rest_below))]
fn next_part(part: u64, one: u64) -> u64
    requires below { part < one }
    requires small { one ≤ 2 ^ 30 }
    ensures below { result < one }
    ensures value { result ≡ part * 10 % one }
{
    part * 10 % one
}

/// Appends the digits of `rest` / 2^`bits` after the point.
pub fn push_fraction(rest: u64, bits: u32, out: &mut String) -> Result<()>
    requires short { bits ≤ 30 }
    requires below { rest < 2 ^ bits }
    ensures text { OnOk result (string_bytes out.new
        ≡ string_bytes out.old ++ fraction (suc bits) rest (2 ^ bits)) }
{
    let one = power(bits);
    let mut part = rest;
    let mut left = bits + 1;
    while left > 0 {
        push_digit(next_digit(part, one), out)?;
        part = next_part(part, one);
        if part == 0 {
            return Ok(());
        }
        left -= 1;
    }
    Ok(())
}

/// Appends `number` / 2^`bits` as an exact decimal, of which at most 30 bits are after the point.
#[tactic(auto, using(crate::proofs::Fraction::rest_below))]
pub(crate) fn push_fixed(negative: bool, number: u64, bits: u32, out: &mut String) -> Result<()>
    ensures text { OnOk result (string_bytes out.new ≡ string_bytes out.old ++ fixed_text negative number bits) }
{
    let bits = bits.min(30);
    let one = power(bits);
    if negative {
        out.push('-')?;
    }
    let mut buffer = itoa::Buffer::new();
    out.push_str(buffer.format(number / one))?;
    out.push('.')?;
    push_fraction(number % one, bits, out)
}
