//! Fixed-point numbers in decimals.

ghost use Rattle.std.specs.Prelude.{◌≡◌, ◌+◌, ◌*◌, ◌^◌, ◌<◌, ◌≤◌, IfSome, min, option_map};
ghost use Rattle.std.specs.Str.Parse.{AllDigits, digits_value, digits_value_after, starts_with_minus};
ghost use Rattle.mp4_shown.specs.Decimal.{decimal_in, digits_in, down_in, few_bits, few_digits, few_places};
ghost use Rattle.mp4_shown.specs.Decimal.{is_only, nearest, places_in, small_bits, unsigned_part, up_in};

use fast_float::Numeral;

/// A decimal.
#[derive(Clone, Copy)]
pub(crate) struct Decimal {
    /// True if it has a minus.
    pub(crate) negative: bool,
    /// Its digits as one number, below 10^37.
    pub(crate) digits: u128,
    /// The number of digits after the point, at most 37.
    pub(crate) places: u32,
    ghost few: { digits < 10 ^ 37 },
    ghost close: { places ≤ 37 },
}

/// The least number of more than 37 digits.
const MOST: u128 = 10_000_000_000_000_000_000_000_000_000_000_000_000;

/// Returns `number` with the digits `text` after it, or `None` if it gets more than 37 digits.
fn with_digits(number: u128, text: &[u8]) -> Option<u128>
    requires few { number < 10 ^ 37 }
    requires digits { AllDigits 10 text.now }
    ensures value { result ≡ few_digits (digits_value_after 10 number text.now) }
    ensures few { IfSome result (λ n. n < 10 ^ 37) }
{
    let mut number = number;
    for digit in text {
        if number >= MOST / 10 {
            return None;
        }
        number = number * 10 + u128::from(*digit - b'0');
    }
    Some(number)
}

/// Returns the number that the digits `text` are, or 1000 if it is larger.
fn exponent_of(text: &[u8]) -> u32
    requires { AllDigits 10 text.now }
    ensures { result ≡ min (digits_value 10 text.now) 1000 }
{
    let mut number: u32 = 0;
    for digit in text {
        number = (number * 10 + u32::from(*digit - b'0')).min(1000);
    }
    number
}

/// Returns `base`^`count`.
#[tactic(auto, using(crate::proofs::DigitSteps::small_power))]
fn power(base: u128, count: u32) -> u128
    requires small { base ≤ 10 }
    requires short { count ≤ 37 }
    ensures value { result ≡ base ^ count }
    ensures small { result ≤ 10 ^ 37 }
{
    base.pow(count)
}

/// Returns `number`, or `None` if it has more than 37 digits.
fn few_digits(number: u128) -> Option<u128>
    ensures value { result ≡ few_digits number }
    ensures few { IfSome result (λ n. n < 10 ^ 37) }
{
    if number < MOST { Some(number) } else { None }
}

/// Returns `number` with `count` zeros after it, or `None` if it gets more than 37 digits.
fn with_zeros(number: u128, count: u32) -> Option<u128>
    requires { number < 10 ^ 37 }
    ensures value { result ≡ few_digits (number * 10 ^ count) }
    ensures few { IfSome result (λ n. n < 10 ^ 37) }
{
    if number == 0 {
        return Some(0);
    }
    few_digits(number.checked_mul(10u128.checked_pow(count)?)?)
}

/// Returns the number of zeros that the exponent of `numeral` appends, or 1000 if they are more.
fn up_in(numeral: &Numeral<'_>) -> u32
    ensures { result ≡ min (up_in numeral.now) 1000 }
{
    if numeral.is_exponent_negative() {
        0
    } else {
        exponent_of(numeral.exponent())
    }
}

/// Returns the number of digits by which the exponent of `numeral` moves the point, or 1000 if they are more.
fn down_in(numeral: &Numeral<'_>) -> u32
    ensures value { result ≡ min (down_in numeral.now) 1000 }
    ensures few { result ≤ 1000 }
{
    if numeral.is_exponent_negative() {
        exponent_of(numeral.exponent())
    } else {
        0
    }
}

/// Returns the digits of `numeral` as one number, or `None` if they are more than 37.
fn digits_in(numeral: &Numeral<'_>) -> Option<u128>
    ensures value { result ≡ digits_in numeral.now }
    ensures few { IfSome result (λ n. n < 10 ^ 37) }
{
    let whole = with_digits(0, numeral.whole())?;
    let digits = with_digits(whole, numeral.fraction())?;
    with_zeros(digits, up_in(numeral))
}

/// Returns `number`, or `None` if it is above 37.
fn few_places(number: u32) -> Option<u32>
    ensures value { result ≡ few_places number }
    ensures few { IfSome result (λ n. n ≤ 37) }
{
    if number <= 37 { Some(number) } else { None }
}

/// Returns the number of digits of `numeral` after the point, or `None` if they are more than 37.
fn places_in(numeral: &Numeral<'_>) -> Option<u32>
    ensures value { result ≡ places_in numeral.now }
    ensures few { IfSome result (λ n. n ≤ 37) }
{
    let places = numeral.fraction().len();
    if places > 37 {
        return None;
    }
    few_places(places as u32 + down_in(numeral))
}

/// Returns whether `text` has a minus in front.
fn has_minus(text: &[u8]) -> bool
    ensures { result ≡ starts_with_minus text.now }
{
    !text.is_empty() && text[0] == b'-'
}

/// Returns `text` without a minus in front.
fn unsigned_part(text: &[u8]) -> &[u8]
    ensures { result.now ≡ unsigned_part text.now }
{
    if has_minus(text) { &text[1..] } else { text }
}

/// Returns whether `text` is the whole `numeral`, which has a digit.
fn is_only(text: &[u8], numeral: &Numeral<'_>) -> bool
    ensures { result ≡ is_only text.now numeral.now }
{
    numeral.len() == text.len() && numeral.has_digits()
}

/// Returns the decimal that `text` is, or `None` if it is none, or has too many digits.
pub(crate) fn decimal_in(text: &str) -> Option<Decimal>
    ensures { option_map (λ d. (d.negative, (d.digits, d.places))) result ≡ decimal_in text.now }
{
    let bytes = text.as_bytes();
    let rest = unsigned_part(bytes);
    let numeral = Numeral::scan(rest);
    if !is_only(rest, &numeral) {
        return None;
    }
    let digits = digits_in(&numeral)?;
    let places = places_in(&numeral)?;
    Some(Decimal {
        negative: has_minus(bytes),
        digits,
        places,
    })
}

/// Returns the whole number that is nearest to `dividend` / `divisor`, or `None` if it is 2^56 or more.
fn nearest(dividend: u128, divisor: u128) -> Option<u64>
    requires some { 0 < divisor }
    requires whole { dividend < 2 ^ 126 }
    requires part { divisor < 2 ^ 126 }
    ensures { result ≡ small_bits (nearest dividend divisor) }
{
    let number = (2 * dividend + divisor) / (2 * divisor);
    if number < 1 << 56 {
        Some(number as u64)
    } else {
        None
    }
}

/// Returns the number nearest to `digits` * 2^`shift` / 5^`places`, or `None` if it is 2^56 or more.
fn nearest_shifted(digits: u128, shift: u32, places: u32) -> Option<u64>
    requires near { shift ≤ 30 }
    requires close { places ≤ 30 }
    ensures { result ≡ small_bits (nearest (digits * 2 ^ shift) (5 ^ places)) }
{
    let dividend = digits.checked_mul(power(2, shift))?;
    if dividend >= 1 << 126 {
        return None;
    }
    nearest(dividend, power(5, places))
}

/// Returns the number of `bits` after the point that is nearest to `decimal` without its sign, or `None` if it is 2^56
/// or more.
pub(crate) fn fixed_bits(decimal: Decimal, bits: u32) -> Option<u64>
    ensures { result ≡ few_bits bits (decimal.negative, (decimal.digits, decimal.places)) }
{
    let bits = bits.min(30);
    let places = decimal.places;
    if places <= bits {
        nearest_shifted(decimal.digits, bits - places, places)
    } else {
        nearest(decimal.digits, power(5, places) * power(2, places - bits))
    }
}
