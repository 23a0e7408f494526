//! Numbers of seconds in the values of options.

/// The number of digits after the point.
const DIGITS: usize = 9;

/// Returns the number that `digits` are, or `None` if one is no digit or the number is too large.
fn number_of(digits: &str) -> Option<u64> {
    for byte in digits.bytes() {
        if !byte.is_ascii_digit() {
            return None;
        }
    }
    digits.parse::<u64>().ok()
}

/// Returns the number of nanoseconds that `digits` are, after the point of a number of seconds.
fn fraction_of(digits: &str) -> Option<u64> {
    if digits.len() > DIGITS {
        return None;
    }
    let mut number = number_of(digits)?;
    for _ in digits.len()..DIGITS {
        number = number.checked_mul(10)?;
    }
    Some(number)
}

/// Returns the number of nanoseconds in `text`, a number of seconds such as `0` or `2.5`, with at most nine digits
/// after the point. Returns `None` if it is something else.
pub(crate) fn time_in(text: &str) -> Option<u64> {
    let mut parts = text.split('.');
    let whole = number_of(parts.next()?)?;
    let fraction = match parts.next() {
        Some(digits) => fraction_of(digits)?,
        None => 0,
    };
    if parts.next().is_some() {
        return None;
    }
    whole.checked_mul(1_000_000_000)?.checked_add(fraction)
}

/// Returns the number of nanoseconds in `text`, a number of seconds above 0. Returns `None` if it is something else.
pub(crate) fn nanoseconds_in(text: &str) -> Option<u64> {
    let time = time_in(text)?;
    if time == 0 { None } else { Some(time) }
}
