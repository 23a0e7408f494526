//! Products of times and timescales, and rounded fractions.

ghost use Rattle.std.specs.Prelude.{◌≡◌, ◌*◌, ◌<◌, ◌^◌};
ghost use Rattle.mp4_info.specs.Rounding.{rounded};

/// Returns the product of two numbers.
pub fn product(first: u64, second: u32) -> u128
    ensures value { result ≡ first * second }
    ensures below { result < 2 ^ 96 }
{
    u128::from(first) * u128::from(second)
}

/// Returns `numerator` / `denominator`, rounded to a whole number, and up from a half.
pub fn rounded(numerator: u128, denominator: u64) -> u128
    requires divisor { 0 < denominator }
    requires fits { numerator < 2 ^ 120 }
    ensures { result ≡ rounded numerator denominator }
{
    let denominator = u128::from(denominator);
    (2 * numerator + denominator) / (2 * denominator)
}
