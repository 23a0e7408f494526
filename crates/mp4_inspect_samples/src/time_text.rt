//! The text of a time.

ghost use Rattle.std.specs.Prelude.{◌≡◌, ◌++◌, ◌<◌, ◌^◌, replicate, min, string_bytes, decimal, OnOk};
ghost use Rattle.std.specs.Fmt.{signed_decimal};
ghost use Rattle.mp4_inspect_samples.specs.Times.{fraction, millionths, seconds_text, shown_text};
ghost use Rattle.mp4_inspect_samples.specs.Times.{signed_seconds, signed_time_text, ticks_of, time_text};

use crate::clock::Clock;
use crate::row::Shown;
use std::alloc::AllocError;

/// The number of millionths in one.
const MILLION: u128 = 1_000_000;

/// Returns `time` ticks in millionths of a second of `ticks` ticks, rounded to the nearest. Halves are rounded up.
fn millionths(ticks: u64, time: u128) -> u128
    requires some { 0 < ticks }
    requires below { time < 2 ^ 100 }
    ensures { result ≡ millionths ticks time }
{
    (2 * time * MILLION + u128::from(ticks)) / (2 * u128::from(ticks))
}

/// Returns `count` zeros, at most 6.
fn zeros(count: usize) -> &'static str
    ensures { result.now ≡ replicate (min count 6) 48 }
{
    match count {
        0 => "",
        1 => "0",
        2 => "00",
        3 => "000",
        4 => "0000",
        5 => "00000",
        _ => "000000",
    }
}

/// Appends `millionths` as a decimal fraction with six digits after the point.
#[tactic(auto, unfolding(crate::specs::Times::fraction))]
fn push_fraction(millionths: u128, out: &mut String) -> Result<(), AllocError>
    ensures { OnOk result (string_bytes out.new ≡ string_bytes out.old ++ fraction millionths) }
{
    let mut whole = itoa::Buffer::new();
    let mut rest = itoa::Buffer::new();
    let digits = rest.format(millionths % MILLION);
    out.push_str(whole.format(millionths / MILLION))?;
    out.push_str(".")?;
    out.push_str(zeros(6usize.saturating_sub(digits.len())))?;
    out.push_str(digits)?;
    Ok(())
}

/// Appends `time` ticks in seconds of `ticks` ticks, or `unknown` if a second has no ticks. A time of 2^100 ticks,
/// which no file states, is out of memory.
fn push_seconds(unknown: &str, ticks: u64, time: u128, out: &mut String) -> Result<(), AllocError>
    ensures { OnOk result (string_bytes out.new ≡ string_bytes out.old ++ seconds_text unknown.now ticks time) }
{
    if ticks == 0 {
        return out.push_str(unknown);
    }
    if time >= 1 << 100 {
        return Err(AllocError);
    }
    push_fraction(millionths(ticks, time), out)
}

/// Appends `number` in decimal digits.
fn push_decimal(number: u128, out: &mut String) -> Result<(), AllocError>
    ensures { OnOk result (string_bytes out.new ≡ string_bytes out.old ++ decimal number) }
{
    let mut buffer = itoa::Buffer::new();
    out.push_str(buffer.format(number))
}

/// Appends `number`, which may be negative, in decimal digits.
fn push_signed_decimal(number: i128, out: &mut String) -> Result<(), AllocError>
    ensures { OnOk result (string_bytes out.new ≡ string_bytes out.old ++ signed_decimal number) }
{
    let mut buffer = itoa::Buffer::new();
    out.push_str(buffer.format(number))
}

/// Returns the number of ticks in a second, or 0 if it is unknown.
fn ticks_of(clock: Clock) -> u64
    ensures value { result ≡ ticks_of clock }
    ensures below { result < 2 ^ 32 }
{
    match clock.timescale {
        Some(ticks) => u64::from(ticks),
        None => 0,
    }
}

/// Appends `time` in the unit of `clock`, or `unknown` if its seconds are unknown.
pub fn push_time(unknown: &str, clock: Clock, time: u64, out: &mut String) -> Result<(), AllocError>
    ensures { OnOk result (string_bytes out.new ≡ string_bytes out.old ++ time_text unknown.now clock time) }
{
    if clock.seconds {
        push_seconds(unknown, ticks_of(clock), u128::from(time), out)
    } else {
        push_decimal(u128::from(time), out)
    }
}

/// Appends `time`, which may be negative, in seconds of `ticks` ticks, or `unknown` if a second has no ticks.
fn push_signed_seconds(
    unknown: &str,
    ticks: u64,
    time: i128,
    out: &mut String,
) -> Result<(), AllocError>
    ensures { OnOk result (string_bytes out.new ≡ string_bytes out.old ++ signed_seconds unknown.now ticks time) }
{
    if time < 0 && ticks > 0 {
        out.push_str("-")?;
    }
    push_seconds(unknown, ticks, time.unsigned_abs(), out)
}

/// Appends `time`, which may be negative, in the unit of `clock`, or `unknown` if its seconds are unknown.
fn push_signed_time(
    unknown: &str,
    clock: Clock,
    time: i128,
    out: &mut String,
) -> Result<(), AllocError>
    ensures { OnOk result (string_bytes out.new ≡ string_bytes out.old ++ signed_time_text unknown.now clock time) }
{
    if clock.seconds {
        push_signed_seconds(unknown, ticks_of(clock), time, out)
    } else {
        push_signed_decimal(time, out)
    }
}

/// Appends a presentation time in the unit of `clock`, or `unknown` if its seconds are unknown, or if there is none.
pub fn push_shown(
    unknown: &str,
    clock: Clock,
    shown: Shown,
    out: &mut String,
) -> Result<(), AllocError>
    ensures { OnOk result (string_bytes out.new ≡ string_bytes out.old ++ shown_text unknown.now clock shown) }
{
    match shown {
        Shown::At(time) => push_signed_time(unknown, clock, time, out),
        Shown::Edited {
            ticks,
            per_second,
            units,
        } => {
            if clock.seconds {
                push_seconds(unknown, per_second, ticks, out)
            } else {
                push_decimal(units, out)
            }
        }
        Shown::Never => out.push_str(unknown),
    }
}
