//! Fixed-point numbers.

ghost use Rattle.std.specs.Prelude.{◌≡◌};
ghost use Rattle.mp4_media.specs.FixedPoint.{scaled, scaled_signed, whole, whole_signed};

use std::marker::Model;

/// A fixed-point number. It holds a raw number, which is the value times a denominator. In contracts it is this raw
/// number.
#[derive(Clone, Copy, Debug, PartialEq, Eq)]
pub struct FixedPoint<R> {
    raw: R,
}

/// An unsigned 8.8 number: 8 bits before the point and 8 after it. The denominator is 256.
pub type FixedPointU8 = FixedPoint<u16>;

/// A signed 8.8 number: 8 bits before the point, sign included, and 8 after it. The denominator is 256.
pub type FixedPointI8 = FixedPoint<i16>;

/// An unsigned 16.16 number: 16 bits before the point and 16 after it. The denominator is 65536.
pub type FixedPointU16 = FixedPoint<u32>;

impl<R> Model for FixedPoint<R> {
    ghost Value = { R };

    ghost view = { λ x. x.raw };

    ghost inverse = { λ raw. record { raw = raw } };
}

impl<R: Copy> FixedPoint<R> {
    /// Returns the number with the raw number `raw`.
    pub fn new_raw(raw: R) -> Self
        ensures { result ≡ raw }
    {
        FixedPoint { raw }
    }

    /// Returns the raw number, as it is in a file.
    pub fn raw_value(&self) -> R
        ensures { result ≡ self.now }
    {
        self.raw
    }
}

impl FixedPoint<u16> {
    /// Returns the number with the whole part `value` and no fraction.
    pub fn new(value: u8) -> Self
        ensures { result ≡ scaled 256 value }
    {
        FixedPoint::new_raw(256 * value as u16)
    }

    /// Returns the whole part, without the fraction.
    pub fn value(&self) -> u8
        ensures { result ≡ whole 256 self.now }
    {
        (self.raw / 256) as u8
    }
}

impl FixedPoint<i16> {
    /// Returns the number with the whole part `value` and no fraction.
    pub fn new(value: i8) -> Self
        ensures { result ≡ scaled_signed 256 value }
    {
        FixedPoint::new_raw(256 * value as i16)
    }

    /// Returns the value, rounded towards zero: 0 for every raw number from -255 to 255.
    pub fn value(&self) -> i8
        ensures { result ≡ whole_signed 256 self.now }
    {
        (self.raw / 256) as i8
    }
}

impl FixedPoint<u32> {
    /// Returns the number with the whole part `value` and no fraction.
    pub fn new(value: u16) -> Self
        ensures { result ≡ scaled 65536 value }
    {
        FixedPoint::new_raw(65536 * value as u32)
    }

    /// Returns the whole part, without the fraction.
    pub fn value(&self) -> u16
        ensures { result ≡ whole 65536 self.now }
    {
        (self.raw / 65536) as u16
    }
}
