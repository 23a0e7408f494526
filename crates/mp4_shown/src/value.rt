//! The value of a field.

use mp4_frame::FourCC;

/// A number, or the bit of a flag, and what it means.
pub type Meaning = (u64, &'static str);

/// A transformation of video: its numbers, in the order of the file (ISO/IEC 14496-12, 6.2.2). `u`, `v` and `w` have 30
/// bits after the point, the others 16.
#[derive(Clone, Copy, Debug, PartialEq, Eq)]
pub struct Matrix {
    /// The factor of p in m.
    pub a: i32,
    /// The factor of p in n.
    pub b: i32,
    /// The factor of p in z.
    pub u: i32,
    /// The factor of q in m.
    pub c: i32,
    /// The factor of q in n.
    pub d: i32,
    /// The factor of q in z.
    pub v: i32,
    /// The constant term of m.
    pub x: i32,
    /// The constant term of n.
    pub y: i32,
    /// The constant term of z.
    pub w: i32,
}

/// The value of a field, with what it means.
#[derive(Clone, Copy)]
pub enum Value<'a> {
    /// A whole number.
    Number(u64),
    /// A whole number that may be negative.
    Signed(i64),
    /// A number, and what it means.
    Named(u64, &'static str),
    /// Flags: their number, how many hexadecimal digits it has, and what each flag means.
    Flags(u64, usize, &'static [Meaning]),
    /// Seconds since the start of 1904, in UTC (ISO/IEC 14496-12, 8.2.2).
    Date(u64),
    /// A fixed-point number: its bits as a whole number, and how many of them are after the point.
    Fixed(u64, u32),
    /// A fixed-point number that may be negative.
    SignedFixed(i64, u32),
    /// A number with 64 bits of IEEE 754, and the decimal that stands for it in JSON.
    Float(f64, &'a str),
    /// The time in its media at which an edit begins; -1 is an empty edit (ISO/IEC 14496-12, 8.6.6).
    MediaTime(i64),
    /// Bytes that the box keeps as a number: the number, and how many bytes it stands for, at most 8.
    Hex(u64, usize),
    /// A code of four characters.
    Code(FourCC),
    /// Codes of four characters.
    Codes(&'a [FourCC]),
    /// A text that is meant as UTF-8. A sink shows U+FFFD for bytes that aren't.
    Text(&'a [u8]),
    /// Bytes that are no text.
    Bytes(&'a [u8]),
    /// A few numbers, one after the other.
    Numbers(&'a [i16]),
    /// A transformation of video.
    Matrix(&'a Matrix),
}
