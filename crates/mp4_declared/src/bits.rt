//! Numbers in bit fields: one field after the other, the highest bits first. All widths are in bits, except where a
//! comment says bytes.

ghost use Rattle.std.specs.Prelude.{◌≡◌, true, ◌≤◌, ◌<◌, ◌+◌, ◌-◌, ◌*◌, ◌/◌, ◌%◌, ◌^◌, ◌++◌, ◌↔◌, IsTrue, length, take};
ghost use Rattle.mp4_frame.specs.Bytes.{number, be_bytes};
ghost use Rattle.mp4_declared.specs.Bits.{bits, bytes_in, joined, split, NumbersFit, are_fields};

use byteorder::{BigEndian, ByteOrder};

/// Returns the number of bytes that fields of these `widths` take.
pub(crate) fn bytes_in<const N: usize>(widths: &[u8; N]) -> usize
    requires { are_fields widths.now ≡ true }
    ensures { result ≡ bytes_in widths.now }
{
    let mut total = 0;
    for k in 0..N {
        total += usize::from(widths[k]);
    }
    total / 8
}

/// Returns the lowest `width` bits of `n`.
fn low_bits(n: u64, width: usize) -> u64
    requires { width ≤ 64 }
    ensures { result ≡ n % 2 ^ width }
{
    if width < 64 { n % (1 << width) } else { n }
}

/// Returns whether `n` fits `width` bits.
pub(crate) fn fits(n: u64, width: usize) -> bool
    ensures { IsTrue result ↔ (n < 2 ^ width) }
{
    if width < 64 { n < 1 << width } else { true }
}

/// Returns the number of `width` bits that begins `from` bits after the start of the byte at offset `at`.
fn bits_at(bytes: &[u8], at: usize, from: usize, width: usize) -> u64
    requires short { from % 8 + width ≤ 64 }
    requires room { at + from / 8 + (from % 8 + width + 7) / 8 ≤ length bytes.now }
    ensures { result ≡ number bytes.now (at + from / 8)
        ((from % 8 + width + 7) / 8) / 2 ^ (8 * ((from % 8 + width + 7) / 8) - (from % 8 + width)) % 2 ^ width }
{
    let end = from % 8 + width;
    let count = (end + 7) / 8;
    if count == 0 {
        return 0;
    }
    let word = BigEndian::read_uint(&bytes[at + from / 8..], count);
    low_bits(word >> (8 * count - end), width)
}

/// Returns the number of `width` bytes at offset `at`.
pub(crate) fn number_at(bytes: &[u8], at: usize, width: usize) -> u64
    requires positive { 1 ≤ width }
    requires short { width ≤ 8 }
    requires room { at + width ≤ length bytes.now }
    ensures { result ≡ number bytes.now at width }
{
    BigEndian::read_uint(&bytes[at..], width)
}

/// Puts `n` in `width` bytes, and returns the offset after them.
pub(crate) fn put_number(out: &mut [u8], at: usize, n: u64, width: usize) -> usize
    requires short { width ≤ 8 }
    requires fits { n < 256 ^ width }
    requires room { at + width ≤ length out.old }
    ensures next { result ≡ at + width }
    ensures put { take result out.new ≡ take at out.old ++ be_bytes width n }
{
    if width == 0 {
        return at;
    }
    BigEndian::write_uint(&mut out[at..], n, width);
    at + width
}

/// Returns the numbers in the fields of these `widths`, the first of which begins at offset `at`.
pub(crate) fn numbers_at<const N: usize>(bytes: &[u8], at: usize, widths: &[u8; N]) -> [u64; N]
    requires fields { are_fields widths.now ≡ true }
    requires room { at + bytes_in widths.now ≤ length bytes.now }
    ensures { result ≡ split widths.now (number bytes.now at (bytes_in widths.now)) }
{
    let mut numbers = [0; N];
    let mut from = 0;
    for k in 0..N {
        let width = usize::from(widths[k]);
        numbers[k] = bits_at(bytes, at, from, width);
        from += width;
    }
    numbers
}

/// Returns whether each of `numbers` fits its field.
pub(crate) fn numbers_fit<const N: usize>(widths: &[u8; N], numbers: &[u64; N]) -> bool
    ensures { IsTrue result ↔ NumbersFit widths.now numbers.now }
{
    for k in 0..N {
        if !fits(numbers[k], usize::from(widths[k])) {
            return false;
        }
    }
    true
}

/// Puts `numbers` in fields of these `widths`, and returns the offset after them.
pub(crate) fn put_numbers<const N: usize>(
    out: &mut [u8],
    at: usize,
    widths: &[u8; N],
    numbers: &[u64; N],
) -> usize
    requires fields { are_fields widths.now ≡ true }
    requires fit { NumbersFit widths.now numbers.now }
    requires room { at + bytes_in widths.now ≤ length out.old }
    ensures next { result ≡ at + bytes_in widths.now }
    ensures put { take result out.new
        ≡ take at out.old ++ be_bytes (bytes_in widths.now) (joined widths.now numbers.now) }
{
    let mut next = at;
    // The bits that don't fill a byte yet, and their number.
    let mut word = 0;
    let mut count = 0;
    for k in 0..N {
        let width = usize::from(widths[k]);
        word = shifted(word, width) + numbers[k];
        count += width;
        next = put_number(out, next, word >> (count % 8), count / 8);
        count %= 8;
        word = low_bits(word, count);
    }
    next
}

/// Returns `n` with `width` bits of 0 after it.
fn shifted(n: u64, width: usize) -> u64
    requires { n * 2 ^ width < 2 ^ 64 }
    ensures { result ≡ n * 2 ^ width }
{
    if width < 64 { n << width } else { 0 }
}
