//! Checks that the tests of boxes share. The contract of a check states, over the definitions, what holds if it
//! succeeds. If it fails, it returns what it found and expected, or the error of a call that should have succeeded.

ghost use Rattle.std.specs.Prelude.{◌≡◌, ℕ, ◌-◌, ◌^◌, ◌<◌, ◌≤◌, [], ◌∷◌, All, min, max, length, IfOk, OnOk, OnErr};
ghost use Rattle.mp4_frame.specs.Reading.{Answers, reading};
ghost use Rattle.test_shared.specs.Checks.{EndsIn, ReadsAs, cut_reading};
ghost use Rattle.test_shared.specs.declared.helpers.outcomes.Kind.TheVariants as kinds;

mod lists;
mod mismatches;
mod outcomes;

pub use lists::{expect_list, expect_list_kind};
pub use mismatches::Mismatch;
use mismatches::{expect_ending, expect_length, expect_position};
use mp4_stream::{BoxHeader, BoxLaws, ByteCursor, Error, ReadBox, WriteBox};
pub use outcomes::{Kind, debug_text, invalid_text, kind_of};
use std::alloc::Global;

/// Reads the box at the front of `bytes`, after its header of 8 bytes, as a box of the size `size`. Returns the result
/// and the position of the cursor after the call.
pub fn read<B: ReadBox + Drop>(alloc: Global, bytes: &[u8], size: u64) -> (Result<B, Error>, u64)
    ensures answer { Answers result.0 (reading B.reads bytes.now 0 size) }
    ensures moved { OnOk result.0 (result.1 ≡ max B.LEAST size) }
    ensures kept { OnErr result.0 (result.1 ≡ 8) }
{
    let mut reader = ByteCursor::new(bytes);
    reader.set_position(8);
    let result = B::read_box(alloc, &mut reader, size);
    (result, reader.position())
}

/// Expects that reading a box of the size `size` from `bytes` has a result of the kind `expected`. After an `Ok` the
/// cursor is at the end of the box, and after an error it has not moved.
pub fn expect_kind<B: ReadBox + Drop>(
    alloc: Global,
    bytes: &[u8],
    size: u64,
    expected: Kind,
) -> Result<(), Mismatch>
    ensures ending { OnOk result (EndsIn expected (reading B.reads bytes.now 0 size)) }
    ensures cursor { OnOk result (expected ≡ kinds.Ok → B.LEAST ≤ size) }
{
    let (result, position) = read::<B>(alloc, bytes, size);
    expect_ending(kind_of(&result), expected, size)?;
    expect_position(position, if expected == Kind::Ok { size } else { 8 })
}

/// Expects that a box of the size `size` is read from `bytes` as `value`, and that the cursor is then at the end of the
/// box.
pub fn expect_value<B: BoxLaws + PartialEq + Drop>(
    alloc: Global,
    value: &B,
    bytes: &[u8],
    size: u64,
) -> Result<(), Mismatch>
    ensures value { OnOk result (ReadsAs B.eq (reading B.reads bytes.now 0 size) value.now) }
    ensures cursor { OnOk result (B.LEAST ≤ size) }
{
    expect_value_to(alloc, value, bytes, size, size)
}

/// Expects that a box of the size `size` is read from `bytes` as `value`, and that the cursor is then at `end`. This is
/// the larger of `size` and the least size of the type.
pub fn expect_value_to<B: BoxLaws + PartialEq + Drop>(
    alloc: Global,
    value: &B,
    bytes: &[u8],
    size: u64,
    end: u64,
) -> Result<(), Mismatch>
    ensures value { OnOk result (ReadsAs B.eq (reading B.reads bytes.now 0 size) value.now) }
    ensures cursor { OnOk result (max B.LEAST size ≡ end) }
{
    let (result, position) = read::<B>(alloc, bytes, size);
    if result? == *value {
        expect_position(position, end)
    } else {
        Err(Mismatch::OtherBox {
            length: bytes.len(),
            size,
        })
    }
}

/// Expects that `value` is written as `size` bytes, which begin with its header, and is read back from them. Returns
/// the bytes.
pub fn expect_written<B: BoxLaws + PartialEq + Drop>(
    alloc: Global,
    value: &B,
    size: u64,
) -> Result<Vec<u8>, Mismatch>
    ensures writable { OnOk result (B.format.Writable value.now) }
    ensures bytes { IfOk result (λ out. out.items ≡ B.format.bytes value.now) }
    ensures size { OnOk result (length (B.format.bytes value.now) ≡ size) }
    ensures read_back { OnOk result (ReadsAs B.eq (reading B.reads (B.format.bytes value.now) 0 size) value.now) }
{
    let mut out = Vec::new(alloc);
    expect_length(value.write_box(&mut out)?, size)?;
    expect_length(out.len() as u64, size)?;
    expect_length(value.box_size(), size)?;
    let header = BoxHeader::read(&mut ByteCursor::new(&out))?;
    expect_length(header.size, size)?;
    if header.name != value.box_type() {
        return Err(Mismatch::Name {
            found: header.name,
            expected: value.box_type(),
        });
    }
    expect_value(alloc, value, out.as_slice(), size)?;
    Ok(out)
}

/// Expects that `value` is written as `bytes`, and read back from them.
pub fn expect_round_trip<B: BoxLaws + PartialEq + Drop>(
    alloc: Global,
    value: &B,
    bytes: &[u8],
) -> Result<(), Mismatch>
    ensures writable { OnOk result (B.format.Writable value.now) }
    ensures bytes { OnOk result (B.format.bytes value.now ≡ bytes.now) }
    ensures read_back { OnOk result (ReadsAs B.eq (reading B.reads bytes.now 0 (length bytes.now)) value.now) }
{
    let out = expect_written(alloc, value, bytes.len() as u64)?;
    if out.as_slice() == bytes {
        Ok(())
    } else {
        Err(Mismatch::OtherBytes)
    }
}

/// Expects that `value` is written as `bytes`, and that its normal form `normal` is read back from them.
pub fn expect_normal_form<B: BoxLaws + PartialEq + Drop>(
    alloc: Global,
    value: &B,
    normal: &B,
    bytes: &[u8],
) -> Result<(), Mismatch>
    ensures writable { OnOk result (B.format.Writable value.now) }
    ensures written { OnOk result (B.format.bytes value.now ≡ bytes.now) }
    ensures read_back { OnOk result (ReadsAs B.eq (reading B.reads bytes.now 0 (length bytes.now)) normal.now) }
{
    let mut out = Vec::new(alloc);
    expect_length(value.write_box(&mut out)?, value.box_size())?;
    if out.as_slice() != bytes {
        return Err(Mismatch::OtherBytes);
    }
    expect_value(alloc, normal, bytes, bytes.len() as u64)
}

/// Expects that writing `value` is invalid data, and leaves the vector unchanged.
pub fn expect_unwritable<B: WriteBox>(alloc: Global, value: &B) -> Result<(), Mismatch>
    ensures { OnOk result (¬ B.format.Writable value.now) }
{
    let mut out = Vec::from_slice(alloc, &[7])?;
    expect_ending(
        kind_of(&value.write_box(&mut out)),
        Kind::Invalid,
        value.box_size(),
    )?;
    if out.as_slice() == [7].as_slice() {
        Ok(())
    } else {
        Err(Mismatch::OtherBytes)
    }
}

/// Expects that `value` has the size `size`, and that writing it is invalid data and leaves the vector unchanged.
pub fn expect_unwritable_of_size<B: WriteBox>(
    alloc: Global,
    value: &B,
    size: u64,
) -> Result<(), Mismatch>
    ensures size { OnOk result (min (B.format.size value.now) (2 ^ 64 - 1) ≡ size) }
    ensures unwritable { OnOk result (¬ B.format.Writable value.now) }
{
    expect_length(value.box_size(), size)?;
    expect_unwritable(alloc, value)
}

/// Cuts the bytes of `value` at every length. Expects end of input if fewer than `needed` bytes are left, and `value`
/// if at least `needed` are left.
pub fn expect_end_at_cuts_below<B: BoxLaws + PartialEq + Drop>(
    alloc: Global,
    value: &B,
    needed: usize,
) -> Result<(), Mismatch>
    ensures writable { OnOk result (B.format.Writable value.now) }
    ensures ends { OnOk result
        ((n : ℕ) → n < needed → n < length (B.format.bytes value.now)
        → EndsIn kinds.End (cut_reading B.reads (B.format.bytes value.now) n)) }
    ensures values { OnOk result
        ((n : ℕ) → needed ≤ n → n < length (B.format.bytes value.now)
        → ReadsAs B.eq (cut_reading B.reads (B.format.bytes value.now) n) value.now) }
{
    let mut out = Vec::new(alloc);
    let size = value.write_box(&mut out)?;
    for length in 0..out.len() {
        let bytes = &out[..length];
        if length < needed {
            expect_kind::<B>(alloc, bytes, size, Kind::End)?;
        } else {
            expect_value(alloc, value, bytes, size)?;
        }
    }
    Ok(())
}

/// Expects that the bytes of `value` are read as `value` with each of the sizes 0, 7, the number of bytes, and 2^64 -
/// 1.
pub fn expect_value_at_any_size<B: BoxLaws + PartialEq + Drop>(
    alloc: Global,
    value: &B,
) -> Result<(), Mismatch>
    ensures writable { OnOk result (B.format.Writable value.now) }
    ensures values { OnOk result
        (All (λ size. ReadsAs B.eq (reading B.reads (B.format.bytes value.now) 0 size) value.now)
        (0 ∷ 7 ∷ length (B.format.bytes value.now) ∷ (2 ^ 64 - 1) ∷ [])) }
{
    let mut out = Vec::new(alloc);
    let own = value.write_box(&mut out)?;
    for size in [0, 7, own, u64::MAX] {
        expect_value(alloc, value, &out, size)?;
    }
    Ok(())
}

/// Expects that the bytes of `value` are invalid data with a size of 0 or 7, and are read as `value` with the size 2^64
/// - 1.
pub fn expect_invalid_at_small_sizes<B: BoxLaws + PartialEq + Drop>(
    alloc: Global,
    value: &B,
) -> Result<(), Mismatch>
    ensures writable { OnOk result (B.format.Writable value.now) }
    ensures invalid { OnOk result
        (All (λ size. EndsIn kinds.Invalid (reading B.reads (B.format.bytes value.now) 0 size)) (0 ∷ 7 ∷ [])) }
    ensures value { OnOk result (ReadsAs B.eq (reading B.reads (B.format.bytes value.now) 0 (2 ^ 64 - 1)) value.now) }
{
    let mut out = Vec::new(alloc);
    value.write_box(&mut out)?;
    for size in [0, 7] {
        expect_kind::<B>(alloc, &out, size, Kind::Invalid)?;
    }
    expect_value(alloc, value, &out, u64::MAX)
}
