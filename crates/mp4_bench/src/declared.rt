//! A declared box and the same box with hand-written code, which are both read and written a number of times.

ghost use Rattle.mp4_bench.specs.declared.declared.TheConstants.{MFHE};
ghost use Rattle.std.proofs.Common.{refl, lit<};
ghost use Rattle.mp4_stream.specs.Author.{layout_of};

use mp4_stream::author::{Declared, DeclaredBox, Full, Last, ShapeVisitor, U32};
use mp4_stream::{BoxHeader, ByteCursor, MfhdBox, ReadBox, Result, WriteBox, box_of, parts_of};
use std::alloc::Global;

/// The code `mfhe`, because the codec has the code `mfhd`.
const MFHE: u32 = 0x6d66_6865;

/// The fields of an `mfhd` (ISO/IEC 14496-12, 8.8.5).
#[derive(Clone, Copy, Debug, Drop, PartialEq, Eq)]
struct Mfhe {
    /// The version, which is 0.
    version: u8,
    /// The flags, which have 24 bits.
    flags: u32,
    /// The number of the fragment.
    sequence_number: u32,
}

impl DeclaredBox for Mfhe {
    ghost use Rattle.mp4_bench.specs.contracts.declared.Mfhe.{struct};

    type Shape = Full<1, Last<U32>>;

    ghost CODE = { MFHE };

    ghost layout = { layout_of struct (λ _. tt) (λ _. refl) (lit< tt) };

    const CODE: u32 = MFHE;

    fn from_content(found: (u8, (u32, (u32, ())))) -> Mfhe {
        box_of!(found => Mfhe { version, flags, sequence_number })
    }

    fn visit<Q: ShapeVisitor<Self::Shape>>(&self, out: &mut [u8]) -> Q::Answer {
        Q::visit(parts_of!(self => version, flags, sequence_number), out)
    }

    ghost valid = { refl };
}

/// Returns the boxes in `bytes`, which have 16 bytes each, whatever their names are.
fn read_all<B: ReadBox + Drop>(alloc: Global, bytes: &[u8]) -> Result<Vec<B>> {
    let mut boxes = Vec::new(alloc);
    let mut reader = ByteCursor::new(bytes);
    for _ in 0..bytes.len() / 16 {
        let header = BoxHeader::read(&mut reader)?;
        boxes.push(B::read_box(alloc, &mut reader, header.size)?)?;
    }
    Ok(boxes)
}

/// Reads the boxes in `bytes` `times` times, and writes the last box each time. Returns the sum of the numbers of boxes
/// and of the last bytes that are written.
fn read_times<B: ReadBox + WriteBox + Drop>(
    alloc: Global,
    bytes: &[u8],
    times: u64,
) -> Result<u64> {
    let mut sum: u64 = 0;
    for _ in 0..times {
        let boxes = read_all::<B>(alloc, bytes)?;
        let mut out = Vec::new(alloc);
        if let Some(last) = boxes.last() {
            last.write_box(&mut out)?;
        }
        if let Some(last) = out.last() {
            sum = sum.wrapping_add(u64::from(*last));
        }
        sum = sum.wrapping_add(boxes.len() as u64);
    }
    Ok(sum)
}

/// Reads the boxes in `bytes` once, and writes them `times` times. Returns the sum of their lengths and of the last
/// bytes.
fn write_times<B: ReadBox + WriteBox + Drop>(
    alloc: Global,
    bytes: &[u8],
    times: u64,
) -> Result<u64> {
    let boxes = read_all::<B>(alloc, bytes)?;
    let mut sum: u64 = 0;
    for _ in 0..times {
        let mut out = Vec::new(alloc);
        for value in &boxes {
            sum = sum.wrapping_add(value.write_box(&mut out)?);
        }
        if let Some(last) = out.last() {
            sum = sum.wrapping_add(u64::from(*last));
        }
    }
    Ok(sum)
}

/// Reads a buffer of `mfhd` boxes of 16 bytes `times` times, each time into a new list, and writes the last box of the
/// list. Returns the sum of the numbers of boxes and of the last bytes, or `u64::MAX` after an error.
#[unsafe(no_mangle)]
pub extern "C" fn mp4_read_mfhd(alloc: Global, bytes: &[u8], times: u64) -> u64 {
    read_times::<MfhdBox>(alloc, bytes, times).unwrap_or(u64::MAX)
}

/// Reads as `mp4_read_mfhd` does, with the declared box.
#[unsafe(no_mangle)]
pub extern "C" fn mp4_read_declared(alloc: Global, bytes: &[u8], times: u64) -> u64 {
    read_times::<Declared<Mfhe>>(alloc, bytes, times).unwrap_or(u64::MAX)
}

/// Reads a buffer of `mfhd` boxes of 16 bytes once, and writes them `times` times, each time into a new vector. Returns
/// the sum of the lengths and of the last bytes, or `u64::MAX` after an error.
#[unsafe(no_mangle)]
pub extern "C" fn mp4_write_mfhd(alloc: Global, bytes: &[u8], times: u64) -> u64 {
    write_times::<MfhdBox>(alloc, bytes, times).unwrap_or(u64::MAX)
}

/// Writes as `mp4_write_mfhd` does, with the declared box and its name.
#[unsafe(no_mangle)]
pub extern "C" fn mp4_write_declared(alloc: Global, bytes: &[u8], times: u64) -> u64 {
    write_times::<Declared<Mfhe>>(alloc, bytes, times).unwrap_or(u64::MAX)
}
