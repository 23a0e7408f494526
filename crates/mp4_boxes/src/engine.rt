//! Runs of commands. All input is read, then the output is made, and then all output is written.

ghost use Rattle.std.specs.Prelude.{◌≡◌, ◌||◌, is_err, IfErr};
ghost use Rattle.std.specs.Io.KnownBytes.{Keeps};
ghost use Rattle.mp4_boxes.specs.Runs.{Runs, ReachesEnd, ReadsAll, Rewrites, WritesAll, Normalizes, NormalRefusal};
ghost use Rattle.mp4_boxes.specs.Runs.{is_read, is_write};

use crate::fault::RunFault;
use mp4_io::{Input, Output};
use mp4_normal::normalize;
use std::alloc::{Allocator, Global};
use std::io::{Read, Write};

/// Reads to the end of the input, and returns its bytes. A reader without an end is out of memory.
pub fn read_all<R: Read, A: Allocator>(
    alloc: A,
    input: &mut Input<R>,
) -> Result<Vec<u8, A>, RunFault>
    ensures bytes { ReadsAll (λ v. v.items) (R.remaining input.old.inner) (R.remaining input.new.inner) result }
    ensures failed { input.new.failed ≡ (input.old.failed || is_read result) }
{
    Ok(mp4_io::read_all(alloc, input)?)
}

/// Writes all of `bytes`, and returns their number.
pub fn write_all<W: Write>(output: &mut Output<W>, bytes: &[u8]) -> Result<u64, RunFault>
    ensures bytes { WritesAll (W.contents output.old.inner) (W.contents output.new.inner) result bytes.now }
    ensures failed { output.new.failed ≡ (output.old.failed || is_write result) }
{
    mp4_io::write_all(output, bytes)?;
    Ok(bytes.len() as u64)
}

/// Flushes the output. A failed flush is a failed write.
pub fn finish<W: Write>(output: &mut Output<W>) -> Result<(), RunFault>
    ensures error { IfErr result (λ fault. fault ≡ RunFault.Write) }
    ensures bytes { Keeps (W.contents output.old.inner) (W.contents output.new.inner) }
    ensures failed { output.new.failed ≡ (output.old.failed || is_err result) }
{
    Ok(mp4_io::flush(output)?)
}

/// Returns the boxes of `bytes` in their normal form, in the same vector.
fn normal(alloc: Global, mut bytes: Vec<u8>) -> mp4_stream::Result<Vec<u8>>
    ensures { Rewrites Normalizes NormalRefusal (λ v. v.items) bytes.items result }
{
    normalize(alloc, &mut bytes)?;
    Ok(bytes)
}

/// Reads all boxes of the input, and writes them to the output in their normal form. Boxes of types that the codec does
/// not read are written unchanged. Returns the number of bytes that were written.
///
/// All output is made before any of it is written. So after a failed write the output has a beginning of it, and after
/// any other fault nothing is written. A reader without an end is out of memory.
pub fn run_normal<R: Read, W: Write>(
    alloc: Global,
    input: &mut Input<R>,
    output: &mut Output<W>,
) -> Result<u64, RunFault>
    ensures run { Runs Normalizes NormalRefusal (R.remaining input.old.inner) (W.contents output.old.inner)
        (W.contents output.new.inner) result }
    ensures all_read { ReachesEnd (R.remaining input.new.inner) result }
    ensures read_failed { input.new.failed ≡ (input.old.failed || is_read result) }
    ensures write_failed { output.new.failed ≡ (output.old.failed || is_write result) }
{
    let bytes = read_all(alloc, input)?;
    let out = normal(alloc, bytes)?;
    write_all(output, &out)
}
