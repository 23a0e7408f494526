//! The command `list`, which shows where the boxes of the input are.

ghost use Rattle.std.specs.Prelude.{◌≡◌, ◌≤◌, ◌<◌, ◌+◌, ◌^◌, ◌||◌, ℕ, List, Some, length, take, vec_len, IfOk, IfErr};
ghost use Rattle.std.specs.Prelude.{IfSome};
ghost use Rattle.std.specs.Io.KnownBytes.{IsAtEnd};
ghost use Rattle.mp4_frame.specs.declared.error.Error.TheVariants.{IoError, OutOfMemory};
ghost use Rattle.mp4_boxes.specs.Parts.{Ends, HasEnd, HasRest, IsReadOrMemory, LinesBefore, LinesIn, ReadsOn};
ghost use Rattle.mp4_boxes.specs.Runs.{Runs, ReachesEnd, Rewrites, Lists, ListRefusal, Stops, is_read, is_write};

use crate::engine::write_all;
use crate::fault::RunFault;
use crate::line::push_line;
use crate::part::{Next, list_part};
use mp4_frame::BoxSpan;
use mp4_io::{Input, Output, pull_after, skip_all};
use mp4_stream::{BoxType, Error};
use std::alloc::Global;
use std::io::{Read, Write};

/// The number of bytes of the parts in which the input is read.
const PART: usize = 65536;

/// The largest number of bytes of an input, which is that of a vector.
const LIMIT: u64 = (1 << 63) - 1;

/// The progress of reading and listing an input.
#[derive(Clone, Copy, Debug)]
struct Place {
    /// The offset of the part in the input.
    from: u64,
    /// The number of bytes of the part that are filled.
    held: usize,
    /// The offset at which the next box begins.
    next: u64,
}

/// Reads once, into the bytes of `part` after the filled bytes of `place`. Returns the new number of filled bytes,
/// which is larger than before except at the end of the input. An input of more than `limit` bytes is out of memory.
fn pull_part<R: Read>(
    input: &mut Input<R>,
    part: &mut Vec<u8>,
    place: Place,
    limit: u64,
) -> Result<usize, RunFault>
    requires room { place.held < vec_len part.old }
    requires within { place.from ≤ limit }
    ensures len { vec_len part.new ≡ vec_len part.old }
    ensures bound { IfOk result
        (λ filled. (place.held ≤ filled) × (filled ≤ vec_len part.new) × (place.from + filled ≤ limit)) }
    ensures end { IfOk result (λ filled. filled ≡ place.held → IsAtEnd (R.remaining input.new.inner)) }
    ensures bytes { IfOk result
        (λ filled. (read : List ℕ) → HasEnd read place.from (take place.held part.old.items)
        → ReadsOn (R.remaining input.old.inner) (R.remaining input.new.inner) read
        (λ all. HasEnd all place.from (take filled part.new.items))) }
    ensures passed { IfErr result
        (λ fault. fault ≡ RunFault.Boxes OutOfMemory
        → (read : List ℕ) → HasEnd read place.from (take place.held part.old.items)
        → ReadsOn (R.remaining input.old.inner) (R.remaining input.new.inner) read (λ all. limit < length all)) }
    ensures error { IfErr result IsReadOrMemory }
    ensures failed { input.new.failed ≡ (input.old.failed || is_read result) }
{
    let Some(n) = pull_after(input, part, place.held) else {
        return Err(RunFault::Read);
    };
    let filled = place.held + n;
    if filled as u64 > limit - place.from {
        return Err(RunFault::Boxes(Error::OutOfMemory));
    }
    Ok(filled)
}

/// Moves those filled bytes of `part` that are at or after the input's offset `next` to its front. The next box begins
/// at `next`.
fn keep_rest(part: &mut Vec<u8>, filled: usize, from: u64, next: u64) -> Place
    requires within { filled ≤ vec_len part.old }
    requires room { from + filled < 2 ^ 64 }
    requires order { from ≤ next }
    requires few { from + filled < next + 16 }
    ensures place { (result.next ≡ next) × (result.from ≤ next) × (result.held < 16)
        × (result.from + result.held ≡ from + filled) }
    ensures len { vec_len part.new ≡ vec_len part.old }
    ensures bytes { (read : List ℕ) → HasEnd read from (take filled part.old.items)
        → HasEnd read result.from (take result.held part.new.items) }
{
    let end = next.min(from + filled as u64);
    let done = end - from;
    part.copy_within(done as usize..filled, 0);
    Place {
        from: from + done,
        held: filled - done as usize,
        next,
    }
}

/// Returns `lines` if all input is read and the next box would begin at `next`, its end. Fails with end of input if a
/// box or a header is cut.
fn all_lines(lines: Vec<u8>, read: u64, next: u64) -> mp4_stream::Result<Vec<u8>>
    ensures lines { (B : List ℕ) → read ≡ length B → LinesIn B read lines.items next
        → Rewrites Lists ListRefusal (λ v. v.items) B result }
    ensures cut { IfErr result (λ e. e ≡ IoError) }
{
    if next == read {
        Ok(lines)
    } else {
        Err(Error::IoError)
    }
}

/// Reads to the end of the input, and returns the lines with the line of the last box, which begins at `position` and
/// extends to the end. `read` bytes were read before. An input of more than `limit` bytes is out of memory.
fn with_last<R: Read>(
    input: &mut Input<R>,
    buffer: &mut [u8],
    mut lines: Vec<u8>,
    read: u64,
    limit: u64,
    position: u64,
    name: BoxType,
) -> Result<Vec<u8>, RunFault>
    requires buffer { 0 < length buffer.old }
    requires order { position ≤ read }
    requires within { read ≤ limit }
    ensures lines { Ends (λ v. v.items)
        (λ B. HasRest B read (R.remaining input.old.inner) × LinesBefore B lines.items position name)
        (R.remaining input.new.inner) result }
    ensures limit { IfOk result (λ _. (B : List ℕ) → HasRest B read (R.remaining input.old.inner) → length B ≤ limit) }
    ensures error { IfErr result IsReadOrMemory }
    ensures failed { input.new.failed ≡ (input.old.failed || is_read result) }
{
    let end = read + skip_all(input, buffer, limit - read)?;
    push_line(
        &mut lines,
        BoxSpan {
            position,
            length: end - position,
            name,
        },
    )?;
    Ok(lines)
}

/// Returns a part of zeros.
fn new_part(alloc: Global) -> mp4_stream::Result<Vec<u8>>
    ensures len { IfOk result (λ part. vec_len part ≡ PART) }
    ensures error { IfErr result (λ e. e ≡ OutOfMemory) }
{
    Ok(vec![in alloc; 0; PART]?)
}

/// Returns the lines of all boxes of the input, or its first fault, at which reading stops. The input is read in parts,
/// and only a header that is not whole is kept from one part to the next. An input of more than `limit` bytes is out of
/// memory.
pub fn list_input<R: Read>(
    alloc: Global,
    input: &mut Input<R>,
    limit: u64,
) -> Result<Vec<u8>, RunFault>
    ensures lines { Ends (λ v. v.items) (λ B. R.remaining input.old.inner ≡ Some B)
        (R.remaining input.new.inner) result }
    ensures stops { Stops (R.remaining input.old.inner) (R.remaining input.new.inner) result }
    ensures limit { IfOk result (λ _. IfSome (R.remaining input.old.inner) (λ B. length B ≤ limit)) }
    ensures failed { input.new.failed ≡ (input.old.failed || is_read result) }
{
    let mut part = new_part(alloc)?;
    let mut lines = Vec::new(alloc);
    let mut place = Place {
        from: 0,
        held: 0,
        next: 0,
    };
    for _ in 0..u64::MAX {
        let filled = pull_part(input, &mut part, place, limit)?;
        let read = place.from + filled as u64;
        if filled == place.held {
            return Ok(all_lines(lines, read, place.next)?);
        }
        match list_part(&mut lines, &part[..filled], place.from, place.next) {
            Ok(Next::Box(next)) => place = keep_rest(&mut part, filled, place.from, next),
            Ok(Next::Last(position, name)) => {
                return with_last(input, &mut part, lines, read, limit, position, name);
            }
            Err(e) => return Err(RunFault::Boxes(e)),
        }
    }
    Err(RunFault::Boxes(Error::OutOfMemory))
}

/// Lists all boxes of the input: for each it writes a line of its position, its length and its name. Returns the number
/// of bytes that were written. The contents of boxes are not kept.
///
/// All output is made before any of it is written, as in `run_normal`. Reading stops at the first fault, and the bytes
/// after it are left in the reader. An input of 2^63 bytes or more is out of memory.
pub fn run_list<R: Read, W: Write>(
    alloc: Global,
    input: &mut Input<R>,
    output: &mut Output<W>,
) -> Result<u64, RunFault>
    ensures run { Runs Lists ListRefusal (R.remaining input.old.inner) (W.contents output.old.inner)
        (W.contents output.new.inner) result }
    ensures all_read { ReachesEnd (R.remaining input.new.inner) result }
    ensures stops { Stops (R.remaining input.old.inner) (R.remaining input.new.inner) result }
    ensures limit { IfOk result (λ _. IfSome (R.remaining input.old.inner) (λ B. length B < 2 ^ 63)) }
    ensures read_failed { input.new.failed ≡ (input.old.failed || is_read result) }
    ensures write_failed { output.new.failed ≡ (output.old.failed || is_write result) }
{
    let lines = list_input(alloc, input, LIMIT)?;
    write_all(output, &lines)
}
