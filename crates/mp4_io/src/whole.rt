//! Reading an input to its end, and writing an output whole.

ghost use Rattle.std.specs.Prelude.{◌+◌, ◌≡◌, ◌≤◌, ◌<◌, ◌||◌, drop, is_none, is_err, length, take, IfSome, IfErr, OnOk};
ghost use Rattle.std.specs.Prelude.{vec_len};
ghost use Rattle.std.specs.Io.KnownBytes.{Keeps};
ghost use Rattle.mp4_io.specs.Ends.{PullsInto, ReadsAll, SkipsAll, WritesAll, is_read};

use crate::ends::{Input, Output};
use crate::failure::Failure;
use std::alloc::Allocator;
use std::io::{Read, Write};

/// The number of bytes by which a full vector grows, and so the largest number that one pull asks for.
const BLOCK: usize = 65536;

/// Lengthens `bytes` by a block if all of it is filled.
fn make_room<A: Allocator>(bytes: &mut Vec<u8, A>, filled: usize) -> Result<(), Failure>
    requires { filled ≤ vec_len bytes.old }
    ensures room { OnOk result (filled < vec_len bytes.new) }
    ensures front { take filled bytes.new.items ≡ take filled bytes.old.items }
    ensures within { filled ≤ vec_len bytes.new }
    ensures error { IfErr result (λ failure. failure ≡ Failure.Memory) }
{
    if filled < bytes.len() {
        return Ok(());
    }
    let Some(len) = filled.checked_add(BLOCK) else {
        return Err(Failure::Memory);
    };
    bytes.resize(len, 0)?;
    Ok(())
}

/// Pulls once, into the bytes of `bytes` after the first `filled`, and returns the number of bytes read: 0 at the end
/// of the input. Returns `None` if the call failed or was interrupted.
pub fn pull_after<R: Read, A: Allocator>(
    input: &mut Input<R>,
    bytes: &mut Vec<u8, A>,
    filled: usize,
) -> Option<usize>
    requires { filled < vec_len bytes.old }
    ensures front { take filled bytes.new.items ≡ take filled bytes.old.items }
    ensures len { vec_len bytes.new ≡ vec_len bytes.old }
    ensures bound { IfSome result (λ n. filled + n ≤ vec_len bytes.new) }
    ensures bytes { PullsInto (R.remaining input.old.inner) (R.remaining input.new.inner) result
        (drop filled bytes.new.items) }
    ensures failed { input.new.failed ≡ (input.old.failed || is_none result) }
{
    input.pull(&mut bytes[filled..])
}

/// Reads to the end of the input, and returns its bytes. A reader without an end is out of memory.
pub fn read_all<R: Read, A: Allocator>(
    alloc: A,
    input: &mut Input<R>,
) -> Result<Vec<u8, A>, Failure>
    ensures bytes { ReadsAll (λ v. v.items) (R.remaining input.old.inner) (R.remaining input.new.inner) result }
    ensures failed { input.new.failed ≡ (input.old.failed || is_read result) }
{
    let mut bytes = Vec::new(alloc);
    let mut filled = 0;
    for _ in 0..u64::MAX {
        make_room(&mut bytes, filled)?;
        match pull_after(input, &mut bytes, filled) {
            None => return Err(Failure::Read),
            Some(0) => {
                bytes.truncate(filled);
                return Ok(bytes);
            }
            Some(n) => filled += n,
        }
    }
    Err(Failure::Memory)
}

/// Reads to the end of the input, keeps nothing, and returns the number of bytes. `buffer` holds the bytes of one call.
/// An input of more than `limit` bytes is out of memory.
pub fn skip_all<R: Read>(
    input: &mut Input<R>,
    buffer: &mut [u8],
    limit: u64,
) -> Result<u64, Failure>
    requires { 0 < length buffer.old }
    ensures bytes { SkipsAll limit (R.remaining input.old.inner) (R.remaining input.new.inner) result }
    ensures failed { input.new.failed ≡ (input.old.failed || is_read result) }
{
    let mut left = limit;
    loop {
        let Some(n) = input.pull(buffer) else {
            return Err(Failure::Read);
        };
        if n == 0 {
            return Ok(limit - left);
        }
        match left.checked_sub(n as u64) {
            Some(less) => left = less,
            None => return Err(Failure::Memory),
        }
    }
}

/// Writes all of `bytes`. After an error a beginning of them is written.
pub fn write_all<W: Write>(output: &mut Output<W>, bytes: &[u8]) -> Result<(), Failure>
    ensures bytes { WritesAll (W.contents output.old.inner) (W.contents output.new.inner) result bytes.now }
    ensures failed { output.new.failed ≡ (output.old.failed || is_err result) }
{
    let mut at = 0;
    while at < bytes.len() {
        match output.push(&bytes[at..]) {
            Some(n) => at += n,
            None => return Err(Failure::Write),
        }
    }
    Ok(())
}

/// Flushes the output. A failed flush is a failed write.
pub fn flush<W: Write>(output: &mut Output<W>) -> Result<(), Failure>
    ensures error { IfErr result (λ failure. failure ≡ Failure.Write) }
    ensures bytes { Keeps (W.contents output.old.inner) (W.contents output.new.inner) }
    ensures failed { output.new.failed ≡ (output.old.failed || is_err result) }
{
    if output.inner.flush().is_err() {
        output.failed = true;
        return Err(Failure::Write);
    }
    Ok(())
}
