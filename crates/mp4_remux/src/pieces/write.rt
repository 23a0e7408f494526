//! Writing a new file.

ghost use Rattle.std.specs.Prelude.{◌≡◌, ◌-◌, ◌<◌, ◌≤◌, length, IfSome};
ghost use Rattle.mp4_walk.specs.Source.{piece};
ghost use Rattle.mp4_remux.specs.Pieces.{bytes_of, spelled};
ghost use Rattle.mp4_remux.specs.WrittenPieces.{Wrote};

use crate::pieces::piece::Piece;
use mp4_io::{Failure, Output, write_all};
use mp4_walk::Source;
use std::alloc::Global;
use std::io::Write;

/// The number of bytes that are copied at once.
const BLOCK: usize = 1_048_576;

/// Fills `block` with the bytes of `source` at position `at`, and writes it.
fn copy_block<S: Source, W: Write>(
    source: &mut S,
    at: u64,
    block: &mut [u8],
    output: &mut Output<W>,
) -> Result<(), Failure>
    ensures bytes { IfSome (S.all source.old)
        (λ B. Wrote (W.contents output.old.inner) (W.contents output.new.inner) result
        (piece B at (length block.old))) }
    ensures keeps { S.all source.new ≡ S.all source.old }
{
    match source.read_at(at, block) {
        Ok(()) => write_all(output, block),
        Err(_) => Err(Failure::Read),
    }
}

/// Writes `long` bytes of `source` at position `at`, by way of the front of `buffer`.
fn copy_front<S: Source, W: Write>(
    source: &mut S,
    at: u64,
    long: usize,
    buffer: &mut [u8],
    output: &mut Output<W>,
) -> Result<(), Failure>
    requires { long ≤ length buffer.old }
    ensures bytes { IfSome (S.all source.old)
        (λ B. Wrote (W.contents output.old.inner) (W.contents output.new.inner) result (piece B at long)) }
    ensures keeps { S.all source.new ≡ S.all source.old }
{
    copy_block(source, at, &mut buffer[..long], output)
}

/// Writes the bytes of `source` from position `begin` to position `end`, one buffer at a time.
fn copy_range<S: Source, W: Write>(
    source: &mut S,
    begin: u64,
    end: u64,
    buffer: &mut [u8],
    output: &mut Output<W>,
) -> Result<(), Failure>
    requires { 0 < length buffer.old }
    ensures bytes { IfSome (S.all source.old)
        (λ B. Wrote (W.contents output.old.inner) (W.contents output.new.inner) result (piece B begin (end - begin))) }
    ensures keeps { S.all source.new ≡ S.all source.old }
{
    let mut at = begin;
    while at < end {
        let long = (end - at).min(buffer.len() as u64) as usize;
        match copy_front(source, at, long, buffer, output) {
            Ok(()) => at += long as u64,
            Err(failure) => return Err(failure),
        }
    }
    Ok(())
}

/// Writes the bytes of `piece`.
fn write_piece<S: Source, W: Write>(
    source: &mut S,
    piece: &Piece,
    buffer: &mut [u8],
    output: &mut Output<W>,
) -> Result<(), Failure>
    requires { 0 < length buffer.old }
    ensures bytes { IfSome (S.all source.old)
        (λ B. Wrote (W.contents output.old.inner) (W.contents output.new.inner) result (bytes_of B piece.now)) }
    ensures keeps { S.all source.new ≡ S.all source.old }
{
    match piece {
        Piece::New(bytes) => write_all(output, bytes.as_slice()),
        Piece::Old { begin, end } => copy_range(source, *begin, *end, buffer, output),
    }
}

/// Writes the bytes of `pieces` in order.
fn write_all_pieces<S: Source, W: Write>(
    source: &mut S,
    pieces: &[Piece],
    buffer: &mut [u8],
    output: &mut Output<W>,
) -> Result<(), Failure>
    requires { 0 < length buffer.old }
    ensures bytes { IfSome (S.all source.old)
        (λ B. Wrote (W.contents output.old.inner) (W.contents output.new.inner) result (spelled B pieces.now)) }
    ensures keeps { S.all source.new ≡ S.all source.old }
{
    for piece in pieces {
        match write_piece(source, piece, buffer, output) {
            Ok(()) => {}
            Err(failure) => return Err(failure),
        }
    }
    Ok(())
}

/// Writes the new file that `pieces` spell out. `source` is the old file. After an error, a beginning of the new file
/// is written, and nothing else. Needs a block of 1 MiB of memory.
pub fn write_pieces<S: Source, W: Write>(
    alloc: Global,
    source: &mut S,
    pieces: &[Piece],
    output: &mut Output<W>,
) -> Result<(), Failure>
    ensures bytes { IfSome (S.all source.old)
        (λ B. Wrote (W.contents output.old.inner) (W.contents output.new.inner) result (spelled B pieces.now)) }
    ensures keeps { S.all source.new ≡ S.all source.old }
{
    let mut buffer = Vec::new(alloc);
    match buffer.resize(BLOCK, 0) {
        Ok(()) => write_all_pieces(source, pieces, &mut buffer, output),
        Err(_) => Err(Failure::Memory),
    }
}
