//! A plan over a new file as one over the old file.

ghost use Rattle.std.specs.Prelude.{◌≡◌, ◌+◌, ◌-◌, ◌++◌, ◌≤◌, ℕ, List, length, take, drop, IsTrue, IfOk, OnOk};
ghost use Rattle.mp4_remux.specs.Pieces.{AreWithin, bytes_of, long, spelled};

use crate::pieces::piece::Piece;
use crate::pieces::plan::{Plan, PlanError};
use crate::refusal::{Refusal, Stop};
use mp4_io::Failure;
use std::alloc::{AllocError, Global};

/// Adds `piece` to `flat`.
fn add(flat: &mut Plan, piece: Piece) -> Result<(), Stop>
    ensures { OnOk result ((B : List ℕ) → spelled B flat.new ≡ spelled B flat.old ++ bytes_of B piece) }
{
    match flat.push(piece) {
        Ok(()) => Ok(()),
        Err(PlanError::TooLong) => Err(Stop::Failed(Failure::Read)),
        Err(PlanError::Memory) => Err(Stop::Failed(Failure::Memory)),
    }
}

/// Returns the `size` bytes after the first `skip` of the range of the old file from `begin` to `end`.
fn range_of(begin: u64, end: u64, skip: u64, size: u64) -> Piece
    requires { skip + size ≤ end - begin }
    ensures { (B : List ℕ) → bytes_of B result ≡ take size (drop skip (take (end - begin) (drop begin B))) }
{
    // For the prover: a number that is passed by value has the range of its type.
    let _end = end;
    Piece::Old {
        begin: begin + skip,
        end: begin + skip + size,
    }
}

/// Returns the `size` bytes of `piece` after the first `skip`.
fn part_of(alloc: Global, piece: &Piece, skip: u64, size: u64) -> Result<Piece, AllocError>
    requires { skip + size ≤ long piece.now }
    ensures { IfOk result (λ p. (B : List ℕ) → bytes_of B p ≡ take size (drop skip (bytes_of B piece.now))) }
{
    match piece {
        Piece::New(bytes) => {
            let from = skip as usize;
            let part = Vec::from_slice(alloc, &bytes[from..from + size as usize])?;
            Ok(Piece::New(part))
        }
        Piece::Old { begin, end } => Ok(range_of(*begin, *end, skip, size)),
    }
}

/// Adds to `flat` the `size` bytes of `piece` after the first `skip`.
fn add_part(alloc: Global, flat: &mut Plan, piece: &Piece, skip: u64, size: u64) -> Result<(), Stop>
    requires { skip + size ≤ long piece.now }
    ensures { OnOk result ((B : List ℕ)
        → spelled B flat.new ≡ spelled B flat.old ++ take size (drop skip (bytes_of B piece.now))) }
{
    match part_of(alloc, piece, skip, size) {
        Ok(part) => add(flat, part),
        Err(_) => Err(Stop::Failed(Failure::Memory)),
    }
}

/// Adds to `flat` the `size` bytes at position `at` of the new file that `first` spells out. Finds the first piece by
/// binary search.
fn add_range(alloc: Global, flat: &mut Plan, first: &Plan, at: u64, size: u64) -> Result<(), Stop>
    ensures { OnOk result ((B : List ℕ) → AreWithin (length B) first.now
        → spelled B flat.new ≡ spelled B flat.old ++ take size (drop at (spelled B first.now))) }
{
    let pieces = first.pieces();
    let place = first.place_of(at);
    let mut passed = place.passed;
    let mut skip = at - place.before;
    let mut added: u64 = 0;
    while added < size {
        if passed >= pieces.len() {
            return Err(Stop::Refused(Refusal::Pieces));
        }
        let piece = &pieces[passed];
        let long = piece.length();
        if long <= skip {
            skip -= long;
            passed += 1;
        } else {
            let part = (long - skip).min(size - added);
            match add_part(alloc, flat, piece, skip, part) {
                Ok(()) => {}
                Err(stop) => return Err(stop),
            }
            added += part;
            skip += part;
        }
    }
    Ok(())
}

/// Adds to `flat` the bytes of `piece`, which is one over the new file that `first` spells out.
fn add_flat(alloc: Global, flat: &mut Plan, first: &Plan, piece: &Piece) -> Result<(), Stop>
    ensures { OnOk result ((B : List ℕ) → AreWithin (length B) first.now
        → spelled B flat.new ≡ spelled B flat.old ++ bytes_of (spelled B first.now) piece.now) }
{
    match piece {
        Piece::New(bytes) => {
            let copy = Vec::from_slice(alloc, bytes.as_slice())?;
            add(flat, Piece::New(copy))
        }
        Piece::Old { begin, end } => {
            add_range(alloc, flat, first, *begin, end.saturating_sub(*begin))
        }
    }
}

/// Returns a plan of the new file that `second` spells out over the new file that `first` spells out. The plan is over
/// the file that `first` is over. Takes a step for each piece of both plans, and a binary search for each range of
/// `second`. Copies the new bytes.
pub fn flat_plan(alloc: Global, first: &Plan, second: &Plan) -> Result<Plan, Stop>
    ensures { IfOk result (λ flat. (B : List ℕ) → AreWithin (length B) first.now
        → spelled B flat ≡ spelled (spelled B first.now) second.now) }
{
    let mut flat = Plan::new(alloc);
    let pieces = second.pieces();
    for piece in pieces {
        match add_flat(alloc, &mut flat, first, piece) {
            Ok(()) => {}
            Err(stop) => return Err(stop),
        }
    }
    Ok(flat)
}

/// Returns whether `one` is the same bytes as `other`, or the same range of the old file.
fn is_alike(one: &Piece, other: &Piece) -> bool
    ensures { IsTrue result → (B : List ℕ) → bytes_of B one.now ≡ bytes_of B other.now }
{
    match one {
        Piece::New(bytes) => match other {
            Piece::New(others) => bytes.as_slice() == others.as_slice(),
            Piece::Old { begin: _, end: _ } => false,
        },
        Piece::Old { begin, end } => match other {
            Piece::New(_) => false,
            Piece::Old {
                begin: from,
                end: to,
            } => *begin == *from && *end == *to,
        },
    }
}

/// Returns whether `pieces` are the same as `others`, one by one.
pub fn are_alike(pieces: &[Piece], others: &[Piece]) -> bool
    ensures { IsTrue result → (B : List ℕ) → spelled B pieces.now ≡ spelled B others.now }
{
    if pieces.len() != others.len() {
        return false;
    }
    for index in 0..pieces.len() {
        if !is_alike(&pieces[index], &others[index]) {
            return false;
        }
    }
    true
}
