//! A plan of a new file.

ghost use Rattle.std.specs.Prelude.{◌≡◌, ◌↔◌, ◌+◌, ◌++◌, ◌∷◌, ◌<◌, ◌≤◌, ℕ, [], List, IsTrue, length};
ghost use Rattle.std.specs.Prelude.{take, true, false, OnOk, OnErr};
ghost use Rattle.mp4_remux.specs.Pieces.{AreWithin, Carries, bytes_of, lengths, long, spelled};
ghost use Rattle.mp4_remux.specs.Plans.{AreEnds};

use crate::pieces::carried::carries_after;
use crate::pieces::piece::{Piece, are_within};
use std::alloc::Global;
use std::marker::Model;

/// The reason why a piece is not added to a plan.
#[derive(Clone, Copy, Debug, PartialEq, Eq)]
pub enum PlanError {
    /// The new file would have 2^64 bytes or more.
    TooLong,
    /// Memory was refused.
    Memory,
}

/// A new file that is planned as pieces, in their order. Two ranges of the old file that follow each other are one
/// piece, so bytes that follow each other in both files are in one piece. Needs 40 bytes of memory per piece, and the
/// new bytes.
#[derive(Drop)]
pub struct Plan {
    pieces: Vec<Piece>,
    ends: Vec<u64>,
}

impl Model for Plan {
    ghost use Rattle.std.specs.Prelude.{List};
    ghost use Rattle.mp4_remux.specs.declared.pieces.piece.Piece.{Piece};
    ghost use Rattle.mp4_remux.specs.Plans.{AreEnds};

    ghost Value = { List Piece };

    ghost view = { λ p. p.pieces.items };

    ghost invariant = { λ p. AreEnds p.pieces.items p.ends.items };
}

/// A place between two pieces.
#[derive(Clone, Copy)]
pub struct Place {
    /// The number of pieces before it.
    pub passed: usize,
    /// The number of bytes of these.
    pub before: u64,
}

/// Returns the number of bytes of the first `count` pieces, which end at `ends`.
fn bytes_of_first(ends: &[u64], count: usize) -> u64
    requires { count ≤ length ends.now }
    ensures { (ps : List Piece) → AreEnds ps ends.now → result ≡ lengths (take count ps) }
{
    if count == 0 { 0 } else { ends[count - 1] }
}

/// Returns a place before the piece that has the byte `at`: the last one, by binary search, if `ends` ascend.
fn place_of(ends: &[u64], at: u64) -> Place
    ensures within { result.passed ≤ length ends.now }
    ensures before { (ps : List Piece) → AreEnds ps ends.now → result.before ≡ lengths (take result.passed ps) }
    ensures order { result.before ≤ at }
{
    let mut place = Place {
        passed: 0,
        before: 0,
    };
    let mut high = ends.len();
    while place.passed < high {
        let middle = place.passed + (high - place.passed) / 2;
        let end = ends[middle];
        if end <= at {
            place = Place {
                passed: middle + 1,
                before: end,
            };
        } else {
            high = middle;
        }
    }
    place
}

/// Adds `item` to `items`. Returns whether there was memory.
fn push_to<T>(items: &mut Vec<T>, item: T) -> bool
where
    T: Drop,
    ensures added { result ≡ true → items.new.items ≡ items.old.items ++ item ∷ [] }
    ensures kept { result ≡ false → items.new.items ≡ items.old.items }
{
    match items.push(item) {
        Ok(()) => true,
        Err(_) => false,
    }
}

/// Adds `piece`, which ends at `end`, after `pieces`.
fn append(
    pieces: &mut Vec<Piece>,
    ends: &mut Vec<u64>,
    piece: Piece,
    end: u64,
) -> Result<(), PlanError>
    requires ends { AreEnds pieces.old.items ends.old.items }
    requires end { end ≡ lengths pieces.old.items + long piece }
    ensures ends { AreEnds pieces.new.items ends.new.items }
    ensures bytes { OnOk result
        ((B : List ℕ) → spelled B pieces.new.items ≡ spelled B pieces.old.items ++ bytes_of B piece) }
    ensures kept { OnErr result (pieces.new.items ≡ pieces.old.items) }
{
    if !push_to(ends, end) {
        return Err(PlanError::Memory);
    }
    if !push_to(pieces, piece) {
        ends.pop();
        return Err(PlanError::Memory);
    }
    Ok(())
}

/// Replaces the piece `last`, which is the last one, by `piece`, which ends at `end`.
#[tactic(auto, using(crate::proofs::Plans::ends_set, crate::proofs::Plans::last_set))]
fn replace_last(pieces: &mut Vec<Piece>, ends: &mut Vec<u64>, last: usize, piece: Piece, end: u64)
    requires last { last + 1 ≡ length pieces.old.items }
    requires ends { AreEnds pieces.old.items ends.old.items }
    requires end { end ≡ lengths (take last pieces.old.items) + long piece }
    ensures ends { AreEnds pieces.new.items ends.new.items }
    ensures pieces { pieces.new.items ≡ take last pieces.old.items ++ piece ∷ [] }
{
    pieces[last] = piece;
    ends[last] = end;
}

impl Plan {
    /// Returns a plan without pieces.
    pub fn new(alloc: Global) -> Plan
        ensures { result ≡ [] }
    {
        Plan {
            pieces: Vec::new(alloc),
            ends: Vec::new(alloc),
        }
    }

    /// Returns the pieces.
    pub fn pieces(&self) -> &[Piece]
        ensures { result.now ≡ self.now }
    {
        &self.pieces
    }

    /// Returns the number of bytes of the new file.
    pub fn length(&self) -> u64
        ensures { result ≡ lengths self.now }
    {
        bytes_of_first(&self.ends, self.ends.len())
    }

    /// Returns the place before the piece that has the byte `at` of the new file.
    pub fn place_of(&self, at: u64) -> Place
        ensures within { result.passed ≤ length self.now }
        ensures before { result.before ≡ lengths (take result.passed self.now) }
        ensures order { result.before ≤ at }
    {
        place_of(&self.ends, at)
    }

    /// Returns whether each piece is new, or a range of an old file of `length` bytes.
    pub fn is_within(&self, length: u64) -> bool
        ensures { IsTrue result ↔ AreWithin length self.now }
    {
        are_within(&self.pieces, length)
    }

    /// Returns whether `size` bytes of the new file at position `at` are those of the old file at position `from`, one
    /// by one. New bytes come from nowhere, whatever they are. Finds the first piece by binary search, and stops at the
    /// first byte that comes from another position.
    pub fn carries(&self, at: u64, size: u64, from: u64) -> bool
        ensures { IsTrue result ↔ Carries self.now at size from }
    {
        let place = self.place_of(at);
        carries_after(&self.pieces, place.passed, place.before, at, size, from)
    }

    /// Adds `piece` at the end. Leaves out a piece without bytes, and joins a range with the one before it if it begins
    /// where that one ends.
    pub fn push(&mut self, piece: Piece) -> Result<(), PlanError>
        ensures bytes { OnOk result
            ((B : List ℕ) → spelled B self.new ≡ spelled B self.old ++ bytes_of B piece) }
        ensures kept { OnErr result (self.new ≡ self.old) }
    {
        let long = piece.length();
        if long == 0 {
            return Ok(());
        }
        let end = match self.length().checked_add(long) {
            Some(end) => end,
            None => return Err(PlanError::TooLong),
        };
        let count = self.pieces.len();
        if count > 0 {
            if let Some(joined) = self.pieces[count - 1].joined(&piece) {
                replace_last(&mut self.pieces, &mut self.ends, count - 1, joined, end);
                return Ok(());
            }
        }
        append(&mut self.pieces, &mut self.ends, piece, end)
    }
}
