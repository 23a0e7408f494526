//! A source whose bytes are those of a plan.

ghost use Rattle.std.specs.Prelude.{◌≡◌, ◌+◌, ◌-◌, ◌≤◌, ℕ, List, length, take, drop, IfOk, OnOk, IfSome};
ghost use Rattle.mp4_walk.specs.Source.{IsWindow};
ghost use Rattle.mp4_remux.specs.NewFiles.{IsPartOf, bytes_by};
ghost use Rattle.mp4_remux.specs.Pieces.{AreWithin, bytes_of, long, spelled};

use crate::pieces::piece::Piece;
use crate::pieces::plan::Plan;
use crate::refusal::{Refusal, Stop};
use mp4_io::Failure;
use mp4_walk::Source;
use std::alloc::Global;
use std::io;
use std::io::ErrorKind;
use std::marker::Model;
use std::rc::Rc;

/// The new file that a plan spells out over an old file. It is never made: each read finds the pieces and reads their
/// bytes.
#[derive(Drop)]
pub struct PieceSource<S: Source> {
    old: S,
    plan: Rc<Plan>,
}

impl<S: Source> Model for PieceSource<S> {
    ghost use Rattle.std.specs.Prelude.{length, IfSome};
    ghost use Rattle.mp4_remux.specs.NewFiles.{NewFile};
    ghost use Rattle.mp4_remux.specs.Pieces.{AreWithin};

    ghost Value = { NewFile };

    ghost view = { λ s. record { old = S.all s.old; pieces = s.plan.value } };

    ghost invariant = { λ s. IfSome (S.all s.old) (λ B. AreWithin (length B) s.plan.value) };
}

/// Fills `buffer` with the bytes of the old file from `begin` to `end`, after the first `skip`.
fn read_old<S: Source>(
    old: &mut S,
    begin: u64,
    end: u64,
    skip: u64,
    buffer: &mut [u8],
) -> io::Result<()>
    requires { skip + length buffer.old ≤ end - begin }
    ensures bytes { OnOk result (IfSome (S.all old.old)
        (λ B. IsWindow (take (end - begin) (drop begin B)) skip buffer.new)) }
    ensures keeps { S.all old.new ≡ S.all old.old }
{
    old.read_at(begin + skip, buffer)
}

/// Fills `buffer` with the bytes of `piece` after the first `skip`.
fn read_part<S: Source>(old: &mut S, piece: &Piece, skip: u64, buffer: &mut [u8]) -> io::Result<()>
    requires { skip + length buffer.old ≤ long piece.now }
    ensures bytes { OnOk result (IfSome (S.all old.old) (λ B. IsWindow (bytes_of B piece.now) skip buffer.new)) }
    ensures keeps { S.all old.new ≡ S.all old.old }
{
    match piece {
        Piece::New(bytes) => {
            let from = skip as usize;
            buffer.copy_from_slice(&bytes[from..from + buffer.len()]);
            Ok(())
        }
        Piece::Old { begin, end } => read_old(old, *begin, *end, skip, buffer),
    }
}

/// Fills the bytes of `buffer` from `filled` to `end` with those of `piece` after the first `skip`.
fn read_middle<S: Source>(
    old: &mut S,
    piece: &Piece,
    skip: u64,
    buffer: &mut [u8],
    filled: usize,
    end: usize,
) -> io::Result<()>
    requires order { filled ≤ end }
    requires within { end ≤ length buffer.old }
    requires part { skip + (end - filled) ≤ long piece.now }
    ensures bytes { OnOk result (IfSome (S.all old.old) (λ B. (C : List ℕ) (at : ℕ)
        → IsPartOf B C piece.now (at + filled) skip (end - filled)
        → IsWindow C at (take filled buffer.old) → IsWindow C at (take end buffer.new))) }
    ensures length { length buffer.new ≡ length buffer.old }
    ensures keeps { S.all old.new ≡ S.all old.old }
{
    read_part(old, piece, skip, &mut buffer[filled..end])
}

/// Fills `buffer` with the bytes of the new file at position `at`.
fn fill<S: Source>(old: &mut S, plan: &Plan, at: u64, buffer: &mut [u8]) -> io::Result<()>
    requires { IfSome (S.all old.old) (λ B. AreWithin (length B) plan.now) }
    ensures bytes { OnOk result (IfSome (S.all old.old) (λ B. IsWindow (spelled B plan.now) at buffer.new)) }
    ensures keeps { S.all old.new ≡ S.all old.old }
{
    let pieces = plan.pieces();
    let place = plan.place_of(at);
    let mut passed = place.passed;
    let mut skip = at - place.before;
    let mut filled: usize = 0;
    while filled < buffer.len() {
        if passed >= pieces.len() {
            return Err(io::Error::from(ErrorKind::UnexpectedEof));
        }
        let piece = &pieces[passed];
        let long = piece.length();
        if long <= skip {
            skip -= long;
            passed += 1;
        } else {
            let part = (long - skip).min((buffer.len() - filled) as u64) as usize;
            match read_middle(old, piece, skip, buffer, filled, filled + part) {
                Ok(()) => {}
                Err(error) => return Err(error),
            }
            filled += part;
            skip += part as u64;
        }
    }
    Ok(())
}

impl<S: Source> PieceSource<S> {
    /// Makes a source of `plan` over the file `old`. Returns `None` if a piece is not in that file.
    pub fn new(old: S, plan: Rc<Plan>) -> io::Result<Option<PieceSource<S>>>
        ensures old { IfOk result (λ source. IfSome source (λ s. s.old ≡ S.all old)) }
        ensures pieces { IfOk result (λ source. IfSome source (λ s. s.pieces ≡ plan.value)) }
        ensures within { IfOk result
            (λ source. IfSome source (λ _. IfSome (S.all old) (λ B. AreWithin (length B) plan.value))) }
    {
        let mut old = old;
        let length = old.length()?;
        if !plan.is_within(length) {
            return Ok(None);
        }
        Ok(Some(PieceSource { old, plan }))
    }

    /// Returns the old file and the plan.
    pub fn into_parts(self) -> (S, Rc<Plan>)
        ensures old { S.all result.0 ≡ self.old }
        ensures plan { result.1.value ≡ self.pieces }
        ensures within { IfSome self.old (λ B. AreWithin (length B) self.pieces) }
    {
        let PieceSource { old, plan } = self;
        (old, plan)
    }
}

impl<S: Source> Source for PieceSource<S> {
    ghost all = { bytes_by };

    fn length(&mut self) -> io::Result<u64> {
        Ok(self.plan.length())
    }

    fn read_at(&mut self, at: u64, buffer: &mut [u8]) -> io::Result<()> {
        fill(&mut self.old, &self.plan, at, buffer)
    }
}

/// Returns `plan` with room for several owners.
pub fn shared(alloc: Global, plan: Plan) -> Result<Rc<Plan>, Stop>
    ensures { IfOk result (λ shared. shared.value ≡ plan) }
{
    match Rc::new(alloc, plan) {
        Ok(shared) => Ok(shared),
        Err(_) => Err(Stop::Failed(Failure::Memory)),
    }
}

/// Returns a source of the new file that `plan` spells out over the file `old`.
pub fn new_file<T: Source>(old: T, plan: &Rc<Plan>) -> Result<PieceSource<T>, Stop>
    ensures old { IfOk result (λ s. s.old ≡ T.all old) }
    ensures pieces { IfOk result (λ s. s.pieces ≡ plan.now.value) }
{
    let plan = plan.clone()?;
    match PieceSource::new(old, plan) {
        Ok(Some(new)) => Ok(new),
        Ok(None) => Err(Stop::Refused(Refusal::Pieces)),
        Err(error) => Err(Stop::from(error)),
    }
}
