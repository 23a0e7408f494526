//! New files that are planned and checked before they are written.

ghost use Rattle.std.specs.Prelude.{◌≡◌, ℕ, List, Some, length, IfOk, IfSome};
ghost use Rattle.mp4_remux.specs.NewFiles.{bytes_by, spelled_by};
ghost use Rattle.mp4_remux.specs.Pieces.{AreWithin, spelled};
ghost use Rattle.mp4_remux.specs.Whole.{KeepsMedia};
ghost use Rattle.mp4_remux.specs.WrittenPieces.{Wrote};

use crate::keeps::keeps_media;
use crate::pieces::{PieceSource, Plan, are_alike, flat_plan, new_file, shared, write_pieces};
use crate::refusal::{Refusal, Stop};
use mp4_io::{Failure, Output};
use mp4_movie::Movie;
use mp4_walk::Source;
use std::alloc::Global;
use std::io::Write;
use std::rc::Rc;

/// A new file that is planned over an old file, and not written yet.
#[derive(Drop)]
pub struct PlannedFile<S: Source> {
    /// The old file.
    pub source: S,
    /// The pieces of the new file.
    pub plan: Rc<Plan>,
}

impl<S: Source> PlannedFile<S> {
    /// Returns the new file that `plan` spells out over the file `source`. Refuses a plan with a piece that is not in
    /// that file.
    pub fn new(alloc: Global, source: S, plan: Plan) -> Result<PlannedFile<S>, Stop>
        ensures source { IfOk result (λ p. S.all p.source ≡ S.all source) }
        ensures plan { IfOk result (λ p. p.plan.value ≡ plan) }
        ensures within { IfOk result (λ p. IfSome (S.all source) (λ B. AreWithin (length B) p.plan.value)) }
    {
        let mut source = source;
        let length = source.length()?;
        if !plan.is_within(length) {
            return Err(Stop::Refused(Refusal::Pieces));
        }
        let plan = shared(alloc, plan)?;
        Ok(PlannedFile { source, plan })
    }
}

/// Returns the source `old` of the old file, if the new file that `plan` spells out over it keeps its media. `new` is a
/// source of the new file.
fn checked<S: Source, T: Source>(alloc: Global, old: S, new: T, plan: &Plan) -> Result<S, Stop>
    ensures source { IfOk result (λ source. S.all source ≡ S.all old) }
    ensures media { IfOk result (λ _. IfSome (S.all old)
        (λ B. AreWithin (length B) plan.now → T.all new ≡ Some (spelled B plan.now)
        → KeepsMedia B (spelled B plan.now))) }
{
    let mut before = Movie::open(alloc, old)?;
    let mut after = Movie::open(alloc, new)?;
    keeps_media(alloc, &mut before, &mut after, plan)?;
    let (walk, _) = before.into_parts();
    Ok(walk.into_source())
}

/// Returns the new file that `plan` spells out over the file `source`, if every track keeps its samples: as many, in
/// the same order, each with the same times, sync flag, description and bytes. `again` is a second source of the same
/// file, since the old and the new file are compared. It does not matter how the plan was made. Needs the memory that
/// `keeps_media` does.
pub fn check_media<S: Source, T: Source>(
    alloc: Global,
    source: S,
    again: T,
    plan: Plan,
) -> Result<PlannedFile<S>, Stop>
    ensures source { IfOk result (λ p. S.all p.source ≡ S.all source) }
    ensures plan { IfOk result (λ p. p.plan.value ≡ plan) }
    ensures within { IfOk result (λ p. IfSome (S.all source) (λ B. AreWithin (length B) p.plan.value)) }
    ensures media { IfOk result (λ p. IfSome (S.all source)
        (λ B. T.all again ≡ Some B → KeepsMedia B (spelled B p.plan.value))) }
{
    let PlannedFile { source, plan } = PlannedFile::new(alloc, source, plan)?;
    let new = new_file(again, &plan)?;
    let source = checked(alloc, source, new, &plan)?;
    Ok(PlannedFile { source, plan })
}

/// Returns `planned`, a new file over the new file that `first` spells out, as one over the old file of `first`, which
/// has `size` bytes. Refuses `planned` if it is over another new file.
pub fn flat_file<S: Source>(
    alloc: Global,
    planned: PlannedFile<PieceSource<S>>,
    first: &Plan,
    size: u64,
) -> Result<PlannedFile<S>, Stop>
    ensures source { IfOk result (λ p. spelled_by (S.all p.source) p.plan.value
        ≡ spelled_by (bytes_by planned.source) planned.plan.value) }
    ensures within { IfOk result (λ p. AreWithin size p.plan.value) }
    ensures bytes { IfOk result (λ p. (B : List ℕ) → size ≡ length B
        → spelled B p.plan.value ≡ spelled (spelled B first.now) planned.plan.value) }
{
    let PlannedFile { source, plan } = planned;
    let (source, own) = source.into_parts();
    if !are_alike(own.pieces(), first.pieces()) || !own.is_within(size) {
        return Err(Stop::Refused(Refusal::Pieces));
    }
    let flat = flat_plan(alloc, &own, &plan)?;
    if !flat.is_within(size) {
        return Err(Stop::Refused(Refusal::Pieces));
    }
    let plan = shared(alloc, flat)?;
    Ok(PlannedFile { source, plan })
}

/// Writes the new file that `planned` is. After a failure nothing or a beginning of it is written. Needs a block of
/// 1 MiB of memory.
pub fn write_planned<S: Source, W: Write>(
    alloc: Global,
    planned: PlannedFile<S>,
    output: &mut Output<W>,
) -> Result<(), Failure>
    ensures { IfSome (S.all planned.source)
        (λ B. Wrote (W.contents output.old.inner) (W.contents output.new.inner) result
        (spelled B planned.plan.value)) }
{
    let PlannedFile { source, plan } = planned;
    let mut source = source;
    write_pieces(alloc, &mut source, plan.pieces(), output)
}
