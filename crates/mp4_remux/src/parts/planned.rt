//! Whether a new file is a part of an old file.

ghost use Rattle.std.specs.Prelude.{◌≡◌, Some, length, IfOk, IfSome};
ghost use Rattle.mp4_remux.specs.Parts.{IsPart};
ghost use Rattle.mp4_remux.specs.Pieces.{AreWithin, spelled};

use crate::parts::check::keeps_part;
use crate::parts::origin::check_origins;
use crate::parts::part::Part;
use crate::pieces::{Plan, new_file};
use crate::planned::PlannedFile;
use crate::refusal::Stop;
use mp4_movie::Movie;
use mp4_walk::Source;
use std::alloc::Global;

/// Returns the source `old` of the old file, if the new file that `plan` spells out over it is its part `part`. `new`
/// is a source of the new file.
fn checked<S: Source, T: Source>(
    alloc: Global,
    part: &Part,
    old: S,
    new: T,
    plan: &Plan,
) -> Result<S, Stop>
    ensures source { IfOk result (λ source. S.all source ≡ S.all old) }
    ensures part { IfOk result (λ _. IfSome (S.all old)
        (λ B. AreWithin (length B) plan.now → T.all new ≡ Some (spelled B plan.now)
        → IsPart part.now B (spelled B plan.now))) }
{
    let mut before = Movie::open(alloc, old)?;
    let mut after = Movie::open(alloc, new)?;
    check_origins(alloc, &mut before, part)?;
    keeps_part(alloc, &mut before, &mut after, plan, part)?;
    let (walk, _) = before.into_parts();
    Ok(walk.into_source())
}

/// Returns the new file that `plan` spells out over the file `source`, if every track has the run of its samples that
/// `part` asks for: in the same order, each with the same duration, rendering offset, sync flag, description and bytes,
/// and decoded earlier by one number of ticks. `again` is a second source of the same file, since the old and the new
/// file are compared. It does not matter how the plan was made. Needs the memory that `keeps_part` does.
pub fn check_part<S: Source, T: Source>(
    alloc: Global,
    part: &Part,
    source: S,
    again: T,
    plan: Plan,
) -> Result<PlannedFile<S>, Stop>
    ensures source { IfOk result (λ p. S.all p.source ≡ S.all source) }
    ensures plan { IfOk result (λ p. p.plan.value ≡ plan) }
    ensures within { IfOk result (λ p. IfSome (S.all source) (λ B. AreWithin (length B) p.plan.value)) }
    ensures part { IfOk result (λ p. IfSome (S.all source)
        (λ B. T.all again ≡ Some B → IsPart part.now B (spelled B p.plan.value))) }
{
    let PlannedFile { source, plan } = PlannedFile::new(alloc, source, plan)?;
    let new = new_file(again, &plan)?;
    let source = checked(alloc, part, source, new, &plan)?;
    Ok(PlannedFile { source, plan })
}
