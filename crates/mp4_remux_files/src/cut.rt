//! The plan of a part of a file.

ghost use Rattle.std.specs.Prelude.{◌≡◌, Some, length, IfOk, IfSome};
ghost use Rattle.mp4_remux.specs.Pieces.{AreWithin, spelled};
ghost use Rattle.mp4_remux_files.specs.Cuts.{IsCut};

use crate::refusal::Stop;
use mp4_remux::PlannedFile;
use mp4_remux::parts::{Part, check_part};
use mp4_remux::pieces::Plan;
use mp4_walk::Source;
use std::alloc::Global;

/// The times of a part, in nanoseconds.
#[derive(Clone, Copy, Debug, PartialEq, Eq)]
pub struct Times {
    /// The time at which the part begins.
    pub from: u64,
    /// The time at which it ends.
    pub to: u64,
}

/// Returns the new file that `plan` spells out over the file `source`, if it is the part of that file between these
/// `times`. `origins` are the times of the media of each track that are presented at 0. `again` is a second source of
/// the same file, since the old and the new file are compared.
pub(crate) fn check_cut<S: Source, T: Source>(
    alloc: Global,
    times: Times,
    origins: Vec<i64>,
    source: S,
    again: T,
    plan: Plan,
) -> Result<PlannedFile<S>, Stop>
    ensures source { IfOk result (λ p. S.all p.source ≡ S.all source) }
    ensures within { IfOk result (λ p. IfSome (S.all source) (λ B. AreWithin (length B) p.plan.value)) }
    ensures file { IfOk result (λ p. IfSome (S.all source)
        (λ B. T.all again ≡ Some B → IsCut times B (spelled B p.plan.value))) }
{
    let part = Part {
        from: times.from,
        to: times.to,
        origins,
    };
    let planned = check_part(alloc, &part, source, again, plan)?;
    Ok(planned)
}
