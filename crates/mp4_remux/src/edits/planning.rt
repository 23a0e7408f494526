//! The plan of a file after splices.

ghost use Rattle.std.specs.Prelude.{◌≡◌, ◌-◌, ◌++◌, ℕ, List, length, IfOk, OnOk};
ghost use Rattle.mp4_remux.specs.Pieces.{bytes_of, spelled};
ghost use Rattle.mp4_remux.specs.Splices.{spliced};
ghost use Rattle.mp4_walk.specs.Source.{piece};

use crate::edits::splice::Splice;
use crate::pieces::{Piece, Plan, PlanError};
use crate::refusal::Stop;
use mp4_io::Failure;
use std::alloc::Global;

/// Adds `piece` to `plan`.
fn push(plan: &mut Plan, piece: Piece) -> Result<(), Stop>
    ensures { OnOk result ((B : List ℕ) → spelled B plan.new ≡ spelled B plan.old ++ bytes_of B piece) }
{
    match plan.push(piece) {
        Ok(()) => Ok(()),
        Err(PlanError::TooLong) => Err(Stop::Failed(Failure::Read)),
        Err(PlanError::Memory) => Err(Stop::Failed(Failure::Memory)),
    }
}

/// Adds to `plan` the bytes of the old file from position `at` up to `splice`, and then its bytes.
fn push_splice(plan: &mut Plan, at: u64, splice: Splice) -> Result<(), Stop>
    ensures { OnOk result ((B : List ℕ) → spelled B plan.new
        ≡ spelled B plan.old ++ piece B at (splice.begin - at) ++ splice.bytes.items) }
{
    let Splice {
        depth: _,
        begin,
        end: _,
        bytes,
    } = splice;
    push(
        plan,
        Piece::Old {
            begin: at,
            end: begin,
        },
    )?;
    push(plan, Piece::New(bytes))
}

/// Plans a file of length `size` after `splices`, which are in order.
pub fn plan_spliced(alloc: Global, size: u64, splices: Vec<Splice>) -> Result<Plan, Stop>
    ensures { IfOk result
        (λ plan. (B : List ℕ) → size ≡ length B → spelled B plan ≡ spliced B splices.items) }
{
    let mut plan = Plan::new(alloc);
    let mut at: u64 = 0;
    for splice in splices {
        let end = splice.end;
        match push_splice(&mut plan, at, splice) {
            Ok(()) => at = end,
            Err(stop) => return Err(stop),
        }
    }
    match push(
        &mut plan,
        Piece::Old {
            begin: at,
            end: size,
        },
    ) {
        Ok(()) => Ok(plan),
        Err(stop) => Err(stop),
    }
}
