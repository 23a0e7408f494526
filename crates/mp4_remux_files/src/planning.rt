//! The plan of a file whose movie box is moved.

ghost use Rattle.std.specs.Prelude.{◌≡◌, ◌-◌, ◌≤◌, ◌++◌, ℕ, List, length, take, drop, IfOk, IfSome, IsTrue, OnOk};
ghost use Rattle.mp4_remux_files.specs.FastStarts.{AreMoveOf, PlansMove, movie_of};
ghost use Rattle.mp4_remux_files.specs.Moved.{AddsPart, AreMove};
ghost use Rattle.mp4_remux.specs.Pieces.{bytes_of, spelled};
ghost use Rattle.mp4_remux.specs.Splices.{spliced};
ghost use Rattle.mp4_walk.specs.FileBoxes.{boxes_of};
ghost use Rattle.mp4_walk.specs.Source.{IsWindow, piece};

use crate::movement::Move;
use crate::patches::{add_splice, followed};
use crate::place::list_boxes;
use crate::rebuild::moved_movie;
use crate::refusal::Stop;
use mp4_io::Failure;
use mp4_remux::edits::Splice;
use mp4_remux::pieces::{Piece, Plan, PlanError};
use mp4_walk::{BoxWalk, Source, TreeBox};
use std::alloc::{AllocError, Global};

/// The number of bytes of two movie boxes that are compared at once.
const PART: usize = 65_536;

/// Adds `piece` to `plan`.
fn push(plan: &mut Plan, piece: Piece) -> Result<(), Stop>
    ensures { OnOk result ((B : List ℕ) → spelled B plan.new ≡ spelled B plan.old ++ bytes_of B piece) }
{
    match plan.push(piece) {
        Ok(()) => Ok(()),
        Err(PlanError::TooLong) => Err(Stop::Failed(Failure::Read)),
        Err(PlanError::Memory) => Err(Stop::Failed(Failure::Memory)),
    }
}

/// Plans a copy of a file of length `size`.
pub fn plan_copy(alloc: Global, size: u64) -> Result<Plan, Stop>
    ensures { IfOk result (λ plan. (B : List ℕ) → size ≡ length B → spelled B plan ≡ B) }
{
    let mut plan = Plan::new(alloc);
    push(
        &mut plan,
        Piece::Old {
            begin: 0,
            end: size,
        },
    )?;
    Ok(plan)
}

/// Returns whether the bytes of `made` from `at` to `to` are those of `movie` at the same indexes.
fn is_same(movie: &[u8], made: &[u8], at: usize, to: usize) -> bool
    requires order { at ≤ to }
    requires within { to ≤ length made.now }
    ensures within { IsTrue result → to ≤ length movie.now }
    ensures same { IsTrue result → take (to - at) (drop at movie.now) ≡ take (to - at) (drop at made.now) }
{
    to <= movie.len() && movie[at..to] == made[at..to]
}

/// Adds the bytes of `made` from `at` to `to`. They are a range of the old file if the movie box `movie`, which begins
/// there at `begin`, has the same bytes at the same indexes, and else new bytes.
fn push_part(
    alloc: Global,
    plan: &mut Plan,
    begin: u64,
    movie: &[u8],
    made: &[u8],
    at: usize,
    to: usize,
) -> Result<(), Stop>
    requires order { at ≤ to }
    requires within { to ≤ length made.now }
    ensures { OnOk result (AddsPart begin movie.now made.now at to plan.old plan.new) }
{
    if is_same(movie, made, at, to) && to as u64 <= u64::MAX - begin {
        return push(
            plan,
            Piece::Old {
                begin: begin + at as u64,
                end: begin + to as u64,
            },
        );
    }
    let bytes = Vec::from_slice(alloc, &made[at..to])?;
    push(plan, Piece::New(bytes))
}

/// Adds the bytes of `made`, the new movie box. Parts of it that the old movie box `movie` has at the same indexes are
/// ranges of the old file, in which that begins at `begin`. So the plan takes memory for the other parts only.
fn push_movie(
    alloc: Global,
    plan: &mut Plan,
    begin: u64,
    movie: &[u8],
    made: &[u8],
) -> Result<(), Stop>
    ensures { OnOk result ((B : List ℕ) → IsWindow B begin movie.now
        → spelled B plan.new ≡ spelled B plan.old ++ made.now) }
{
    let mut at: usize = 0;
    while at < made.len() {
        let to = at + (made.len() - at).min(PART);
        match push_part(alloc, plan, begin, movie, made, at, to) {
            Ok(()) => at = to,
            Err(stop) => return Err(stop),
        }
    }
    Ok(())
}

/// Adds the bytes of the old file from position `at` up to `splice`, and then its bytes. Parts of these that the old
/// movie box `movie`, which begins at `begin`, has at the same indexes are ranges of the old file.
fn push_splice(
    alloc: Global,
    plan: &mut Plan,
    begin: u64,
    movie: &[u8],
    at: u64,
    splice: &Splice,
) -> Result<(), Stop>
    ensures { OnOk result ((B : List ℕ) → IsWindow B begin movie.now → spelled B plan.new
        ≡ spelled B plan.old ++ piece B at (splice.now.begin - at) ++ splice.now.bytes.items) }
{
    push(
        plan,
        Piece::Old {
            begin: at,
            end: splice.begin,
        },
    )?;
    push_movie(alloc, plan, begin, movie, splice.bytes.as_slice())?;
    Ok(())
}

/// Plans a file of length `size` after `splices`. Its movie box is `movie`, and begins at `begin`.
fn plan_parts(
    alloc: Global,
    size: u64,
    begin: u64,
    movie: &[u8],
    splices: Vec<Splice>,
) -> Result<Plan, Stop>
    ensures { IfOk result (λ plan. (B : List ℕ) → size ≡ length B → IsWindow B begin movie.now
        → spelled B plan ≡ spliced B splices.items) }
{
    let mut plan = Plan::new(alloc);
    let mut at: u64 = 0;
    for splice in splices {
        match push_splice(alloc, &mut plan, begin, movie, at, &splice) {
            Ok(()) => at = splice.end,
            Err(stop) => return Err(stop),
        }
    }
    push(
        &mut plan,
        Piece::Old {
            begin: at,
            end: size,
        },
    )?;
    Ok(plan)
}

/// Returns the splices of the move of a movie box, which is `made` at its new place.
fn move_splices(alloc: Global, shift: Move, made: Vec<u8>) -> Result<Vec<Splice>, AllocError>
    ensures { IfOk result (λ ss. AreMove shift made.items ss.items) }
{
    let put = Splice {
        depth: 0,
        begin: shift.insert,
        end: shift.insert,
        bytes: made,
    };
    let taken = Splice {
        depth: 0,
        begin: shift.begin,
        end: shift.end,
        bytes: Vec::new(alloc),
    };
    let mut splices = Vec::new(alloc);
    add_splice(&mut splices, put)?;
    add_splice(&mut splices, taken)?;
    Ok(splices)
}

/// Returns the movie box of a source.
fn movie_of<S: Source>(alloc: Global, source: &mut S, shift: Move) -> Result<Vec<u8>, Stop>
    ensures bytes { IfOk result (λ bytes. IfSome (S.all source.old) (λ B. bytes.items ≡ movie_of shift B)) }
    ensures window { IfOk result (λ bytes. IfSome (S.all source.old) (λ B. IsWindow B shift.begin bytes.items)) }
    ensures keeps { S.all source.new ≡ S.all source.old }
{
    let mut bytes = Vec::new(alloc);
    bytes.resize(shift.end.saturating_sub(shift.begin) as usize, 0)?;
    source.read_at(shift.begin, &mut bytes)?;
    Ok(bytes)
}

/// Returns the splices that move the movie box `movie` of a file, and those that set the fields of other boxes.
fn splices_of<S: Source>(
    alloc: Global,
    walk: &mut BoxWalk<S>,
    boxes: &[TreeBox],
    movie: &[u8],
    shift: Move,
) -> Result<Vec<Splice>, Stop>
    ensures moves { IfSome walk.old.bytes (λ B. boxes.now ≡ boxes_of B → movie.now ≡ movie_of shift B
        → IfOk result (λ all. AreMoveOf B shift all.items)) }
    ensures walk { walk.new ≡ walk.old }
{
    let made = moved_movie(alloc, movie, shift)?;
    let splices = move_splices(alloc, shift, made)?;
    let all = followed(alloc, walk, boxes, splices)?;
    Ok(all)
}

/// Returns the source with its splices.
fn all_splices<S: Source>(
    alloc: Global,
    source: S,
    movie: &[u8],
    shift: Move,
) -> Result<(S, Vec<Splice>), Stop>
    ensures source { IfOk result (λ r. S.all r.0 ≡ S.all source) }
    ensures moves { IfOk result (λ r. IfSome (S.all source)
        (λ B. movie.now ≡ movie_of shift B → AreMoveOf B shift r.1.items)) }
{
    let (mut walk, boxes) = list_boxes(alloc, source)?;
    let all = splices_of(alloc, &mut walk, &boxes, movie, shift)?;
    Ok((walk.into_source(), all))
}

/// Plans a source of length `size` with its movie box moved.
pub fn plan_move<S: Source>(
    alloc: Global,
    source: S,
    size: u64,
    shift: Move,
) -> Result<(S, Plan), Stop>
    ensures plan { IfOk result (λ r. IfSome (S.all source) (λ B. size ≡ length B → PlansMove B shift r.1)) }
    ensures source { IfOk result (λ r. S.all r.0 ≡ S.all source) }
{
    let mut source = source;
    let movie = movie_of(alloc, &mut source, shift)?;
    let (source, all) = all_splices(alloc, source, movie.as_slice(), shift)?;
    let plan = plan_parts(alloc, size, shift.begin, movie.as_slice(), all)?;
    Ok((source, plan))
}
