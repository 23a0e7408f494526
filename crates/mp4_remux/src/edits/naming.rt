//! The splices that edits name.

ghost use Rattle.std.specs.Prelude.{◌≡◌, ◌++◌, ◌∷◌, [], ℕ, List, None, IfOk, IfSome, OnOk, filter, length};
ghost use Rattle.std.specs.List.{AllZip};
ghost use Rattle.std.specs.List.Sorted.{IsPermutation};
ghost use Rattle.mp4_remux.specs.Edits.{AreNamed, Covers, IsSpliceOf, Name, is_kind};
ghost use Rattle.mp4_remux.specs.Splices.{AreInOrder};
ghost use Rattle.mp4_walk.specs.FileBoxes.{boxes_of};

use crate::edits::edit::{Edit, Parent};
use crate::edits::finding::{end_of, whole_box};
use crate::edits::hiding::hiding;
use crate::edits::inserting::{counted, counts, inserted, inserted_on_top};
use crate::edits::refusal::EditRefusal;
use crate::edits::splice::Splice;
use crate::refusal::{Stop, refused};
use mp4_movie::Movie;
use mp4_walk::{BoxPath, BoxWalk, Source, TreeBox};
use std::alloc::{AllocError, Global};

/// The splices of edits.
#[derive(Drop)]
pub struct Named {
    /// Those that hide the boxes of dropped tracks, in order.
    pub hidden: Vec<Splice>,
    /// The others, in order.
    pub splices: Vec<Splice>,
}

/// Returns a splice of the whole box.
fn covering(found: &TreeBox, bytes: Vec<u8>) -> Splice
    ensures place { Covers found.now result }
    ensures bytes { result.bytes ≡ bytes }
{
    Splice {
        depth: found.depth,
        begin: found.position,
        end: end_of(found),
        bytes,
    }
}

/// Returns the splice that removes the box at `path`.
fn removal(alloc: Global, boxes: &[TreeBox], path: &BoxPath) -> Result<Splice, Stop>
    ensures { (B : List ℕ) → boxes.now ≡ boxes_of B → IfOk result (IsSpliceOf B (Edit.Remove path.now)) }
{
    let found = whole_box(alloc, boxes, path)?;
    if counts(found.context.parent) {
        return Err(counted(alloc, path));
    }
    Ok(covering(&found, Vec::new(alloc)))
}

/// Returns a copy of `bytes`.
fn copied(alloc: Global, bytes: &Vec<u8>) -> Result<Vec<u8>, AllocError>
    ensures { IfOk result (λ made. made.items ≡ bytes.now.items) }
{
    Vec::from_slice(alloc, bytes.as_slice())
}

/// Returns the splice of `edit`.
fn splice_of<S: Source>(
    alloc: Global,
    walk: &mut BoxWalk<S>,
    boxes: &[TreeBox],
    edit: &Edit,
) -> Result<Splice, Stop>
    ensures splice { IfSome walk.old.bytes
        (λ B. boxes.now ≡ boxes_of B → IfOk result (IsSpliceOf B edit.now)) }
    ensures kept { walk.new ≡ walk.old }
{
    match edit {
        Edit::Remove(path) => removal(alloc, boxes, path),
        Edit::Replace(path, bytes) => {
            let found = whole_box(alloc, boxes, path)?;
            Ok(covering(&found, copied(alloc, bytes)?))
        }
        Edit::Insert(Parent::File, before, bytes) => {
            inserted_on_top(alloc, walk, boxes, *before, copied(alloc, bytes)?)
        }
        Edit::Insert(Parent::In(path), before, bytes) => {
            inserted(alloc, boxes, path, *before, copied(alloc, bytes)?)
        }
        Edit::Hide(at, id) => hiding(alloc, walk, boxes, *at, *id),
    }
}

/// Adds `splice` to `splices`.
fn push(splices: &mut Vec<Splice>, splice: Splice) -> Result<(), AllocError>
    ensures { OnOk result (splices.new.items ≡ splices.old.items ++ splice ∷ []) }
{
    splices.push(splice)?;
    Ok(())
}

/// Sorts `splices` by their ranges. An insertion comes before what begins at its position, and the deeper one of two
/// comes first.
fn sort(splices: &mut Vec<Splice>) -> Result<(), AllocError>
    ensures { IsPermutation splices.old.items splices.new.items }
{
    splices.sort_by_key(|splice| (splice.begin, splice.end, u64::MAX - splice.depth))
}

/// Returns the position at which the first of `splices` begins that is not after the one before, or the position after
/// the file if the last one ends after it.
fn first_overlap(splices: &[Splice], length: u64) -> Option<u64>
    ensures { result ≡ None → AreInOrder length splices.now }
{
    let mut at: u64 = 0;
    let mut depth: u64 = 0;
    for splice in splices {
        if splice.begin < at
            || splice.begin == at && splice.depth > depth
            || splice.end < splice.begin
        {
            return Some(splice.begin);
        }
        at = splice.end;
        depth = splice.depth;
    }
    if at > length { Some(length) } else { None }
}

/// Checks that `splices` are in order, in a file of this length.
pub fn check_order(splices: &[Splice], length: u64) -> Result<(), Stop>
    ensures { OnOk result (AreInOrder length splices.now) }
{
    match first_overlap(splices, length) {
        Some(at) => Err(refused(EditRefusal::Overlap(at))),
        None => Ok(()),
    }
}

/// Returns whether `edit` hides a box, or else whether it doesn't if `hides` is false.
fn is_kind(edit: &Edit, hides: bool) -> bool
    ensures { result ≡ is_kind hides edit.now }
{
    matches!(edit, Edit::Hide(_, _)) == hides
}

/// Returns the splices of those of `edits` that hide boxes, or else of the others if `hides` is false.
fn collected<S: Source>(
    alloc: Global,
    walk: &mut BoxWalk<S>,
    boxes: &[TreeBox],
    edits: &[Edit],
    hides: bool,
) -> Result<Vec<Splice>, Stop>
    ensures splices { IfSome walk.old.bytes (λ B. boxes.now ≡ boxes_of B
        → IfOk result (λ ss. AllZip (IsSpliceOf B) (filter (is_kind hides) edits.now) ss.items)) }
    ensures kept { walk.new ≡ walk.old }
{
    let mut splices = Vec::new(alloc);
    for edit in edits {
        if is_kind(edit, hides) {
            let splice = splice_of(alloc, walk, boxes, edit)?;
            push(&mut splices, splice)?;
        }
    }
    Ok(splices)
}

/// Returns the splices, in order, of those of `edits` that hide boxes, or else of the others if `hides` is false.
fn splices_of<S: Source>(
    alloc: Global,
    walk: &mut BoxWalk<S>,
    boxes: &[TreeBox],
    edits: &[Edit],
    hides: bool,
) -> Result<Vec<Splice>, Stop>
    ensures named { IfSome walk.old.bytes (λ B. boxes.now ≡ boxes_of B
        → IfOk result (λ ss. Name B (filter (is_kind hides) edits.now) ss.items)) }
    ensures kept { walk.new ≡ walk.old }
{
    let mut splices = collected(alloc, walk, boxes, edits, hides)?;
    sort(&mut splices)?;
    Ok(splices)
}

/// Returns the source, its length, and the splices of `edits`.
pub fn name_splices<S: Source>(
    alloc: Global,
    source: S,
    edits: &[Edit],
) -> Result<(S, u64, Named), Stop>
    ensures source { IfOk result (λ r. S.all r.0 ≡ S.all source) }
    ensures length { IfOk result (λ r. IfSome (S.all source) (λ B. r.1 ≡ length B)) }
    ensures named { IfOk result (λ r. IfSome (S.all source)
        (λ B. AreNamed B edits.now r.2.hidden.items r.2.splices.items)) }
    ensures order { IfOk result (λ r. IfSome (S.all source) (λ B. AreInOrder (length B) r.2.hidden.items)) }
{
    let movie = Movie::open(alloc, source)?;
    let (mut walk, boxes) = movie.into_parts();
    let length = walk.length();
    let hidden = splices_of(alloc, &mut walk, &boxes, edits, true)?;
    check_order(&hidden, length)?;
    let splices = splices_of(alloc, &mut walk, &boxes, edits, false)?;
    Ok((walk.into_source(), length, Named { hidden, splices }))
}
