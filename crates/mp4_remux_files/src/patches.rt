//! The splices that set the fields of the boxes of a file after others.

ghost use Rattle.std.specs.Prelude.{◌≡◌, ◌++◌, ◌∷◌, [], ◌+◌, ℕ, List, length, IfOk, IfSome, OnOk};
ghost use Rattle.std.specs.List.{list_any};
ghost use Rattle.std.specs.List.Sorted.{IsPermutation};
ghost use Rattle.mp4_remux.specs.Splices.{AreInOrder};
ghost use Rattle.mp4_remux_files.specs.Fields.{AreSet};
ghost use Rattle.mp4_remux_files.specs.Shifted.{AddsPatch, ArePatched, AreShifted, Follow, fields_by, fields_within};
ghost use Rattle.mp4_remux_files.specs.Shifted.{moves, no_fragment};
ghost use Rattle.mp4_walk.specs.FileBoxes.{boxes_of};
ghost use Rattle.mp4_walk.specs.Source.{content_of};

use crate::field::Field;
use crate::fields::{fields_in, has_fields};
use crate::fragment::{Fragment, fragment_after, no_fragment};
use crate::numbers::NoFields;
use crate::refusal::{Refusal, Stop};
use crate::setting::set;
use crate::shift::Shift;
use mp4_io::Failure;
use mp4_remux::edits::{Splice, check_order, has_byte, place, text_of};
use mp4_walk::{BoxWalk, Source, TreeBox};
use std::alloc::{AllocError, Global};

/// The change of the positions in a file by splices of its top level.
#[derive(Clone, Copy)]
pub struct SplicedOffsets<'a> {
    /// The splices, in order.
    pub splices: &'a [Splice],
}

impl<'a> Shift for SplicedOffsets<'a> {
    ghost use Rattle.mp4_remux_files.specs.Shifted.{offset_by};

    ghost after = { λ s. offset_by s.splices.now };

    fn shifted(&self, offset: u64) -> Option<u64> {
        if has_byte(self.splices, offset) {
            None
        } else {
            place(self.splices, offset)
        }
    }
}

/// Returns whether `splice` moves what is after it, or takes it away, in a file of this length. What is inserted at the
/// end of the file moves nothing.
pub fn moves(splice: &Splice, length: u64) -> bool
    ensures { result ≡ moves length splice.now }
{
    splice.is_uneven() && (splice.removed() > 0 || splice.end < length)
}

/// Returns whether one of `splices` moves something in a file of this length.
fn any_moves(splices: &[Splice], length: u64) -> bool
    ensures { result ≡ list_any (moves length) splices.now }
{
    for splice in splices {
        if moves(splice, length) {
            return true;
        }
    }
    false
}

/// Adds `splice` to `splices`.
pub fn add_splice(splices: &mut Vec<Splice>, splice: Splice) -> Result<(), AllocError>
    ensures { OnOk result (splices.new.items ≡ splices.old.items ++ splice ∷ []) }
{
    splices.push(splice)?;
    Ok(())
}

/// Returns the fields of `found`, a box of `fragment` with the content `content`, with their numbers after `splices`.
/// There are none if one of these replaces the box.
fn fields_by(
    alloc: Global,
    splices: &[Splice],
    fragment: Fragment,
    content: &[u8],
    found: &TreeBox,
) -> Result<Vec<Field>, NoFields>
    ensures { IfOk result (λ fields. fields.items ≡ fields_within content.now splices.now fragment found.now) }
{
    if has_byte(splices, found.position) {
        return Ok(Vec::new(alloc));
    }
    let shift = SplicedOffsets { splices };
    fields_in(alloc, &shift, fragment, content, found)
}

/// Returns the splice that sets `fields` in `found`, whose content is `content`.
fn patch(
    alloc: Global,
    found: &TreeBox,
    content: &[u8],
    fields: &[Field],
) -> Result<Splice, NoFields>
    ensures depth { IfOk result (λ s. s.depth ≡ found.now.depth + 1) }
    ensures begin { IfOk result (λ s. s.begin ≡ found.now.position + found.now.header_length) }
    ensures end { IfOk result (λ s. s.end ≡ s.begin + length content.now) }
    ensures fields { IfOk result (λ s. AreSet content.now s.bytes.items fields.now) }
{
    let Some(depth) = found.depth.checked_add(1) else {
        return Err(NoFields::Unknown);
    };
    let Some(begin) = found.position.checked_add(found.header_length) else {
        return Err(NoFields::Unknown);
    };
    let Some(end) = begin.checked_add(content.len() as u64) else {
        return Err(NoFields::Unknown);
    };
    match set(alloc, content, fields) {
        Ok(bytes) => Ok(Splice {
            depth,
            begin,
            end,
            bytes,
        }),
        Err(fault) => Err(fault),
    }
}

/// Adds to `patches` the splice that sets `fields` in `found`, whose content is `content`, if there are fields.
#[tactic(auto, using(crate::proofs::Patching::nothing_added, crate::proofs::Patching::patch_added))]
fn push_set(
    alloc: Global,
    patches: &mut Vec<Splice>,
    found: &TreeBox,
    content: &[u8],
    fields: &[Field],
) -> Result<(), NoFields>
    ensures { (B : List ℕ) → content.now ≡ content_of B found.now
        → OnOk result (AddsPatch B found.now fields.now patches.old.items patches.new.items) }
{
    if fields.is_empty() {
        return Ok(());
    }
    match patch(alloc, found, content, fields) {
        Ok(splice) => match add_splice(patches, splice) {
            Ok(()) => Ok(()),
            Err(error) => Err(NoFields::from(error)),
        },
        Err(fault) => Err(fault),
    }
}

/// Adds to `patches` the splice that sets the fields of `found`, a box of `fragment` with fields, after `splices`.
fn push_patch<S: Source>(
    alloc: Global,
    walk: &mut BoxWalk<S>,
    patches: &mut Vec<Splice>,
    splices: &[Splice],
    fragment: Fragment,
    found: &TreeBox,
) -> Result<(), NoFields>
    ensures patched { IfSome walk.old.bytes (λ B. OnOk result
        (AddsPatch B found.now (fields_by B splices.now fragment found.now) patches.old.items patches.new.items)) }
    ensures walk { walk.new ≡ walk.old }
{
    let content = walk.read_content(alloc, found)?;
    let fields = fields_by(alloc, splices, fragment, content.as_slice(), found)?;
    push_set(alloc, patches, found, content.as_slice(), fields.as_slice())
}

/// Adds to `patches` the splice that sets the fields of `found`, a box of `fragment`, after `splices`, if it has some.
#[tactic(auto, using(crate::proofs::Patching::unfielded))]
fn patch_box<S: Source>(
    alloc: Global,
    walk: &mut BoxWalk<S>,
    patches: &mut Vec<Splice>,
    splices: &[Splice],
    fragment: Fragment,
    found: &TreeBox,
) -> Result<(), NoFields>
    ensures patched { IfSome walk.old.bytes (λ B. OnOk result
        (AddsPatch B found.now (fields_by B splices.now fragment found.now) patches.old.items patches.new.items)) }
    ensures walk { walk.new ≡ walk.old }
{
    if !has_fields(found) {
        return Ok(());
    }
    if !found.is_whole() && !has_byte(splices, found.position) {
        return Err(NoFields::Unknown);
    }
    push_patch(alloc, walk, patches, splices, fragment, found)
}

/// Returns why the fields of the box of number `index` can't follow the splices.
fn stop_at(alloc: Global, boxes: &[TreeBox], index: usize, fault: NoFields) -> Stop {
    match fault {
        NoFields::Failed(failure) => Stop::Failed(failure),
        NoFields::Unknown => {
            if index >= boxes.len() {
                return Stop::Failed(Failure::Read);
            }
            let position = boxes[index].position;
            match text_of(alloc, boxes, index) {
                Ok(path) => Stop::Refused(Refusal::Fields { path, position }),
                Err(error) => Stop::from(error),
            }
        }
    }
}

/// Returns the splices that set the fields of `boxes`, those of a file, after `splices`.
fn patches_of<S: Source>(
    alloc: Global,
    walk: &mut BoxWalk<S>,
    boxes: &[TreeBox],
    splices: &[Splice],
) -> Result<Vec<Splice>, Stop>
    ensures patched { IfSome walk.old.bytes
        (λ B. IfOk result (λ patches. ArePatched B splices.now no_fragment boxes.now patches.items)) }
    ensures walk { walk.new ≡ walk.old }
{
    let mut patches = Vec::new(alloc);
    let mut fragment = no_fragment();
    for index in 0..boxes.len() {
        let found = boxes[index];
        match patch_box(alloc, walk, &mut patches, splices, fragment, &found) {
            Ok(()) => {}
            Err(fault) => return Err(stop_at(alloc, boxes, index, fault)),
        }
        match fragment_after(alloc, walk, fragment, &found) {
            Ok(next) => fragment = next,
            Err(fault) => return Err(stop_at(alloc, boxes, index, fault)),
        }
    }
    Ok(patches)
}

/// Returns `splices` with `patches` after them.
fn joined(splices: Vec<Splice>, patches: Vec<Splice>) -> Result<Vec<Splice>, AllocError>
    ensures { IfOk result (λ all. all.items ≡ splices.items ++ patches.items) }
{
    let (mut all, mut rest) = (splices, patches);
    all.append(&mut rest)?;
    Ok(all)
}

/// Sorts `splices` by their ranges. An insertion comes before what begins at its position, and the deeper one of two
/// comes first.
fn sort(splices: &mut Vec<Splice>) -> Result<(), AllocError>
    ensures { IsPermutation splices.old.items splices.new.items }
{
    splices.sort_by_key(|splice| (splice.begin, splice.end, u64::MAX - splice.depth))
}

/// Returns `splices` and `patches` in the order of their positions.
fn together(splices: Vec<Splice>, patches: Vec<Splice>) -> Result<Vec<Splice>, AllocError>
    ensures { IfOk result (λ all. IsPermutation (splices.items ++ patches.items) all.items) }
{
    let mut all = joined(splices, patches)?;
    sort(&mut all)?;
    Ok(all)
}

/// Checks that `splices` are in order, in a file of this length.
fn check_order_of(splices: &[Splice], length: u64) -> Result<(), Stop>
    ensures { OnOk result (AreInOrder length splices.now) }
{
    match check_order(splices, length) {
        Ok(()) => Ok(()),
        Err(stop) => Err(Stop::from(stop)),
    }
}

/// Returns `splices` of the top level of a file with these boxes, and those that set the fields of boxes after them.
fn shifted<S: Source>(
    alloc: Global,
    walk: &mut BoxWalk<S>,
    boxes: &[TreeBox],
    splices: Vec<Splice>,
) -> Result<Vec<Splice>, Stop>
    ensures shifted { IfSome walk.old.bytes (λ B. boxes.now ≡ boxes_of B
        → IfOk result (λ all. AreShifted B splices.items all.items)) }
    ensures walk { walk.new ≡ walk.old }
{
    let patches = patches_of(alloc, walk, boxes, &splices)?;
    let all = together(splices, patches)?;
    check_order_of(&all, walk.length())?;
    Ok(all)
}

/// Returns `splices` of the top level of a file with these boxes, and those that set the fields of boxes after them, if
/// one of `splices` moves bytes.
pub fn followed<S: Source>(
    alloc: Global,
    walk: &mut BoxWalk<S>,
    boxes: &[TreeBox],
    splices: Vec<Splice>,
) -> Result<Vec<Splice>, Stop>
    ensures follow { IfSome walk.old.bytes (λ B. boxes.now ≡ boxes_of B
        → IfOk result (λ all. Follow B splices.items all.items)) }
    ensures walk { walk.new ≡ walk.old }
{
    if !any_moves(&splices, walk.length()) {
        return Ok(splices);
    }
    let all = shifted(alloc, walk, boxes, splices)?;
    Ok(all)
}
