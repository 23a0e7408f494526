//! The rules of a single box, with the boxes around it and in it.

ghost use Rattle.std.specs.Prelude.{◌≡◌, ◌<◌, ◌++◌, IfOk, IfSome, OnOk, List, drop, is_some, length, option_map, take};
ghost use Rattle.std.specs.declared.option.Option.{Option};
ghost use Rattle.mp4_check.specs.BoxFaults.{box_faults, content_faults, if_true, missing_faults, sibling_faults};
ghost use Rattle.mp4_check.specs.FaultValues.{fault_at, values_of};
ghost use Rattle.mp4_content.specs.Paths.{AreOpen, parts_of};
ghost use Rattle.mp4_check.specs.Unreadable.{unreadable};
ghost use Rattle.mp4_check.specs.declared.fault.What.TheVariants as whats;
ghost use Rattle.mp4_check.specs.declared.unreadable.Unread.{Unread};
ghost use Rattle.mp4_frame.specs.declared.four_cc.FourCC.{FourCC};

use crate::contents::{lacks_sets, unlisted};
use crate::fault::{Fault, Reason, What};
use crate::siblings::{lacks, needed_in, repeated};
use crate::unreadable::{Unread, unreadable};
use mp4_content::{BoxPaths, Shown, or_memory};
use mp4_io::Failure;
use mp4_show::Result;
use mp4_walk::{BoxWalk, Source, TreeBox};
use std::alloc::Global;

/// Appends the fault `what`, if there is one, of the box `found`, which was entered last.
fn push_fault(
    alloc: Global,
    found: &TreeBox,
    paths: &BoxPaths,
    what: Option<What>,
    reason: Reason,
    faults: &mut Vec<Fault>,
) -> Result<()>
    ensures { (opened : List (List (Option FourCC))) → AreOpen opened paths.now.levels.items
        → OnOk result (values_of faults.new.items ≡ values_of faults.old.items
        ++ fault_at found.now.position (parts_of opened) what) }
{
    let Some(what) = what else {
        return Ok(());
    };
    let path = paths.path(alloc)?;
    faults.push(Fault {
        position: found.position,
        path,
        what,
        reason,
    })?;
    Ok(())
}

/// Appends the fault of each box that `found` lacks. `after` has all boxes after it.
fn push_missing(
    alloc: Global,
    found: &TreeBox,
    after: &[TreeBox],
    paths: &BoxPaths,
    faults: &mut Vec<Fault>,
) -> Result<()>
    ensures { (opened : List (List (Option FourCC))) → AreOpen opened paths.now.levels.items
        → OnOk result (values_of faults.new.items ≡ values_of faults.old.items
        ++ missing_faults (parts_of opened) found.now after.now) }
{
    for part in needed_in(found) {
        let what = lacks(*part, found, after);
        push_fault(alloc, found, paths, what, Reason::None, faults)?;
    }
    Ok(())
}

/// Appends the faults of `found` that its siblings and the boxes in it show. `before` has all boxes before it, and
/// `after` all boxes after it.
fn push_siblings(
    alloc: Global,
    before: &[TreeBox],
    found: &TreeBox,
    after: &[TreeBox],
    paths: &BoxPaths,
    faults: &mut Vec<Fault>,
) -> Result<()>
    ensures { (opened : List (List (Option FourCC))) → AreOpen opened paths.now.levels.items
        → OnOk result (values_of faults.new.items ≡ values_of faults.old.items
        ++ sibling_faults (parts_of opened) before.now found.now after.now) }
{
    let twice = repeated(before, found);
    push_fault(alloc, found, paths, twice, Reason::None, faults)?;
    push_missing(alloc, found, after, paths, faults)
}

/// Appends the fault `unread` of `found`, if there is one.
fn push_unread(
    alloc: Global,
    found: &TreeBox,
    paths: &BoxPaths,
    unread: Option<Unread>,
    faults: &mut Vec<Fault>,
) -> Result<()>
    ensures { (opened : List (List (Option FourCC))) → AreOpen opened paths.now.levels.items
        → OnOk result (values_of faults.new.items ≡ values_of faults.old.items
        ++ fault_at found.now.position (parts_of opened) (option_map (λ (u : Unread). u.what) unread)) }
{
    match unread {
        Some(Unread { what, reason }) => {
            push_fault(alloc, found, paths, Some(what), reason, faults)
        }
        None => Ok(()),
    }
}

/// Appends the fault of `found` if it can't be read.
fn push_unreadable<B: Shown, S: Source>(
    alloc: Global,
    walk: &mut BoxWalk<S>,
    found: &TreeBox,
    paths: &BoxPaths,
    faults: &mut Vec<Fault>,
) -> std::result::Result<(), Failure>
    ensures value { IfSome walk.old.bytes
        (λ file. (opened : List (List (Option FourCC))) → AreOpen opened paths.now.levels.items
        → OnOk result (values_of faults.new.items ≡ values_of faults.old.items
        ++ fault_at found.now.position (parts_of opened) (unreadable B.known B.named_reading file found.now))) }
    ensures kept { walk.new ≡ walk.old }
{
    let unread = unreadable::<B, S>(alloc, walk, found)?;
    or_memory(push_unread(alloc, found, paths, unread, faults))
}

/// Appends the fault of `found` whose sizes can't be listed for `reason`, if there is one.
fn push_unlisted(
    alloc: Global,
    found: &TreeBox,
    paths: &BoxPaths,
    reason: Option<Reason>,
    faults: &mut Vec<Fault>,
) -> Result<()>
    ensures { (opened : List (List (Option FourCC))) → AreOpen opened paths.now.levels.items
        → OnOk result (values_of faults.new.items ≡ values_of faults.old.items
        ++ fault_at found.now.position (parts_of opened) (if_true (is_some reason) whats.Unlisted)) }
{
    match reason {
        Some(reason) => push_fault(alloc, found, paths, Some(What::Unlisted), reason, faults),
        None => Ok(()),
    }
}

/// Returns the fault of a box that lacks parameter sets, if `lacks_sets` says that it does.
fn sets_what(lacks_sets: bool) -> Option<What>
    ensures { result ≡ if_true lacks_sets whats.WithoutSets }
{
    if lacks_sets {
        Some(What::WithoutSets)
    } else {
        None
    }
}

/// Appends the faults of the content of `found`: sizes that can't be listed, and sets that are missing.
fn push_contents<S: Source>(
    alloc: Global,
    walk: &mut BoxWalk<S>,
    found: &TreeBox,
    paths: &BoxPaths,
    faults: &mut Vec<Fault>,
) -> std::result::Result<(), Failure>
    ensures value { IfSome walk.old.bytes
        (λ file. (opened : List (List (Option FourCC))) → AreOpen opened paths.now.levels.items
        → OnOk result (values_of faults.new.items ≡ values_of faults.old.items
        ++ content_faults file (parts_of opened) found.now)) }
    ensures kept { walk.new ≡ walk.old }
{
    let reason = unlisted(alloc, walk, found)?;
    or_memory(push_unlisted(alloc, found, paths, reason, faults))?;
    let what = sets_what(lacks_sets(alloc, walk, found)?);
    or_memory(push_fault(alloc, found, paths, what, Reason::None, faults))
}

/// Returns the faults of the box with this `index` among `boxes`, the boxes of a file. `paths` entered it last.
pub fn box_faults<B: Shown, S: Source>(
    alloc: Global,
    walk: &mut BoxWalk<S>,
    boxes: &[TreeBox],
    index: usize,
    paths: &BoxPaths,
) -> std::result::Result<Vec<Fault>, Failure>
    requires { index < length boxes.now }
    ensures value { IfSome walk.old.bytes
        (λ file. (opened : List (List (Option FourCC))) → AreOpen opened paths.now.levels.items
        → IfOk result (λ faults. values_of faults.items
        ≡ box_faults B.known B.named_reading file (parts_of opened) (take index boxes.now)
        (drop index boxes.now))) }
    ensures kept { walk.new ≡ walk.old }
{
    let found = boxes[index];
    let mut faults = Vec::new(alloc);
    push_unreadable::<B, S>(alloc, walk, &found, paths, &mut faults)?;
    or_memory(push_siblings(
        alloc,
        &boxes[..index],
        &found,
        &boxes[index + 1..],
        paths,
        &mut faults,
    ))?;
    push_contents(alloc, walk, &found, paths, &mut faults)?;
    Ok(faults)
}
