//! The rules about the boxes around a box and in it: one too many, and one that is missing.

ghost use Rattle.std.specs.Prelude.{◌≡◌, ◌+◌, ◌<◌, ◌&&◌, ◌==◌, reverse};
ghost use Rattle.mp4_check.specs.Siblings.{earlier_in, has_part, is_child, is_of_group, parent_code, repeated};
ghost use Rattle.mp4_check.specs.Parts.{needed};
ghost use Rattle.mp4_check.specs.Siblings.{lacks};

use crate::fault::What;
use crate::parts::{group_of, is_part, needed};
use mp4_walk::TreeBox;

/// Returns whether `found` is one of `group`, of which a box with the code `parent` may contain only one.
fn is_of_group(found: &TreeBox, parent: u32, group: u32) -> bool
    ensures { result ≡ is_of_group parent group found.now.code }
{
    match found.code {
        Some(code) => group_of(parent, u32::from(code)) == Some(group),
        None => false,
    }
}

/// Returns the position of the last box of `group` in the level of `depth` at the end of `before`.
fn earlier_in(before: &[TreeBox], depth: u64, parent: u32, group: u32) -> Option<u64>
    ensures { result ≡ earlier_in depth parent group (reverse before.now) }
{
    let mut left = before.len();
    'places: while left > 0 {
        left -= 1;
        let found = &before[left];
        if found.depth < depth {
            return None;
        }
        if found.depth == depth && is_of_group(found, parent, group) {
            return Some(found.position);
        }
    }
    None
}

/// Returns the fault of `found` if the box around it may contain only one box of its group, and has another before it.
/// `before` has all boxes before it.
pub fn repeated(before: &[TreeBox], found: &TreeBox) -> Option<What>
    ensures { result ≡ repeated before.now found.now }
{
    let code = u32::from(found.code?);
    let parent = found.context.parent;
    let group = group_of(parent, code)?;
    let earlier = earlier_in(before, found.depth, parent, group)?;
    Some(What::Repeated {
        parent,
        group,
        earlier,
    })
}

/// Returns whether `found` is a child of a box of `depth` that has the code `part`, or serves instead.
fn is_child(found: &TreeBox, depth: u64, part: u32) -> bool
    requires { depth < found.now.depth }
    ensures { result ≡ is_child depth part found.now }
{
    match found.code {
        Some(code) => found.depth == depth + 1 && is_part(part, u32::from(code)),
        None => false,
    }
}

/// Returns whether a child of a box of `depth` has the code `part`, or serves instead. `after` begins with the boxes in
/// it.
fn has_part(part: u32, depth: u64, after: &[TreeBox]) -> bool
    ensures { result ≡ has_part part depth after.now }
{
    for found in after {
        if found.depth <= depth {
            return false;
        }
        if is_child(found, depth, part) {
            return true;
        }
    }
    false
}

/// Returns the code of `found` if it is a whole box that holds boxes, or 0.
fn parent_code(found: &TreeBox) -> u32
    ensures { result ≡ parent_code found.now }
{
    match found.code {
        Some(code) if found.is_whole() && found.children.is_some() => u32::from(code),
        _ => 0,
    }
}

/// Returns the codes of the boxes that `found` has to contain.
pub fn needed_in(found: &TreeBox) -> &'static [u32]
    ensures { result.now ≡ needed (parent_code found.now) }
{
    needed(parent_code(found))
}

/// Returns the fault of `found` if it lacks a box with the code `part`. `after` has all boxes after it.
pub fn lacks(part: u32, found: &TreeBox, after: &[TreeBox]) -> Option<What>
    ensures { result ≡ lacks found.now after.now part }
{
    if has_part(part, found.depth, after) {
        None
    } else {
        Some(What::Missing(part))
    }
}
