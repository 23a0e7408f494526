//! One step of the walk: the box at a position, and the position at which the walk continues.

ghost use Rattle.std.specs.Prelude.{◌≡◌, ℕ, ◌+◌, ◌-◌, ◌<◌, ◌≤◌, List, length, min, IfOk, IfSome};
ghost use Rattle.mp4_walk.specs.Found.{content_begin, end_within};
ghost use Rattle.mp4_walk.specs.Source.{IsWindow};
ghost use Rattle.mp4_walk.specs.FileBoxes.{if_whole, level_in, passed, entered, step_of_box, step_of, step};
ghost use Rattle.mp4_walk.specs.FileBoxes.{GoesDeeper, GoesOn};

use crate::found::{end_within, found_at};
use crate::fronts::{context_in, fields_in, front_of, level_after};
use crate::level::Level;
use crate::pages::Pages;
use crate::peek::{Peek, peek_at};
use crate::source::Source;
use crate::tree_box::{BoxState, TreeBox};
use std::io;

/// The largest depth of a box. The walk does not enter a box at this depth.
pub const DEEPEST: u64 = 32;

/// The result of one step of the walk over a file.
#[derive(Clone, Copy, Debug, PartialEq, Eq)]
pub struct Step {
    /// The box at the position, or the reason why there is none.
    pub found: TreeBox,
    /// The level of the box, with the context after the box.
    pub level: Level,
    /// The content of the box, if the walk enters it.
    pub inner: Option<Level>,
    /// The position at which the walk continues: in the content of the box, or after the box.
    pub at: u64,
}

/// Returns the state of a box that holds boxes: `whole` if it is whole, else `state`.
fn if_whole(whole: BoxState, state: BoxState) -> BoxState
    ensures { result ≡ if_whole whole state }
{
    match state {
        BoxState::Leaf => whole,
        other => other,
    }
}

/// Returns the level of the content of a box in `level`. The box has this `code` and `peek`, and ends at `end`.
fn level_in(level: Level, code: u32, peek: Peek, end: u64) -> Level
    requires { level.depth < 32 }
    ensures { result ≡ level_in level code peek end }
{
    Level {
        depth: level.depth + 1,
        end,
        context: context_in(level.context, code, peek),
    }
}

/// Returns the step over `found`, without entering it.
fn passed(level: Level, found: TreeBox, after: Level) -> Step
    ensures { result ≡ passed level found after }
{
    Step {
        found,
        level: after,
        inner: None,
        at: end_within(level, found),
    }
}

/// Returns the step into the box `found` with this `code` and `peek`. `fields` is the number of bytes before its first
/// child.
fn entered(level: Level, found: TreeBox, code: u32, peek: Peek, fields: u64, after: Level) -> Step
    requires fields { content_begin found + fields ≤ end_within level found }
    requires depth { level.depth < 32 }
    ensures { result ≡ entered level found code peek fields after }
{
    let children = found.position + found.header_length + fields;
    Step {
        found: TreeBox {
            children: Some(children),
            state: if_whole(BoxState::Parent, found.state),
            ..found
        },
        level: after,
        inner: Some(level_in(level, code, peek, end_within(level, found))),
        at: children,
    }
}

/// Returns the step at the box `found` with this `code`.
fn step_of_box(level: Level, found: TreeBox, code: u32, peek: Peek) -> Step
    requires { content_begin found ≤ end_within level found }
    ensures { result ≡ step_of_box level found code peek }
{
    let after = level_after(level, code, peek);
    let available = end_within(level, found) - (found.position + found.header_length);
    let front = front_of(level.context, code, peek);
    let found = TreeBox { front, ..found };
    match fields_in(front, available) {
        None => passed(level, found, after),
        Some(fields) if level.depth < DEEPEST => {
            entered(level, found, code, peek, fields, after)
        }
        Some(_) => {
            let state = if_whole(BoxState::TooDeep, found.state);
            passed(level, TreeBox { state, ..found }, after)
        }
    }
}

/// Returns the step at `found`, which may not be a box.
fn step_of(level: Level, found: TreeBox, peek: Peek) -> Step
    requires { content_begin found ≤ end_within level found }
    ensures { result ≡ step_of level found peek }
{
    match (found.state, found.code) {
        (BoxState::Small | BoxState::NoHeader, _) | (_, None) => passed(level, found, level),
        (_, Some(code)) => step_of_box(level, found, u32::from(code), peek),
    }
}

/// The number of bytes of a box that a step needs: a header of 16, and 12 of its content.
const WINDOW: usize = 28;

/// Returns the step at position `at` of `level`. `window` has the 28 bytes starting there, or all up to the end of the
/// level if there are fewer.
pub fn step_in(window: &[u8], level: Level, at: u64) -> Step
    requires inside { at < level.end }
    requires long { length window.now ≡ min (level.end - at) 28 }
    ensures step { (B : List ℕ) → IsWindow B at window.now → level.end ≤ length B → result ≡ step B level at }
    ensures on { GoesOn level at result }
    ensures deep { (result.level.depth ≡ level.depth) × GoesDeeper level result.inner }
{
    let found = found_at(window, level, at);
    let peek = peek_at(window, found.header_length, end_within(level, found) - at);
    step_of(level, found, peek)
}

/// Returns the step at position `at` of `level`, after reading the bytes there from `pages`.
pub fn step_at<S: Source>(pages: &mut Pages<S>, level: Level, at: u64) -> io::Result<Step>
    requires within { level.end ≤ pages.old.length }
    requires inside { at < level.end }
    ensures step { IfSome pages.old.bytes (λ B. pages.old.length ≡ length B → IfOk result (λ s. s ≡ step B level at)) }
    ensures on { IfOk result (GoesOn level at) }
    ensures kept { pages.new ≡ pages.old }
{
    let mut buffer = [0; WINDOW];
    let len = (level.end - at).min(WINDOW as u64) as usize;
    pages.window(at, &mut buffer[..len])?;
    Ok(step_in(&buffer[..len], level, at))
}
