//! A walk over the boxes of a file, one at a time.

ghost use Rattle.std.specs.Prelude.{◌≡◌, ◌<◌, ◌≤◌, ◌∷◌, [], true, false, length, reverse, IfOk, OnOk, OnErr, IfSome};
ghost use Rattle.std.specs.Prelude.{Some};
ghost use Rattle.mp4_walk.specs.Source.{piece, content_of};
ghost use Rattle.mp4_walk.specs.FileBoxes.{boxes_of};
ghost use Rattle.mp4_walk.specs.Walk.{left, bytes_left, Comes, Closes, with_inner};

use crate::level::Level;
use crate::pages::Pages;
use crate::rest::rest_of;
use crate::source::Source;
use crate::step::{Step, step_at};
use crate::tree_box::TreeBox;
use crate::walk_context::WalkContext;
use std::alloc::Global;
use std::io;
use std::marker::Model;

/// A walk over the boxes of a file in order: each box, then the boxes inside it. It needs only headers and up to 12
/// bytes after each header.
#[derive(Drop)]
pub struct BoxWalk<S: Source> {
    pages: Pages<S>,
    at: u64,
    level: Level,
    around: Vec<Level>,
}

impl<S: Source> Model for BoxWalk<S> {
    ghost use Rattle.mp4_walk.specs.Walk.{Walk, IsWalk, walk_at};

    ghost Value = { Walk };

    ghost view = { λ t. walk_at t.pages t.at t.level t.around.items };

    ghost invariant = { λ t. IsWalk (walk_at t.pages t.at t.level t.around.items) };
}

/// Closes the levels that end at position `at` or before. Returns whether a level continues there.
fn close_levels(level: &mut Level, around: &mut Vec<Level>, at: u64) -> bool
    ensures closes { Closes at (level.old ∷ reverse around.old.items) (level.new ∷ reverse around.new.items) }
    ensures continues { result ≡ true → at < level.new.end }
    ensures over { result ≡ false → (level.new.end ≤ at) × (around.new.items ≡ []) }
{
    while at >= level.end {
        match around.pop() {
            Some(outer) => *level = outer,
            None => return false,
        }
    }
    true
}

/// Continues in the level inside the box if `step` enters it, else in the level after the box.
fn go_on(level: &mut Level, around: &mut Vec<Level>, step: Step) -> io::Result<()>
    ensures ok { OnOk result
        (level.new ∷ reverse around.new.items ≡ with_inner step.inner (step.level ∷ reverse around.old.items)) }
    ensures kept { OnErr result ((level.new ≡ level.old) × (around.new.items ≡ around.old.items)) }
{
    match step.inner {
        None => *level = step.level,
        Some(inner) => {
            around.push(step.level)?;
            *level = inner;
        }
    }
    Ok(())
}

impl<S: Source> BoxWalk<S> {
    /// Makes a walk over the boxes of `source`, starting at its first byte.
    pub fn new(alloc: Global, source: S) -> io::Result<BoxWalk<S>>
        ensures bytes { IfOk result (λ tree. tree.bytes ≡ S.all source) }
        ensures boxes { IfOk result (λ tree. IfSome tree.bytes (λ B. left B tree ≡ boxes_of B)) }
    {
        let pages = Pages::new(alloc, source)?;
        let level = Level {
            depth: 0,
            end: pages.length(),
            context: WalkContext {
                parent: 0,
                handler: 0,
                stsd_version: 0,
            },
        };
        Ok(BoxWalk {
            pages,
            at: 0,
            level,
            around: Vec::new(alloc),
        })
    }

    /// Returns the number of bytes of the source.
    pub fn length(&self) -> u64
        ensures length { result ≡ self.now.length }
        ensures known { IfSome self.now.bytes (λ bytes. result ≡ length bytes) }
    {
        self.pages.length()
    }

    /// Returns all bytes of the source if they are in memory.
    pub fn in_memory(&self) -> Option<&[u8]>
        ensures bytes { IfSome result (λ bytes. self.now.bytes ≡ Some bytes.now) }
    {
        self.pages.in_memory()
    }

    /// Returns the source.
    pub fn into_source(self) -> S
        ensures { S.all result ≡ self.bytes }
    {
        let BoxWalk {
            pages,
            at: _,
            level: _,
            around: _,
        } = self;
        pages.into_source()
    }

    /// Reads the content of `found`, like the function `read_content`. The walk stays at its position.
    pub fn read_content(&mut self, alloc: Global, found: &TreeBox) -> io::Result<Vec<u8>>
        ensures bytes { IfSome self.old.bytes (λ B. IfOk result (λ bytes. bytes.items ≡ content_of B found.now)) }
        ensures kept { self.new ≡ self.old }
    {
        self.pages.read_piece(
            alloc,
            found.position,
            found.header_length,
            found.content_length(),
        )
    }

    /// Reads `found` with its header, like the function `read_box`. The walk stays at its position.
    pub fn read_box(&mut self, alloc: Global, found: &TreeBox) -> io::Result<Vec<u8>>
        ensures bytes { IfSome self.old.bytes
            (λ B. IfOk result (λ bytes. bytes.items ≡ piece B found.now.position found.now.length)) }
        ensures kept { self.new ≡ self.old }
    {
        self.pages
            .read_piece(alloc, found.position, 0, found.length)
    }

    /// Returns the next box, or `None` after the last one. After an error, the next call tries the same box again.
    pub fn next(&mut self) -> io::Result<Option<TreeBox>>
        ensures comes { IfOk result
            (λ found. IfSome self.old.bytes (λ B. Comes (left B self.old) found (left B self.new))) }
        ensures again { OnErr result (IfSome self.old.bytes (λ B. left B self.new ≡ left B self.old)) }
        ensures takes { IfOk result (λ found. IfSome found (λ _. bytes_left self.new < bytes_left self.old)) }
        ensures bytes { self.new.bytes ≡ self.old.bytes }
        ensures length { self.new.length ≡ self.old.length }
    {
        if !close_levels(&mut self.level, &mut self.around, self.at) {
            return Ok(None);
        }
        let step = step_at(&mut self.pages, self.level, self.at)?;
        go_on(&mut self.level, &mut self.around, step)?;
        self.at = step.at;
        Ok(Some(step.found))
    }

    /// Returns the remaining boxes in order. Needs 80 bytes of memory per box.
    pub fn rest(&mut self, alloc: Global) -> io::Result<Vec<TreeBox>>
        ensures boxes { IfSome self.old.bytes (λ B. IfOk result (λ boxes. boxes.items ≡ left B self.old)) }
        ensures bytes { self.new.bytes ≡ self.old.bytes }
        ensures length { self.new.length ≡ self.old.length }
    {
        rest_of(alloc, self)
    }
}
