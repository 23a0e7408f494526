//! Values of the boxes in a level.

ghost use Rattle.std.specs.Prelude.{◌≡◌, IfOk, IfSome};
ghost use Rattle.mp4_frame.specs.FourCC.{four_cc_of};
ghost use Rattle.mp4_movie.specs.Levels.{first_in};
ghost use Rattle.mp4_movie.specs.Problems.{ReturnsFor, Records};
ghost use Rattle.mp4_movie.specs.Reads.{value_at, optional, required};

use crate::error::{BoxError, MovieError};
use crate::level::first_in;
use crate::reading::read_at;
use mp4_frame::{FourCC, ReadBox};
use mp4_walk::{BoxWalk, Source, TreeBox};
use std::alloc::Global;
use std::io;

/// Returns the value of `found`, a box with `code`.
pub fn value_at<B: ReadBox + Drop, S: Source>(
    alloc: Global,
    walk: &mut BoxWalk<S>,
    code: u32,
    found: &TreeBox,
) -> io::Result<Result<B, BoxError>>
    ensures value { IfSome walk.old.bytes
        (λ file. IfOk result (λ r. Records r (value_at B.reads code file found.now))) }
    ensures kept { walk.new ≡ walk.old }
{
    match read_at::<B, S>(alloc, walk, found)? {
        Ok(value) => Ok(Ok(value)),
        Err(error) => Ok(Err(BoxError::Fault {
            code: FourCC::from(code),
            position: found.position,
            error,
        })),
    }
}

/// Returns the value of the first box with `code` in a level.
pub fn first_value<B: ReadBox + Drop, S: Source>(
    alloc: Global,
    walk: &mut BoxWalk<S>,
    level: &[TreeBox],
    depth: u64,
    code: u32,
) -> io::Result<Result<B, BoxError>>
    ensures value { IfSome walk.old.bytes
        (λ file. IfOk result
        (λ r. Records r (required B.reads code file (first_in depth (four_cc_of code) level.now)))) }
    ensures kept { walk.new ≡ walk.old }
{
    match first_in(level, depth, code) {
        Some(place) => value_at::<B, S>(alloc, walk, code, &place.found),
        None => Ok(Err(BoxError::Missing {
            code: FourCC::from(code),
        })),
    }
}

/// Returns the value of the first box with `code` in a level. Fails if it is missing or has a fault.
pub fn required<B: ReadBox + Drop, S: Source>(
    alloc: Global,
    walk: &mut BoxWalk<S>,
    level: &[TreeBox],
    depth: u64,
    code: u32,
) -> Result<B, MovieError>
    ensures value { ReturnsFor walk.old.bytes result
        (λ file. required B.reads code file (first_in depth (four_cc_of code) level.now)) }
    ensures kept { walk.new ≡ walk.old }
{
    match first_value::<B, S>(alloc, walk, level, depth, code)? {
        Ok(value) => Ok(value),
        Err(error) => Err(MovieError::Box(error)),
    }
}

/// Returns the value of the first box with `code` in a level, or `None` if there is none.
pub fn optional<B: ReadBox + Drop, S: Source>(
    alloc: Global,
    walk: &mut BoxWalk<S>,
    level: &[TreeBox],
    depth: u64,
    code: u32,
) -> Result<Option<B>, MovieError>
    ensures value { ReturnsFor walk.old.bytes result
        (λ file. optional B.reads code file (first_in depth (four_cc_of code) level.now)) }
    ensures kept { walk.new ≡ walk.old }
{
    let Some(place) = first_in(level, depth, code) else {
        return Ok(None);
    };
    match value_at::<B, S>(alloc, walk, code, &place.found)? {
        Ok(value) => Ok(Some(value)),
        Err(error) => Err(MovieError::Box(error)),
    }
}
