//! The rule of boxes that can't be read.

ghost use Rattle.std.specs.Prelude.{◌≡◌, ◌-◌, ◌&&◌, false, IfOk, IfSome, is_some, length, option_map};
ghost use Rattle.mp4_check.specs.Unreadable.{is_lost, is_refused, unread_what, unreadable};
ghost use Rattle.mp4_content.specs.Content.{is_faulty};
ghost use Rattle.mp4_movie.specs.Reads.{is_memory};

use crate::fault::{Reason, What};
use crate::media::file_length;
use mp4_content::{Content, Shown, content_of, not_mp4};
use mp4_frame::Error;
use mp4_io::Failure;
use mp4_walk::{BoxState, BoxWalk, Source, TreeBox};
use std::alloc::Global;

/// A box that can't be read: what is wrong, and the error of the reader.
#[derive(Debug, Drop)]
pub struct Unread {
    /// The cause.
    pub what: What,
    /// The error.
    pub reason: Reason,
}

/// Returns whether `found` is a box of the top level that ends after the file.
fn is_lost(found: &TreeBox) -> bool
    ensures { result ≡ is_lost found.now }
{
    found.depth == 0 && found.state == BoxState::Cut
}

/// Returns what is wrong with `found`, a box that can't be read, in a file of `length` bytes.
fn unread_what(found: &TreeBox, length: u64) -> What
    ensures { result ≡ unread_what length found.now }
{
    if let Some(why) = not_mp4(found) {
        return What::Foreign(why);
    }
    if is_lost(found) {
        return What::Lost {
            declared: found.length,
            present: length.saturating_sub(found.position),
        };
    }
    match found.state {
        BoxState::Cut | BoxState::NoHeader => What::Cut,
        BoxState::Small => What::Small,
        _ => What::Invalid,
    }
}

/// Returns whether `error` says that memory was refused.
fn is_memory(error: &Error) -> bool
    ensures { result ≡ is_memory error.now }
{
    matches!(error, Error::OutOfMemory)
}

/// Returns the fault that `content` shows, if it shows one.
fn error_of<B: Shown>(content: Content<B>) -> Result<Option<Error>, Failure>
    ensures some { IfOk result (λ r. is_some r ≡ is_faulty content) }
    ensures read { IfOk result (λ _. is_refused content ≡ false) }
{
    match content {
        Content::Faulty(error) => {
            if is_memory(&error) {
                return Err(Failure::Memory);
            }
            Ok(Some(error))
        }
        _ => Ok(None),
    }
}

/// Returns the fault of `found` if it can't be read. `B` is the type of the boxes that are read.
pub fn unreadable<B: Shown, S: Source>(
    alloc: Global,
    walk: &mut BoxWalk<S>,
    found: &TreeBox,
) -> Result<Option<Unread>, Failure>
    ensures value { IfSome walk.old.bytes
        (λ file. IfOk result
        (λ r. option_map (λ u. u.what) r ≡ unreadable B.known B.named_reading file found.now)) }
    ensures kept { walk.new ≡ walk.old }
{
    let content = content_of::<B, S>(alloc, walk, found)?;
    let length = file_length(walk);
    match error_of(content)? {
        Some(error) => Ok(Some(Unread {
            what: unread_what(found, length),
            reason: Reason::Content(error),
        })),
        None => Ok(None),
    }
}
