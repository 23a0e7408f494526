//! The kinds of outcomes, and the texts of errors and values.

ghost use Rattle.std.specs.Prelude.{◌≡◌, ◌≢◌, Err, IfSome, IfNone};
ghost use Rattle.mp4_frame.specs.declared.error.Error.TheVariants.{InvalidData};
ghost use Rattle.test_shared.specs.Checks.{kind_of};
ghost use Rattle.test_shared.specs.declared.helpers.outcomes.Kind.TheVariants as kinds;

use mp4_stream::{BoxType, Error};
use std::alloc::{AllocError, Global};
use std::fmt::Debug;

/// The kind of the outcome of a call: an `Ok`, or an error without its text.
#[derive(Clone, Copy, Debug, PartialEq, Eq)]
pub enum Kind {
    /// An `Ok`.
    Ok,
    /// End of input.
    End,
    /// Invalid data.
    Invalid,
    /// A missing child of this name.
    NotFound(BoxType),
    /// Out of memory.
    Memory,
    /// Any other error.
    Other,
}

/// Returns the kind of `outcome`.
pub fn kind_of<T>(outcome: &Result<T, Error>) -> Kind
    ensures { result ≡ kind_of outcome.now }
{
    match outcome {
        Ok(_) => Kind::Ok,
        Err(Error::IoError) => Kind::End,
        Err(Error::InvalidData(_)) => Kind::Invalid,
        Err(Error::BoxNotFound(name)) => Kind::NotFound(*name),
        Err(Error::OutOfMemory) => Kind::Memory,
        Err(_) => Kind::Other,
    }
}

/// Returns the text of `outcome` if it is invalid data, or `None` otherwise.
pub fn invalid_text<T>(outcome: &Result<T, Error>) -> Option<&'static str>
    ensures text { IfSome result (λ text. outcome.now ≡ Err (InvalidData text)) }
    ensures none { IfNone result (kind_of outcome.now ≢ kinds.Invalid) }
{
    match outcome {
        Err(Error::InvalidData(text)) => Some(text),
        _ => None,
    }
}

/// Returns the text that `Debug` prints for `value`.
pub fn debug_text(alloc: Global, value: &impl Debug) -> Result<String, AllocError> {
    format!(in alloc; "{value:?}")
}
