//! Tests of values that cannot be written: a number does not fit its field, or a part belongs to another version or
//! flag. Such values cannot be read from bytes, so a row (bytes with the expected result) cannot cover them.

mod configurations;
mod descriptors;
mod items;
mod lists;
mod numbers;
mod parents;
mod sample_entries;
mod subjects;

use mp4_stream::author::{Declared, DeclaredBox};
use mp4_stream::{Entries, Error, WriteBox};
use std::alloc::{AllocError, Global};

/// The ending of writing a box. It is not a text, since a reference lengthens each step of a proof.
#[derive(Clone, Copy, Debug, PartialEq, Eq)]
pub(crate) enum Ending {
    /// The box is written.
    Written,
    /// A value does not fit its field.
    Unfit,
    /// Another fault.
    Other,
}

/// The ending of a box, unless memory ran out before it was written.
pub(crate) type Outcome = Result<Ending, AllocError>;

/// The outcome of a box that is written.
pub(crate) const WRITTEN: Outcome = Ok(Ending::Written);

/// The outcome of a box with a value that does not fit its field.
pub(crate) const UNFIT: Outcome = Ok(Ending::Unfit);

/// The text of the fault for a value that cannot be written.
const UNFIT_TEXT: &str = "value does not fit its field";

/// Writes `value` and returns the ending.
pub(crate) fn ending_of<B: WriteBox>(alloc: Global, value: &B) -> Ending {
    match value.write_box(&mut Vec::new(alloc)) {
        Ok(_) => Ending::Written,
        Err(Error::InvalidData(text)) if text == UNFIT_TEXT => Ending::Unfit,
        Err(_) => Ending::Other,
    }
}

/// Writes a box with these `fields` and returns the ending, like `ending_of`.
pub(crate) fn declared_ending<T: DeclaredBox>(alloc: Global, fields: T) -> Ending {
    ending_of(alloc, &Declared::new(fields))
}

/// Returns `bytes` as a list.
pub(crate) fn bytes_of(alloc: Global, bytes: &[u8]) -> Result<Entries<u8>, AllocError> {
    Ok(Vec::from_slice(alloc, bytes)?.into())
}
