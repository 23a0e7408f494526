//! Mismatches between the results and the expectations of checks.

ghost use Rattle.std.specs.Prelude.{◌≡◌, ◌↔◌, IsOk};

use super::outcomes::{Kind, kind_of};
use mp4_stream::{BoxType, Error};
use std::alloc::AllocError;

/// A difference between the result and the expectation of a check. The type has no reference, because a function that
/// returns the text of an error in it takes several times as long to prove.
#[derive(Debug, Drop)]
pub enum Mismatch {
    /// A call that should have succeeded had this kind of outcome.
    Failed(Kind),
    /// Reading a box of this size had a result of the wrong kind.
    Ending {
        found: Kind,
        expected: Kind,
        size: u64,
    },
    /// The cursor is at the wrong position.
    Position {
        found: u64,
        expected: u64,
    },
    /// A box has the wrong size, or is written as a wrong number of bytes.
    Length {
        found: u64,
        expected: u64,
    },
    /// The header of a box has the wrong name.
    Name {
        found: BoxType,
        expected: BoxType,
    },
    /// The wrong box is read from a buffer of this length, with this size.
    OtherBox {
        length: usize,
        size: u64,
    },
    /// The wrong bytes are written.
    OtherBytes,
    /// Two values that should be equal are not.
    OtherValue,
}

impl From<Error> for Mismatch {
    fn from(error: Error) -> Mismatch {
        Mismatch::Failed(kind_of::<()>(&Err(error)))
    }
}

impl From<AllocError> for Mismatch {
    fn from(_: AllocError) -> Mismatch {
        Mismatch::Failed(Kind::Memory)
    }
}

/// Expects that the position `found` of a cursor is `expected`.
pub(super) fn expect_position(found: u64, expected: u64) -> Result<(), Mismatch>
    ensures { IsOk result ↔ (found ≡ expected) }
{
    if found == expected {
        Ok(())
    } else {
        Err(Mismatch::Position { found, expected })
    }
}

/// Expects that the number `found` of bytes is `expected`.
pub(super) fn expect_length(found: u64, expected: u64) -> Result<(), Mismatch>
    ensures { IsOk result ↔ (found ≡ expected) }
{
    if found == expected {
        Ok(())
    } else {
        Err(Mismatch::Length { found, expected })
    }
}

/// Expects that the result of reading or writing a box of this size has the kind `expected`.
pub(super) fn expect_ending(found: Kind, expected: Kind, size: u64) -> Result<(), Mismatch>
    ensures { IsOk result ↔ (found ≡ expected) }
{
    if found == expected {
        Ok(())
    } else {
        Err(Mismatch::Ending {
            found,
            expected,
            size,
        })
    }
}
