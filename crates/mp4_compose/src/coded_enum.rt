//! Enums of boxes that know names only by their codes.

ghost use Rattle.mp4_frame.specs.Members.{is_known};
ghost use Rattle.mp4_compose.specs.Either.{ByCode};

use crate::either::CodedBox;
use mp4_frame::BoxEnum;

/// An enum of boxes that knows names only by their codes.
pub trait CodedEnum: BoxEnum {
    /// The proof that names with the same code are known alike.
    ghost coded: { ByCode (λ name. is_known (Self.kinds name)) };
}

impl<E: CodedEnum> CodedBox for E {
    ghost by_code = { E.coded };
}
