//! Boxes of the codec, and `ssix` boxes among them.

use crate::ssix::SsixBox;
use mp4_stream::{AnyBox, Either};

/// An `ssix` or a box of the codec.
pub type SsixOrAny = Either<SsixBox, AnyBox>;
