//! Lists of boxes of all types, and the boxes of a file as a tree.

use crate::node::Node;
use mp4_compose::{Either, Lossless};
use mp4_extra::ExtraBox;
use mp4_stream::KeptBox;

/// A box of a type of `mp4_extra` or of the codec, or the bytes of a box of another type. A list of them skips no box.
pub type AllBoxes = Either<ExtraBox, KeptBox>;

/// A container of boxes of `L` or a box of any type, or the bytes of a box if reading it as such would lose any of
/// them.
pub type Within<L> = Node<L, AllBoxes>;

/// The boxes of a file as a tree. Containers nest nine deep, as deep as `schi` in
/// `moov/trak/mdia/minf/stbl/stsd/encv/sinf`. Deeper containers are kept as bytes. Boxes are written as they were read,
/// except that headers of 16 bytes become headers of 8.
pub type BoxTree = Within<
    Within<Within<Within<Within<Within<Within<Within<Within<Lossless<AllBoxes>>>>>>>>>,
>;
