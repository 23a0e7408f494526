//! A box of a file, with its position in the file and in the tree.

ghost use Rattle.std.specs.Prelude.{◌≡◌, ◌+◌, ◌-◌, ◌^◌, min};

use crate::fronts::Front;
use crate::walk_context::WalkContext;
use mp4_frame::FourCC;

/// The state of the bytes where a box should start.
#[derive(Clone, Copy, Debug, PartialEq, Eq)]
pub enum BoxState {
    /// A whole box that is not known to hold boxes.
    Leaf,
    /// A whole box that holds boxes. The walk visits them next.
    Parent,
    /// A whole box that holds boxes, but is too deep for the walk to enter.
    TooDeep,
    /// A box that ends after its parent or after the file. If it holds boxes, the walk visits the present ones next.
    Cut,
    /// A header with a size smaller than the header (ISO/IEC 14496-12, 4.2).
    Small,
    /// Fewer bytes than a header.
    NoHeader,
}

/// A box of a file, or the reason why none can be read where one should start. Positions and lengths are in bytes.
#[derive(Clone, Copy, Debug, PartialEq, Eq)]
pub struct TreeBox {
    /// The number of enclosing boxes: 0 at the top level of the file.
    pub depth: u64,
    /// The code of the box, if the file has enough bytes of its header.
    pub code: Option<FourCC>,
    /// The position in the file at which the header starts.
    pub position: u64,
    /// The length of the header, including the size: 8 or 16. If no box can be read, the length of the rest of the
    /// parent's content.
    pub header_length: u64,
    /// The length of the box by its header, even if the file ends before it. If no box can be read, the length of the
    /// rest of the parent's content.
    pub length: u64,
    /// The fields before the first box inside, if the box is known to hold boxes. It may be too short for them.
    pub front: Option<Front>,
    /// The position of the first box inside, if the walk enters the box. It visits the boxes inside next.
    pub children: Option<u64>,
    /// The state of the bytes there.
    pub state: BoxState,
    /// The context in which the box is read.
    pub context: WalkContext,
}

impl TreeBox {
    ghost use Rattle.mp4_walk.specs.Fronts.{is_quicktime_sound};
    ghost use Rattle.mp4_walk.specs.Paths.{is_code};
    ghost use Rattle.mp4_walk.specs.Tops.{is_whole};

    /// Returns whether the box has the code `code`. A box whose header is cut has none.
    pub fn has_code(&self, code: FourCC) -> bool
        ensures { result ≡ is_code code self.now.code }
    {
        match self.code {
            None => false,
            Some(found) => u32::from(found) == u32::from(code),
        }
    }

    /// Returns the position at which the content starts, but at most 2^64 - 1.
    pub fn content_position(&self) -> u64
        ensures { result ≡ min (self.now.position + self.now.header_length) (2 ^ 64 - 1) }
    {
        self.position.saturating_add(self.header_length)
    }

    /// Returns the length of the content by the header.
    pub fn content_length(&self) -> u64
        ensures { result ≡ self.now.length - self.now.header_length }
    {
        self.length.saturating_sub(self.header_length)
    }

    /// Returns whether the box has the fields of a sound entry that only QuickTime has.
    pub fn is_quicktime_sound(&self) -> bool
        ensures { result ≡ is_quicktime_sound self.now.front }
    {
        matches!(
            self.front,
            Some(Front::QuickTimeSound1 | Front::QuickTimeSound2)
        )
    }

    /// Returns whether the whole box is present.
    pub fn is_whole(&self) -> bool
        ensures { result ≡ is_whole self.now.state }
    {
        matches!(
            self.state,
            BoxState::Leaf | BoxState::Parent | BoxState::TooDeep
        )
    }
}
