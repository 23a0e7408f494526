//! The context that determines how a box is read, besides the box itself.

/// The context that determines how a box is read, besides the box itself.
#[derive(Clone, Copy, Debug, PartialEq, Eq)]
pub struct WalkContext {
    /// The code of the enclosing box; 0 at the top level.
    pub parent: u32,
    /// The handler of the enclosing media, from the `hdlr` in its `mdia` (ISO/IEC 14496-12, 8.4.3); 0 before the
    /// `hdlr`.
    pub handler: u32,
    /// The version of the enclosing box if it is an `stsd` (8.5.2), else 0.
    pub stsd_version: u8,
}
