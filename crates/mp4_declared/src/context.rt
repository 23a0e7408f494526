//! The version and flags that decide which fields a box has.

/// The version and the flags of a full box (ISO/IEC 14496-12, 4.2). Both are 0 for a box without them.
#[derive(Clone, Copy, Debug, Drop, PartialEq, Eq)]
pub struct Context {
    /// The version.
    pub version: u8,
    /// The flags, 24 bits.
    pub flags: u32,
}
