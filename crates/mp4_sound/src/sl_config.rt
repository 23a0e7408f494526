//! The sync layer configuration descriptor.

ghost use Rattle.std.specs.Prelude.{◌≡◌};

/// The sync layer configuration descriptor (tag 6; ISO/IEC 14496-1, 7.3.2.3). None of its content is kept.
#[derive(Clone, Debug, Default, Drop, PartialEq, Eq)]
pub struct SLConfigDescriptor {}

impl SLConfigDescriptor {
    /// Creates the descriptor.
    pub fn new() -> SLConfigDescriptor
        ensures { result ≡ record {} }
    {
        SLConfigDescriptor {}
    }
}
