//! The end of a box: a part that may be absent, or other bytes.

/// The end of a box.
#[derive(Clone, Copy, Debug, Drop, PartialEq, Eq)]
pub enum AtEnd<A, B> {
    /// The part.
    Known(A),
    /// Other bytes, if the part is absent.
    Other(B),
}
