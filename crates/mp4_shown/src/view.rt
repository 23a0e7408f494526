//! The part of a box that is shown.

/// The part of a box that is shown.
#[derive(Clone, Copy, Debug, PartialEq, Eq)]
pub struct View {
    /// The number of entries of each list, starting at its first.
    pub rows: usize,
    /// True if lists that belong together, such as those of a track run, are wanted one after the other. If it is
    /// false, they are wanted as one list, whose entries have a member for each.
    pub columns: bool,
}
