//! How a tree looks as text.

/// How a tree looks as text.
#[derive(Clone, Copy, Debug, PartialEq, Eq)]
pub struct Look {
    /// How many entries of each list are shown.
    pub rows: usize,
    /// How many columns a line may have; `usize::MAX` if it is not broken.
    pub width: usize,
    /// Whether names and faults have colours.
    pub color: bool,
}
