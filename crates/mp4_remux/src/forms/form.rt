//! The form of a file.

/// The form of a file: the boxes that list its samples.
#[derive(Clone, Copy, Debug, PartialEq, Eq)]
pub enum Form {
    /// Fragments list all samples.
    Fragments,
    /// Tables list all samples.
    Tables,
}
