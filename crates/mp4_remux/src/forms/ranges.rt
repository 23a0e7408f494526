//! Ranges of the old file, in the order of the new one.

use crate::forms::refusal::FormStop;
use crate::pieces::Piece;
use std::alloc::Global;

/// A range of the old file.
#[derive(Clone, Copy, Debug, PartialEq, Eq)]
pub struct Range {
    /// The position of its first byte.
    pub begin: u64,
    /// The position after its last byte.
    pub end: u64,
}

/// Ranges of the old file, in the order of the new one. A range that begins where the one before it ends is joined with
/// it.
#[derive(Debug, Drop)]
pub struct Ranges {
    /// The ranges.
    all: Vec<Range>,
    /// The number of their bytes.
    pub length: u64,
}

impl Ranges {
    /// Returns no ranges.
    pub(crate) fn new(alloc: Global) -> Ranges {
        Ranges {
            all: Vec::new(alloc),
            length: 0,
        }
    }

    /// Adds the `size` bytes at `offset`.
    pub(crate) fn push(&mut self, offset: u64, size: u64) -> Result<(), FormStop> {
        if size == 0 {
            return Ok(());
        }
        self.length = self.length.saturating_add(size);
        let end = offset.saturating_add(size);
        if let Some(last) = self.all.last_mut() {
            if last.end == offset {
                last.end = end;
                return Ok(());
            }
        }
        self.all.push(Range { begin: offset, end })?;
        Ok(())
    }

    /// Adds the ranges to `pieces`.
    pub(crate) fn add_to(&self, pieces: &mut Vec<Piece>) -> Result<(), FormStop> {
        for range in &self.all {
            pieces.push(Piece::Old {
                begin: range.begin,
                end: range.end,
            })?;
        }
        Ok(())
    }
}
