//! Ranges of bytes of a file that are replaced by other bytes.

ghost use Rattle.std.specs.Prelude.{◌≡◌, ◌+◌, ◌-◌, IfOk, IfSome};
ghost use Rattle.std.specs.List.{list_any};
ghost use Rattle.mp4_remux.specs.Splices.{added, ends_before, has_byte, is_uneven, place, removed};

use std::alloc::{AllocError, Global};

/// A range of bytes of a file that is replaced by other bytes. Positions are in bytes from the front of the file.
#[derive(Debug, Drop)]
pub struct Splice {
    /// The number of boxes around it.
    pub depth: u64,
    /// The position of the first byte that is replaced.
    pub begin: u64,
    /// The position after the last byte that is replaced.
    pub end: u64,
    /// The new bytes.
    pub bytes: Vec<u8>,
}

impl Splice {
    /// Returns the number of bytes that it puts in.
    pub fn added(&self) -> u64
        ensures { result ≡ added self.now }
    {
        self.bytes.len() as u64
    }

    /// Returns the number of bytes that it takes out.
    pub fn removed(&self) -> u64
        ensures { result ≡ removed self.now }
    {
        self.end.saturating_sub(self.begin)
    }

    /// Returns whether it puts in another number of bytes than it takes out.
    pub fn is_uneven(&self) -> bool
        ensures { result ≡ is_uneven self.now }
    {
        self.added() != self.removed()
    }

    /// Returns whether it ends at the byte at position `at`, or before it.
    pub fn ends_before(&self, at: u64) -> bool
        ensures { result ≡ ends_before at self.now }
    {
        self.end <= at
    }

    /// Returns whether it replaces the byte at position `at`.
    pub fn has_byte(&self, at: u64) -> bool
        ensures { result ≡ has_byte at self.now }
    {
        self.begin <= at && at < self.end
    }

    /// Returns a copy.
    pub fn copy(&self, alloc: Global) -> Result<Splice, AllocError>
        ensures depth { IfOk result (λ s. s.depth ≡ self.now.depth) }
        ensures begin { IfOk result (λ s. s.begin ≡ self.now.begin) }
        ensures end { IfOk result (λ s. s.end ≡ self.now.end) }
        ensures bytes { IfOk result (λ s. s.bytes.items ≡ self.now.bytes.items) }
    {
        Ok(Splice {
            depth: self.depth,
            begin: self.begin,
            end: self.end,
            bytes: Vec::from_slice(alloc, self.bytes.as_slice())?,
        })
    }
}

/// Returns `number` with `added` more and then `removed` fewer. Returns `None` if that is below 0 or past 2^64 - 1.
fn resized(number: u64, added: u64, removed: u64) -> Option<u64>
    ensures { IfSome result (λ n. n ≡ number + added - removed) }
{
    number.checked_add(added)?.checked_sub(removed)
}

/// Returns the position at which the byte at position `at` is after `splices`, if none of them replaces it.
pub fn place(splices: &[Splice], at: u64) -> Option<u64>
    ensures { IfSome result (λ p. p ≡ place splices.now at) }
{
    let mut added: u64 = 0;
    let mut removed: u64 = 0;
    for splice in splices {
        if splice.ends_before(at) {
            added = added.checked_add(splice.added())?;
            removed = removed.checked_add(splice.removed())?;
        }
    }
    resized(at, added, removed)
}

/// Returns whether one of `splices` replaces the byte at position `at`.
pub fn has_byte(splices: &[Splice], at: u64) -> bool
    ensures { result ≡ list_any (has_byte at) splices.now }
{
    for splice in splices {
        if splice.has_byte(at) {
            return true;
        }
    }
    false
}
