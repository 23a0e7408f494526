//! Tables of runs: entries that each stand for consecutive samples of one value.

ghost use Rattle.std.specs.Prelude.{◌≡◌, ℕ};

use mp4_tables::{CttsEntry, SttsEntry};

/// An entry of a table of runs.
pub trait Run: Copy {
    /// The number of samples in the run.
    ghost count: { Self → ℕ };

    /// Returns the number of samples in the run.
    fn count(&self) -> u32
        ensures { result ≡ count self.now };
}

impl Run for SttsEntry {
    ghost count = { λ e. e.sample_count };

    #[inline]
    fn count(&self) -> u32 {
        self.sample_count
    }
}

impl Run for CttsEntry {
    ghost count = { λ e. e.sample_count };

    #[inline]
    fn count(&self) -> u32 {
        self.sample_count
    }
}
