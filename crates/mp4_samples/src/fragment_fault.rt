//! The faults of the samples of a fragment.

use thiserror::Error;

/// A fault of a sample of a fragment. Runs and their samples are counted from 0.
#[derive(Clone, Copy, Debug, PartialEq, Eq, Error)]
pub enum FragmentFault {
    /// The sample is in a run after the first 2^32 - 1 runs.
    #[error("there are more than 2^32 - 1 runs")]
    Runs { run: usize, index: u32 },
    /// The sample begins before the start of the file, or ends past 2^64 - 1.
    #[error("sample {index} of run {run} is outside the file")]
    Offset { run: usize, index: u32 },
    /// The end time of the sample is past 2^64 - 1.
    #[error("sample {index} of run {run} ends past 2^64 - 1")]
    Time { run: usize, index: u32 },
}
