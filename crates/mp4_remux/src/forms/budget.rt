//! A bound on the bytes of samples, so that they are in the file and share no bytes.

use crate::forms::refusal::FormRefusal;
use crate::refusal::TrackPlace;
use mp4_samples::Sample;

/// The bytes of a file that samples may still have. It bounds the size of the new file, and the time that it takes.
#[derive(Clone, Copy, Debug)]
pub struct Budget {
    /// The length of the file.
    length: u64,
    /// The number of bytes that are left.
    left: u64,
}

impl Budget {
    /// Returns the budget of a file of `length` bytes.
    pub(crate) fn new(length: u64) -> Budget {
        Budget {
            length,
            left: length,
        }
    }

    /// Takes the bytes of `sample`, sample `number` of `track`. Refuses a sample that is not in the file, and one
    /// after which the samples have more bytes than the file.
    pub(crate) fn take(
        &mut self,
        sample: &Sample,
        track: TrackPlace,
        number: u64,
    ) -> Result<(), FormRefusal> {
        let size = u64::from(sample.size);
        if size == 0 {
            return Ok(());
        }
        if sample.offset > self.length || size > self.length - sample.offset {
            return Err(FormRefusal::Outside {
                track,
                number,
                offset: sample.offset,
                size: sample.size,
            });
        }
        match self.left.checked_sub(size) {
            Some(left) => {
                self.left = left;
                Ok(())
            }
            None => Err(FormRefusal::Shared { track, number }),
        }
    }
}
