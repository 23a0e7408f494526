//! A sample of a track.

ghost use Rattle.std.specs.Prelude.{◌≡◌, ◌+◌, ◌<◌, ◌≤◌, IfOk, IfErr, length, take, drop};
ghost use Rattle.mp4_frame.specs.declared.error.Error.TheVariants.{IoError};

use mp4_frame::{Error, Result};

/// A sample of a track.
#[derive(Clone, Copy, Debug, PartialEq, Eq)]
pub struct Sample {
    /// The offset of its first byte from the start of the file.
    pub offset: u64,
    /// The number of its bytes.
    pub size: u32,
    /// Its decode time, in the timescale of the media.
    pub start_time: u64,
    /// Its duration, in the timescale of the media.
    pub duration: u32,
    /// Its composition time minus its start time, in the timescale of the media. It is 0 if no table lists it.
    pub rendering_offset: i64,
    /// True for a sync sample.
    pub is_sync: bool,
    /// The index of its sample entry, counted from 1.
    pub sample_description_index: u32,
    /// The chunk that holds the sample, counted from 1. In a fragment it is the run, counted from 1.
    pub chunk: u32,
}

impl Sample {
    /// Returns the bytes of the sample in `file`. It fails with an unexpected end of input if `file` ends before them.
    pub fn bytes_of<'a>(&self, file: &'a [u8]) -> Result<&'a [u8]>
        ensures bytes { IfOk result (λ bytes. bytes.now ≡ take self.now.size (drop self.now.offset file.now)) }
        ensures within { IfOk result (λ bytes. self.now.offset + self.now.size ≤ length file.now) }
        ensures ended { IfErr result (λ e. e ≡ IoError) }
        ensures past { IfErr result (λ e. length file.now < self.now.offset + self.now.size) }
    {
        let length = file.len() as u64;
        let size = u64::from(self.size);
        if self.offset > length || size > length - self.offset {
            return Err(Error::IoError);
        }
        let begin = self.offset as usize;
        Ok(&file[begin..begin + size as usize])
    }
}
