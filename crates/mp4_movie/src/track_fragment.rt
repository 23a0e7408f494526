//! A fragment of a track.

ghost use Rattle.mp4_movie.specs.Fragments.{IsFragmentOf, piece_of};

use mp4_flat::{TfdtBox, TrexBox};
use mp4_samples::Fragment;
use mp4_tables::{TfhdBox, TrunBox};

/// A fragment of a track: the values of its `traf`, and what its samples need from outside it.
#[derive(Debug, Drop)]
pub struct TrackFragment {
    /// The defaults of the track.
    pub defaults: TrexBox,
    /// The header.
    pub header: TfhdBox,
    /// The decode time of its first sample, if it states one.
    pub time: Option<TfdtBox>,
    /// The runs, in the order of the file.
    pub runs: Vec<TrunBox>,
    /// The position of its `moof` in the file, in bytes.
    pub moof: u64,
    /// The end of the data of the `traf` before it in the same `moof`, of any track, in bytes. If there is none, or if
    /// the header states the base of offsets, the position of the `moof`.
    pub data_end: u64,
}

impl TrackFragment {
    /// Returns the fragment as `mp4_samples` takes it. The samples of the track before it end at `time_end`, in ticks
    /// of the timescale of the media. That matters only if the fragment has no `tfdt`.
    pub fn fragment(&self, time_end: u64) -> Fragment<'_>
        ensures { IsFragmentOf (piece_of self.now) time_end result }
    {
        Fragment {
            trex: &self.defaults,
            tfhd: &self.header,
            tfdt: self.time.as_ref(),
            runs: self.runs.as_slice(),
            moof: self.moof,
            data_end: self.data_end,
            time_end,
        }
    }
}
