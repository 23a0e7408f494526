//! For callers that read and write headers of movies, tracks, media and fragments: the nine boxes with fixed fields.
#![tactic(auto)]

mod language;
pub mod laws;
mod matrix;
mod mdhd;
mod mehd;
mod mfhd;
mod mvhd;
mod rgb_color;
mod smhd;
mod tfdt;
mod time;
mod tkhd;
mod track_flag;
mod trex;
mod vmhd;

pub use language::{language_code, language_string};
pub use matrix::Matrix;
pub use mdhd::MdhdBox;
pub use mehd::MehdBox;
pub use mfhd::MfhdBox;
pub use mvhd::MvhdBox;
pub use rgb_color::RgbColor;
pub use smhd::SmhdBox;
pub use tfdt::TfdtBox;
pub use time::{put_time, time_at, time_fits, version_of_times, width_of_time};
pub use tkhd::TkhdBox;
pub use track_flag::TrackFlag;
pub use trex::TrexBox;
pub use vmhd::VmhdBox;
