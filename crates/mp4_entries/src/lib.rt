//! Reads and writes the sample entries of AVC, HEVC and VP9 video and of timed text, with their decoder configurations.
#![tactic(auto)]

mod arrays;
mod avc1;
mod avcc;
mod hev1;
mod hvcc;
pub mod laws;
mod nal_unit;
mod rgba_color;
mod sets;
mod tx3g;
mod visual;
mod vp09;
mod vpcc;

pub use avc1::Avc1Box;
pub use avcc::AvcCBox;
pub use hev1::Hev1Box;
pub use hvcc::HvcCBox;
pub use nal_unit::NalUnit;
pub use rgba_color::RgbaColor;
pub use tx3g::Tx3gBox;
pub use vp09::Vp09Box;
pub use vpcc::VpccBox;
