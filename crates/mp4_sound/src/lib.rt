//! Reads and writes sample descriptions: `stsd`, and the sample entries of MPEG-4 audio with their descriptors.
#![tactic(auto)]

mod decoder_config;
mod decoder_specific;
mod descriptor_header;
mod es_descriptor;
mod esds;
pub mod laws;
mod mp4a;
mod sl_config;
mod stsd;
mod uint;
mod walk;

pub use decoder_config::DecoderConfigDescriptor;
pub use decoder_specific::DecoderSpecificDescriptor;
pub use es_descriptor::ESDescriptor;
pub use esds::EsdsBox;
pub use mp4a::Mp4aBox;
pub use sl_config::SLConfigDescriptor;
pub use stsd::StsdBox;
