//! For programs that say what a file is: the string of each codec (RFC 6381), durations, rates, languages, rotation,
//! channels, and more, as far as the boxes of the file can be read; and lines and JSON of these values.
#![tactic(auto)]

mod av1;
mod avc;
mod channels;
mod codec;
mod composition;
mod digits;
mod dolby;
mod durations;
mod entry;
mod facts;
mod file_json;
mod found;
mod headers;
mod hevc;
mod kinds;
mod languages;
mod mpeg4;
mod picture;
mod rates;
mod rotation;
mod rounding;
mod run_times;
mod sound;
mod table_ends;
mod tags;
mod text;
mod totals;
mod track_pieces;
mod visual;
mod vp;
mod words;

pub use av1::push_av1;
pub use avc::push_avc;
pub use channels::{Channels, aac_channels, ac3_channels, push_channels};
pub use codec::{EntryBoxes, ReadsEntries, codec_in, colours_of, sound_config};
pub use dolby::push_dolby;
pub use durations::{Duration, duration_of};
pub use entry::{Entry, EntryReading, Protection, ReadsEntry, entry_in, first_entry};
pub use facts::{
    FileFacts, FragmentTime, InfoBoxes, ReadsInfo, SampleFacts, TrackFacts, facts_of, is_known,
    longest,
};
pub use file_json::info_json;
pub use headers::{
    HeaderBoxes, Headers, ReadsHeaders, headers_in, id_of, language, timescale_of, turn,
};
pub use hevc::push_hevc;
pub use kinds::kind_of;
pub use languages::language_of;
pub use mpeg4::{push_mpeg4, push_mpeg4_audio, push_mpeg4_video};
pub use picture::{Picture, Size};
pub use rates::{FrameRate, bit_rate, frame_rate};
pub use rotation::rotation_of;
pub use rounding::rounded;
pub use run_times::times_of;
pub use sound::Sound;
pub use tags::{ItemValue, ReadsValue, Tag};
pub use text::info_text;
pub use totals::{Piece, Totals, key_frames, sample_bytes, sample_count, sample_time, totals_of};
pub use track_pieces::{AllPieces, TrackPieces, all_pieces};
pub use visual::visual_level;
pub use vp::push_vp;
