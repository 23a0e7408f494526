//! The law that boxes whose fields are shown as JSON are read back. There is no code in this crate. A box keeps the
//! names of its fields to itself, so they stand here once more, and the prover finds that they are the same.
#![tactic(auto)]

mod av1c;
mod bits;
mod codec_entries;
mod codec_flat;
mod codec_tables;
mod codec_text;
mod codes;
mod colr;
mod comes_back;
mod dops;
mod entries;
mod exclusive;
mod group;
mod hdlr;
mod infe;
mod items;
mod numbers;
mod optional;
mod parts;
mod pictures;
mod pssh;
mod read_back;
mod read_codec;
mod runs;
mod samples;
mod signed;
mod sound;
mod tracks;
mod tuple;
mod tx3g;
mod urn;

pub use bits::SameNumbers;
pub use comes_back::{ComesBack, EntryComesBack};
pub use read_back::ReadBack;
pub use read_codec::ReadCodec;
