//! Reads and writes the boxes of tracks, protection, items and metadata, and has an enum of them. Each box type is
//! declared by its shape, in a file of its name.
#![tactic(auto)]

pub mod alis;
pub mod data;
pub mod elng;
pub mod frma;
pub mod hdlr;
pub mod iloc;
pub mod infe;
pub mod iods;
pub mod ipma;
pub mod item_id;
pub mod keys;
pub mod kind;
pub mod mean;
pub mod name;
pub mod pitm;
pub mod pssh;
pub mod schm;
pub mod tenc;
pub mod track_box;
pub mod tref;
pub mod urn;
